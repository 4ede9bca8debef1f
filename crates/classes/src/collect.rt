// What the axioms add to a class set. Each question is a loop of its own once it is compiled, which passes the axioms of other
// kinds by one test: a loop for all of them would find out at each axiom anew what is asked. The schema is an accepted record.
ghost use Rattle.std.specs.Prelude.{◌≡◌, ℕ};
ghost use Rattle.records.specs.declared.schema.Axiom.{Axiom as AnAxiom};
ghost use Rattle.records.specs.SchemaRecord.{schema_of};
ghost use Rattle.records.specs.SchemaRefusal.{AcceptedSchema};
ghost use Rattle.chase.specs.Axioms.{needs_by, single_by, values_by, collect as collect_in, values as values_in};
ghost use Rattle.records.specs.Helpers.InRange.{AxiomInRange};

use crate::sets::{has, place_if};
use records::schema::{Axiom, axiom_at, axioms};

fn needs_by(attribute: usize, rule: Axiom) -> u32
    requires { AxiomInRange rule }
    ensures { result ≡ needs_by attribute rule }
{
    match rule {
        Axiom::Necessary(a, p) => place_if(p == attribute, a),
        _ => 0,
    }
}

fn single_by(attribute: usize, rule: Axiom) -> u32
    requires { AxiomInRange rule }
    ensures { result ≡ single_by attribute rule }
{
    match rule {
        Axiom::Single(a, p) => place_if(p == attribute, a),
        _ => 0,
    }
}

fn values_by(set: u32, attribute: usize, rule: Axiom) -> u32
    requires { AxiomInRange rule }
    ensures { result ≡ values_by set attribute rule }
{
    match rule {
        Axiom::Typing(a, p, b) => place_if((p == attribute) & has(set, a), b),
        Axiom::Relates(p, _, b) => place_if(p == attribute, b),
        _ => 0,
    }
}

// All that the axioms add, each what `by` says of it. No fold: its closure would have to state again what `by` requires.
fn collect<F: Fn(Axiom) -> u32>(schema: &[u16], by: F) -> u32
    requires accepted { AcceptedSchema schema.now }
    requires asked { (rule : AnAxiom) → AxiomInRange rule → F.pre by rule }
    ensures { (f : AnAxiom → ℕ) → ((rule : AnAxiom) (c : ℕ) → F.post by rule c → c ≡ f rule) → result ≡ collect_in (schema_of schema.now) f }
{
    let mut found = 0;
    for i in 0..axioms(schema) {
        found |= by(axiom_at(schema, i));
    }
    found
}

// The classes whose objects have a value of the attribute.
pub fn needs_mask(schema: &[u16], attribute: usize) -> u32
    requires { AcceptedSchema schema.now }
    ensures { result ≡ collect_in (schema_of schema.now) (needs_by attribute) }
{
    collect(schema, |rule| needs_by(attribute, rule))
}

// The classes whose objects have at most one value of the attribute.
pub fn single_mask(schema: &[u16], attribute: usize) -> u32
    requires { AcceptedSchema schema.now }
    ensures { result ≡ collect_in (schema_of schema.now) (single_by attribute) }
{
    collect(schema, |rule| single_by(attribute, rule))
}

// The classes of a value of the attribute at an object with the classes of `set`.
pub fn values(schema: &[u16], set: u32, attribute: usize) -> u32
    requires { AcceptedSchema schema.now }
    ensures { result ≡ values_in (schema_of schema.now) set attribute }
{
    collect(schema, |rule| values_by(set, attribute, rule))
}
