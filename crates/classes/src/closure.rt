// All classes that the axioms force on an object, from some that it has. The schema is an accepted record.
ghost use Rattle.std.specs.Prelude.{◌≡◌};
ghost use Rattle.records.specs.SchemaRecord.{schema_of};
ghost use Rattle.records.specs.SchemaRefusal.{AcceptedSchema};
ghost use Rattle.chase.specs.Axioms.{raise as raise_in, closure as closure_in, image as image_in};
ghost use Rattle.records.specs.Helpers.InRange.{AxiomInRange};
ghost use Rattle.classes.specs.Domains.{DomainTable, RaisesBy};
ghost use Rattle.classes.specs.Sets.{DeclaredSet};

use crate::collect::values;
use crate::domains::domains;
use crate::sets::{has, place_if};
use records::schema::{Axiom, MAX_ATTRIBUTES, axiom_at, axioms};

fn raise_by(table: &[u32; MAX_ATTRIBUTES], set: u32, rule: Axiom) -> u32
    requires { AxiomInRange rule }
    ensures { RaisesBy table.now set rule result }
{
    match rule {
        Axiom::Subclass(a, b) => place_if(has(set, a), b),
        Axiom::Necessary(a, p) if has(set, a) => table[p],
        _ => 0,
    }
}

// One round over the axioms. The caller makes the table once for all its rounds.
pub fn raise(schema: &[u16], table: &[u32; MAX_ATTRIBUTES], set: u32) -> u32
    requires { AcceptedSchema schema.now × DomainTable schema.now table.now }
    ensures { result ≡ raise_in (schema_of schema.now) set }
{
    (0..axioms(schema)).fold(
        set,
        |raised, i| raised | raise_by(table, raised, axiom_at(schema, i)),
    )
}

// Rounds until the set stands still. It only grows, so that there is an end.
pub fn closure(schema: &[u16], set: u32) -> u32
    requires { AcceptedSchema schema.now × DeclaredSet schema.now set }
    ensures { result ≡ closure_in (schema_of schema.now) set }
{
    let table = domains(schema);
    let mut closed = set;
    let mut next = raise(schema, &table, set);
    while next != closed {
        closed = next;
        next = raise(schema, &table, closed);
    }
    closed
}

// All classes of a value of the attribute at an object with the classes of `set`.
pub fn image(schema: &[u16], set: u32, attribute: usize) -> u32
    requires { AcceptedSchema schema.now }
    ensures { result ≡ image_in (schema_of schema.now) set attribute }
{
    closure(schema, values(schema, set, attribute))
}
