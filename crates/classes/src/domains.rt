// The domains of all attributes as a table, made in one pass over the axioms, since each round of raising a set and each
// edge of a query looks them up again. The schema is an accepted record.
ghost use Rattle.std.specs.Prelude.{◌≡◌, ◌<◌, length, get_or};
ghost use Rattle.records.specs.Layout.{max_attributes};
ghost use Rattle.records.specs.SchemaRefusal.{AcceptedSchema};
ghost use Rattle.records.specs.Helpers.InRange.{AxiomInRange};
ghost use Rattle.classes.specs.Domains.{DomainTable};

use crate::sets::place;
use records::schema::{Axiom, MAX_ATTRIBUTES, axiom_at, axioms};

pub fn domains(schema: &[u16]) -> [u32; MAX_ATTRIBUTES]
    requires { AcceptedSchema schema.now }
    ensures { DomainTable schema.now result }
{
    let mut table = [0; MAX_ATTRIBUTES];
    for i in 0..axioms(schema) {
        if let Axiom::Relates(p, a, _) = axiom_at(schema, i) {
            table[p] |= place(a);
        }
    }
    table
}

// The entry of any attribute: one that no schema can declare has no domain.
pub fn domain_at(table: &[u32; MAX_ATTRIBUTES], attribute: usize) -> u32
    requires { length table.now ≡ max_attributes }
    ensures { result ≡ get_or table.now attribute 0 }
{
    table.get(attribute).copied().unwrap_or(0)
}
