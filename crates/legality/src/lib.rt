// The first broken axiom of an accepted state under an accepted schema, by its place in the schema record.
// For each axiom one pass over the objects or over the facts of its attribute; the first that breaks it ends the search.
#![tactic(auto)]

ghost use Rattle.std.specs.Prelude.{◌≡◌};
ghost use Rattle.records.specs.Executable.{broken};
ghost use Rattle.records.specs.SchemaRecord.{schema_of};
ghost use Rattle.records.specs.StateRecord.{state_of};
ghost use Rattle.legality.specs.Legality.{Judged};

use asked::{objects_asked, pairs_asked};
use breaks::{misplaced, object_breaks};
use index::left::TABLE_WORDS;
use records::schema::{Signature, axiom_at, axioms};
use records::state::objects;

mod asked;
mod breaks;

// The signature is that under which the state was accepted; only the contract asks for it.
pub fn first_broken(
    s: Signature,
    schema: &[u16],
    state: &[u16],
    seen: &[u64; TABLE_WORDS],
) -> Option<usize>
    requires { Judged s schema.now state.now seen.now }
    ensures { result ≡ broken (schema_of schema.now) (state_of state.now) }
{
    let objects = objects(state);
    let mut found = None;
    'search: for i in 0..axioms(schema) {
        let a = axiom_at(schema, i);
        for d in objects_asked(a, objects) {
            if object_breaks(a, seen, d) {
                found = Some(i);
                break 'search;
            }
        }
        for f in pairs_asked(a, state) {
            if misplaced(a, state, seen, f) {
                found = Some(i);
                break 'search;
            }
        }
    }
    found
}
