// From which objects a path leads anywhere: from its end backward, step by step, the set from which the rest leads on.
ghost use Rattle.std.specs.Prelude.{◌+◌, ◌*◌, ◌≤◌, ◌<◌, ◌^◌, ◌≡◌, length};
ghost use Rattle.records.specs.Concept.{reached};
ghost use Rattle.records.specs.Layout.{state_layout, entries};
ghost use Rattle.records.specs.StateRecord.{state_of};
ghost use Rattle.records.specs.Helpers.Reading.{path_at};
ghost use Rattle.rows.specs.Selection.{set_words, Selection};
ghost use Rattle.paths.specs.Steps.{Followable, Led, Origins};
ghost use Rattle.paths.specs.Landings.{Walk};

use crate::steps::{Ends, Step, ends_of, object_in, step_at};
use index::bits::{has, insert};
use index::kinds::first_of_kind;
use reading::start_of;
use records::state::objects;
use rows::sets::{everything, row, shared_row};
use rows::sizes::SET_WORDS;

// Fact `i` puts its origin into `out` if its target is in `into`. Few facts are the first of their origin, and of the others
// the target need not be read.
fn lead(state: &[u16], ends: Ends, into: &[u64; SET_WORDS], out: &mut [u64; SET_WORDS], i: usize)
    requires i_bound { ends.origins + i < 2 ^ 32 }
    requires i_bound_2 { ends.targets + i < 2 ^ 32 }
    requires out_len { length out.old ≡ set_words }
    ensures { Led state.now ends into.now out.old i out.new }
{
    let origin = object_in(state, ends.origins, i);
    if !has(out, origin) {
        let target = object_in(state, ends.targets, i);
        if has(into, target) {
            insert(out, origin);
        }
    }
}

// The objects from which the step leads into the set. It lands on objects of row `at` of the landings.
fn origins(
    state: &[u16],
    step: Step,
    landings: &[u64],
    at: usize,
    into: &[u64; SET_WORDS],
) -> [u64; SET_WORDS]
    requires followable { Followable state.now step }
    requires set_words_in_bounds { at * set_words + set_words ≤ length landings.now }
    requires into_len { length into.now ≡ set_words }
    ensures { Origins state.now step landings.now at into.now (entries state_layout state.now) result }
{
    let from = first_of_kind(state, step.kind);
    let to = first_of_kind(state, step.kind + 1);
    let ends = ends_of(state, step.backward);
    let landed = row(landings, at);
    let both = shared_row(&landed, into, 0);
    let mut out = [0u64; SET_WORDS];
    for i in from..to {
        lead(state, ends, &both, &mut out, i);
    }
    out
}

// The objects from which the path that ends at `end` leads to some object.
pub fn reaching(words: &[u16], state: &[u16], landings: &[u64], end: usize) -> [u64; SET_WORDS]
    requires { Walk words.now state.now landings.now end }
    ensures { Selection (state_of state.now) (reached (path_at words.now end)) result }
{
    let mut set = everything(objects(state));
    let mut at = end - 1;
    while let Some(step) = step_at(words, at) {
        set = origins(state, step, landings, at, &set);
        at = start_of(words, at) - 1;
    }
    set
}
