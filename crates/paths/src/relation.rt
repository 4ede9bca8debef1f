// The relation of a path: a row for each target that there is, the set of the origins that lead there. The rows of several
// relations stand in one lent list, and a step goes from the rows of one to those of another.
ghost use Rattle.std.specs.Prelude.{◌+◌, ◌*◌, ◌≤◌, ◌<◌, ◌^◌, length};
ghost use Rattle.records.specs.Layout.{state_layout, entries};
ghost use Rattle.records.specs.StateRecord.{state_of, objects as objects_of};
ghost use Rattle.records.specs.Helpers.Reading.{path_at};
ghost use Rattle.rows.specs.Selection.{set_words};
ghost use Rattle.paths.specs.Steps.{Followable, object_in};
ghost use Rattle.paths.specs.Relation.{Room, Cleared, Diagonal, Followed, Stepped, Related};
ghost use Rattle.paths.specs.Landings.{Walk};

use crate::steps::{Ends, Step, ends_of, object_in, step_at};
use index::bits::{has, insert};
use index::kinds::first_of_kind;
use reading::start_of;
use records::state::objects;
use rows::blocks::merge;
use rows::sets::row;
use rows::sizes::{BLOCK_BITS, BLOCK_WORDS, SET_WORDS};

// Where the rows of a relation begin, and those of a spare one, counted in rows of so many blocks.
#[derive(Clone, Copy)]
pub struct Bases {
    pub rel: usize,
    pub spare: usize,
    pub blocks: usize,
}

// The relation's `n` rows become empty.
fn clear(rows: &mut [u64], bases: Bases, n: usize)
    requires { Room n bases rows.old }
    ensures { Cleared n bases rows.old rows.new }
{
    let from = bases.rel * bases.blocks * BLOCK_WORDS;
    let count = n * bases.blocks * BLOCK_WORDS;
    rows[from..from + count].fill(0);
}

// Each object below `n` to itself.
fn identity(rows: &mut [u64], bases: Bases, n: usize)
    requires { Room n bases rows.old }
    ensures { Diagonal n bases rows.old rows.new }
{
    clear(rows, bases, n);
    for t in 0..n {
        insert(rows, (bases.rel + t) * bases.blocks * BLOCK_BITS + t);
    }
}

// If the target of fact `i` is in the set, it gets the origins of the fact's origin.
fn follow(
    state: &[u16],
    ends: Ends,
    set: &[u64; SET_WORDS],
    rows: &mut [u64],
    bases: Bases,
    i: usize,
)
    requires i_bound { ends.origins + i < 2 ^ 32 }
    requires i_bound_2 { ends.targets + i < 2 ^ 32 }
    requires i_bound_3 { object_in state.now ends.targets i < objects_of state.now }
    requires i_bound_4 { object_in state.now ends.origins i < objects_of state.now }
    requires room { Room (objects_of state.now) bases rows.old }
    ensures { Followed state.now ends set.now bases rows.old i rows.new }
{
    let target = object_in(state, ends.targets, i);
    if has(set, target) {
        let origin = object_in(state, ends.origins, i);
        merge(rows, bases.rel + target, bases.spare + origin, bases.blocks);
    }
}

// The step added at the path's end: from the path's relation, in the spare rows, to that of the path with the step. It lands
// on objects of row `at` of the landings.
fn advance(state: &[u16], step: Step, landings: &[u64], at: usize, rows: &mut [u64], bases: Bases)
    requires followable { Followable state.now step }
    requires set_words_in_bounds { at * set_words + set_words ≤ length landings.now }
    requires room { Room (objects_of state.now) bases rows.old }
    ensures { Stepped state.now step landings.now at bases rows.old (entries state_layout state.now) rows.new }
{
    clear(rows, bases, objects(state));
    let from = first_of_kind(state, step.kind);
    let to = first_of_kind(state, step.kind + 1);
    let ends = ends_of(state, step.backward);
    let set = row(landings, at);
    for i in from..to {
        follow(state, ends, &set, rows, bases, i);
    }
}

// The relation of the path that ends at `end`. A path with a step goes by the spare rows.
pub fn relate(
    words: &[u16],
    state: &[u16],
    landings: &[u64],
    end: usize,
    rows: &mut [u64],
    bases: Bases,
)
    requires walk { Walk words.now state.now landings.now end }
    requires room { Room (objects_of state.now) bases rows.old }
    ensures { Related (state_of state.now) (path_at words.now end) bases rows.old rows.new }
{
    let at = end - 1;
    if let Some(step) = step_at(words, at) {
        let before = Bases {
            rel: bases.spare,
            spare: bases.rel,
            ..bases
        };
        relate(words, state, landings, start_of(words, at), rows, before);
        advance(state, step, landings, at, rows, bases);
    } else {
        identity(rows, bases, objects(state));
    }
}
