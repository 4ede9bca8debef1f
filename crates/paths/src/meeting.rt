// From which objects two paths lead to a common object: what their relations share.
ghost use Rattle.std.specs.Prelude.{◌+◌, ◌*◌, ◌≤◌, ◌<◌, ◌^◌, ◌≡◌, length};
ghost use Rattle.records.specs.StateRecord.{state_of, objects as objects_of};
ghost use Rattle.records.specs.Helpers.Reading.{path_at};
ghost use Rattle.rows.specs.Selection.{set_words};
ghost use Rattle.rows.specs.Blocks.{block_words, relation_words};
ghost use Rattle.paths.specs.Relation.{Room, Gathered, Shared, Met};
ghost use Rattle.paths.specs.Landings.{Walk};

use crate::relation::{Bases, relate};
use records::state::objects;
use rows::blocks::blocks_for;
use rows::sizes::{BLOCK_WORDS, SET_WORDS};

// Puts what rows `r` and `s` share into the set.
fn gather(out: &mut [u64; SET_WORDS], rows: &[u64], r: usize, s: usize, blocks: usize)
    requires out_len { length out.old ≡ set_words }
    requires block_words_bound { blocks * block_words ≤ set_words }
    requires block_words_in_bounds { (r + 1) * blocks * block_words ≤ length rows.now }
    requires block_words_in_bounds_2 { (s + 1) * blocks * block_words ≤ length rows.now }
    requires rows_len_bound { length rows.now < 2 ^ 32 }
    ensures { Gathered blocks out.old rows.now r s out.new }
{
    let words = blocks * BLOCK_WORDS;
    let first = &rows[r * words..][..words];
    let second = &rows[s * words..][..words];
    for (j, word) in out[..words].iter_mut().enumerate() {
        *word |= first[j] & second[j];
    }
}

// What some of the first `n` rows of the two relations share.
fn shared(rows: &[u64], bases: Bases, n: usize) -> [u64; SET_WORDS]
    requires block_words_bound { bases.blocks * block_words ≤ set_words }
    requires room { Room n bases rows.now }
    ensures { Shared n bases rows.now result }
{
    let mut out = [0u64; SET_WORDS];
    for t in 0..n {
        gather(&mut out, rows, bases.rel + t, bases.spare + t, bases.blocks);
    }
    out
}

// The objects from which the paths that end at `first` and at `last` lead to a common object. The lent words are for the
// rows of three relations.
pub fn meeting(
    words: &[u16],
    state: &[u16],
    landings: &[u64],
    first: usize,
    last: usize,
    rows: &mut [u64],
) -> [u64; SET_WORDS]
    requires walk { Walk words.now state.now landings.now first }
    requires walk_2 { Walk words.now state.now landings.now last }
    requires state_in_bounds { relation_words (objects_of state.now) ≤ length rows.old }
    requires rows_len_bound { length rows.old < 2 ^ 32 }
    ensures { Met (state_of state.now) (path_at words.now first) (path_at words.now last) rows.old rows.new result }
{
    let n = objects(state);
    let blocks = blocks_for(n);
    let ps = Bases {
        rel: 0,
        spare: 2 * n,
        blocks,
    };
    relate(words, state, landings, first, rows, ps);
    let qs = Bases { rel: n, ..ps };
    relate(words, state, landings, last, rows, qs);
    let both = Bases { spare: n, ..ps };
    shared(rows, both, n)
}
