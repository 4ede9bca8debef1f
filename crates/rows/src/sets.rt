// Sets of objects as words of bits, alone or as rows of a list of them.
ghost use Rattle.std.specs.Prelude.{◌+◌, ◌*◌, ◌≤◌, ◌<◌, ◌^◌, ◌≡◌, length};
ghost use Rattle.records.specs.Layout.{object_part, state_layout, entries, max_facts};
ghost use Rattle.index.specs.Kinds.{KindsRise};
ghost use Rattle.rows.specs.Selection.{set_words};
ghost use Rattle.rows.specs.Rows.{Row, SharedRow, KindSet, Put, Below};

use crate::sizes::SET_WORDS;
use index::bits::insert;
use index::kinds::first_of_kind;
use records::state::object_at;

// Row `t` of `ws` as a set.
pub fn row(ws: &[u64], t: usize) -> [u64; SET_WORDS]
    requires { t * set_words + set_words ≤ length ws.now }
    ensures { Row ws.now t result }
{
    let at = t * SET_WORDS;
    std::array::from_fn(|j| ws[at + j])
}

// What row `t` of `ps` and of `qs` share.
pub fn shared_row(ps: &[u64], qs: &[u64], t: usize) -> [u64; SET_WORDS]
    requires set_words_in_bounds { t * set_words + set_words ≤ length ps.now }
    requires set_words_in_bounds_2 { t * set_words + set_words ≤ length qs.now }
    ensures { SharedRow ps.now qs.now t result }
{
    let at = t * SET_WORDS;
    std::array::from_fn(|j| ps[at + j] & qs[at + j])
}

// The set becomes row `r` of `ws`.
pub fn put(ws: &mut [u64], r: usize, set: &[u64; SET_WORDS])
    requires set_words_in_bounds { r * set_words + set_words ≤ length ws.old }
    requires set_len { length set.now ≡ set_words }
    ensures { Put ws.old r set.now ws.new }
{
    let at = r * SET_WORDS;
    ws[at..at + SET_WORDS].copy_from_slice(set);
}

// The objects that the facts of a kind name: these facts alone are looked at.
pub fn kind_set(state: &[u16], kind: usize) -> [u64; SET_WORDS]
    requires { KindsRise state.now × (entries state_layout state.now ≤ max_facts) × (kind < 2 ^ 17) }
    ensures { KindSet state.now kind result }
{
    let from = first_of_kind(state, kind);
    let to = first_of_kind(state, kind + 1);
    let mut out = [0u64; SET_WORDS];
    for i in from..to {
        insert(&mut out, object_at(state, i));
    }
    out
}

// The objects below `n`.
pub fn everything(n: usize) -> [u64; SET_WORDS]
    requires { n ≤ object_part }
    ensures { Below n result }
{
    let mut out = [0u64; SET_WORDS];
    for d in 0..n {
        insert(&mut out, d);
    }
    out
}
