// One pass over the facts of a kind: how many have their object in a set, in all or for each second object.
ghost use Rattle.std.specs.Prelude.{◌≡◌, ◌≤◌, ◌<◌, length, get_or};
ghost use Rattle.records.specs.Finite.{count, sum};
ghost use Rattle.records.specs.Layout.{state_layout, entries, max_objects, max_facts};
ghost use Rattle.records.specs.StateRecord.{object_at};
ghost use Rattle.index.specs.BitSet.{bit_at};
ghost use Rattle.links.specs.Counts.{Walkable, link_at, Tallied};

use index::bits::has;
use index::kinds::first_of_kind;
use records::layout::right;
use records::state::{MAX_OBJECTS, object_at, state_layout};
use rows::sizes::SET_WORDS;

// Whether the object of fact `i` is in the set: of a fact of the attribute's kind, whether it is a link.
fn is_link(state: &[u16], set: &[u64; SET_WORDS], i: usize) -> bool
    requires { i < max_facts }
    ensures { result ≡ bit_at set.now (object_at state.now i) }
{
    has(set, object_at(state, i))
}

// How many facts of a kind are links. They stand in the order of their objects, so the values of each are counted in a row.
pub fn count_links(state: &[u16], kind: usize, set: &[u64; SET_WORDS]) -> usize
    requires { Walkable state.now kind }
    ensures { result ≡ count (entries state_layout state.now) (link_at state.now kind set.now) }
{
    let from = first_of_kind(state, kind);
    let to = first_of_kind(state, kind + 1);
    (from..to).filter(|i| is_link(state, set, *i)).count()
}

// The same facts, with a count for each second object.
pub fn tally(state: &[u16], kind: usize, set: &[u64; SET_WORDS]) -> [u16; MAX_OBJECTS]
    requires { Walkable state.now kind }
    ensures { Tallied state.now kind set.now (entries state_layout state.now) result }
{
    let from = first_of_kind(state, kind);
    let to = first_of_kind(state, kind + 1);
    let mut counts = [0u16; MAX_OBJECTS];
    for i in from..to {
        let second = right(state_layout(), state, i);
        counts[second] += u16::from(is_link(state, set, i));
    }
    counts
}

// The first `n` counts together.
pub fn total(counts: &[u16; MAX_OBJECTS], n: usize) -> usize
    requires { n ≤ max_objects }
    ensures { result ≡ sum n (λ e. get_or counts.now e 0) }
{
    counts[..n].iter().map(|links| usize::from(*links)).sum()
}
