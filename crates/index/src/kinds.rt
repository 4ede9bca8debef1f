// Where the facts of a kind stand. The facts of an accepted state ascend, so those of one kind stand in a row, and halving
// finds where it begins.
ghost use Rattle.index.specs.Kinds.{KindsRise, KindParts};

use records::state::{facts, kind_at};

// The place of the first fact of this kind or a higher one, or the number of facts. It halves by hand, since no slice need
// hold all left words: a record can have fewer words than its count says, and those past the end are read as 0.
pub fn first_of_kind(state: &[u16], kind: usize) -> usize
    requires { KindsRise state.now }
    ensures { KindParts state.now kind result result }
{
    let mut low = 0;
    let mut high = facts(state);
    while low < high {
        let middle = (low + high) / 2;
        if kind_at(state, middle) < kind {
            low = middle + 1;
        } else {
            high = middle;
        }
    }
    low
}
