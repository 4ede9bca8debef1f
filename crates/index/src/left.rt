// Which left words the facts of a state have, as a set with a bit for each kind and object.
ghost use Rattle.index.specs.Index.{Indexes};

use crate::bits::{WORD_BITS, insert};
use records::layout::left;
use records::state::{FACT_KINDS, OBJECT_PART, facts, state_layout};

// A bit for each kind of fact and each object that a left word can tell apart.
pub const TABLE_BITS: usize = FACT_KINDS * OBJECT_PART;

pub const TABLE_WORDS: usize = TABLE_BITS / WORD_BITS;

// One pass over the left words. A left word past the table is of no kind that there is, and is passed over: so any
// words will do, and an index of an accepted state has all its facts. The loop goes by the facts' numbers and not over a
// slice, since a left word past the end of the words counts as 0.
pub fn index(words: &[u16]) -> [u64; TABLE_WORDS]
    ensures { Indexes words.now result }
{
    let n = facts(words);
    let mut seen = [0u64; TABLE_WORDS];
    for i in 0..n {
        let b = left(state_layout(), words, i);
        if b < TABLE_BITS {
            insert(&mut seen, b);
        }
    }
    seen
}
