// The answer by the start of the candidate, whose facts are given: held if the start is in the view. The candidate is legal and
// its start is in the query (crate chase), so that the judge is asked for the view alone.
ghost use Rattle.std.specs.Prelude.{◌≡◌, ◌≤◌, ◌<◌, ◌^◌, length};
ghost use Rattle.records.specs.Layout.{state_layout, length_for};
ghost use Rattle.decide.specs.Start.{start_inside, start_answer, start_words, Judged};

use crate::Witness;
use encoding::states::write;
use judge::member::selects;
use records::schema::Signature;
use records::state::{STATE_SIZES, STATE_WORDS};

// Most candidates have few facts; these are the sizes below the largest.
pub const FEW: usize = 256;

pub const SOME: usize = 2_048;

const FEW_WORDS: usize = STATE_SIZES + 2 * FEW;

const SOME_WORDS: usize = STATE_SIZES + 2 * SOME;

// Whether the start is in the view. The record is written to so many words: a function for each size, so that a small
// call clears few words.
fn inside_in<const WORDS: usize>(
    s: Signature,
    view: &[u16],
    objects: usize,
    start: usize,
    facts: &[u32],
) -> bool
    requires judged { Judged view.now objects start facts.now s }
    requires room { length_for state_layout (length facts.now) ≤ WORDS }
    requires few { WORDS < 2 ^ 32 }
    ensures { result ≡ start_inside view.now objects start facts.now }
{
    let mut words = [0u16; WORDS];
    let n = write(objects, facts, &mut words);
    selects(s, view, &words[..n], start)
}

// .. in words by the number of facts.
fn inside(s: Signature, view: &[u16], objects: usize, start: usize, facts: &[u32]) -> bool
    requires { Judged view.now objects start facts.now s }
    ensures { result ≡ start_inside view.now objects start facts.now }
{
    let n = facts.len();
    if n <= FEW {
        inside_in::<FEW_WORDS>(s, view, objects, start, facts)
    } else if n <= SOME {
        inside_in::<SOME_WORDS>(s, view, objects, start, facts)
    } else {
        inside_in::<STATE_WORDS>(s, view, objects, start, facts)
    }
}

// The lent words are not touched before the verdict, nor if they have no room for the largest record.
pub fn answer_by(
    s: Signature,
    view: &[u16],
    objects: usize,
    start: usize,
    facts: &[u32],
    lent: &mut [u16],
) -> Option<Witness>
    requires { Judged view.now objects start facts.now s }
    ensures answered { result ≡ start_answer view.now objects start facts.now }
    ensures words { lent.new ≡ start_words view.now objects start facts.now lent.old }
{
    if inside(s, view, objects, start, facts) {
        return None;
    }
    let witness = Witness {
        objects,
        object: start,
    };
    if lent.len() < STATE_WORDS {
        return Some(witness);
    }
    write(objects, facts, lent);
    Some(witness)
}
