// Facts as numbers, and the lent list to which they are written.
ghost use Rattle.std.specs.Prelude.{◌≡◌, ◌<◌};
ghost use Rattle.records.specs.Layout.{object_part, fact_kinds};
ghost use Rattle.records.specs.Encoding.{fact as fact_of};
ghost use Rattle.candidate.specs.Writing.{Room, Wrote, fact_if};

use records::state::{OBJECT_PART, WORD_PART};

pub fn fact(kind: usize, d: usize, right: usize) -> u32
    requires { (kind < fact_kinds) × (d < object_part) × (right < object_part) }
    ensures { result ≡ fact_of kind d right }
{
    ((kind * OBJECT_PART + d) * WORD_PART + right) as u32
}

// The fact, if the test passes, at `count`. Returns the count after it.
pub fn put_if(test: bool, fact: u32, out: &mut [u32], count: usize) -> usize
    requires { Room count (fact_if test fact) out.old }
    ensures { Wrote count (fact_if test fact) out.old result out.new }
{
    if !test {
        return count;
    }
    out[count] = fact;
    count + 1
}
