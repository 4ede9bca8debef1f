// The facts that name the constants' objects. The constants' nodes stand in a row from `first`.
ghost use Rattle.std.specs.Prelude.{◌+◌, ◌≤◌, length};
ghost use Rattle.records.specs.Layout.{max_constants};
ghost use Rattle.chase.specs.Bounds.{max_nodes};
ghost use Rattle.ground.specs.Numbers.{Inside};
ghost use Rattle.candidate.specs.Writing.{Room, Wrote};
ghost use Rattle.candidate.specs.Facts.{name_facts};

use crate::put::{fact, put_if};
use ground::number::object_of;
use records::state::CONSTANT_KINDS;

pub fn name_facts(
    reps: &[u32],
    first: usize,
    constants: usize,
    out: &mut [u32],
    count: usize,
) -> usize
    requires inside { Inside reps.now × (length reps.now ≤ max_nodes) × (first + constants ≤ length reps.now) × (constants ≤ max_constants) }
    requires room { Room count (name_facts reps.now first constants) out.old }
    ensures { Wrote count (name_facts reps.now first constants) out.old result out.new }
{
    let mut at = count;
    for a in 0..constants {
        let d = object_of(reps, first + a);
        at = put_if(true, fact(CONSTANT_KINDS + a, d, 0), out, at);
    }
    at
}
