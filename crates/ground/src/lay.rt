// The objects of the ground in the array of all objects, each a word of its class set and the mark that it was not made.
ghost use Rattle.std.specs.Prelude.{◌≡◌, ◌≤◌, length};
ghost use Rattle.records.specs.Layout.{max_objects};
ghost use Rattle.primary.specs.Formed.{prime, Formed};
ghost use Rattle.chase.specs.Bounds.{max_nodes};
ghost use Rattle.ground.specs.Objects.{ground_word};
ghost use Rattle.ground.specs.Laying.{Grounds};

use crate::number::live;
use primary::prime::set_of;
use records::state::MAX_OBJECTS;

// A word's part for the link of a made object, and the link that none has.
pub const LINK_PART: u64 = 65536;

const NO_LINK: u64 = 65535;

fn ground_word(set: u32) -> u64
    ensures { result ≡ ground_word set }
{
    u64::from(set) * LINK_PART + NO_LINK
}

// Returns how many objects there are. The word of a node that is not live is written over by the next.
pub fn lay(reps: &[u32], sets: &[u32], objects: &mut [u64; MAX_OBJECTS]) -> usize
    requires { Formed reps.now sets.now × (length reps.now ≤ max_nodes) × (length objects.old ≡ max_objects) }
    ensures { Grounds (prime reps.now sets.now) (length reps.now) result objects.new }
{
    let mut count = 0;
    for i in 0..reps.len() {
        objects[count] = ground_word(set_of(reps, sets, i));
        count += usize::from(live(reps, i));
    }
    count
}
