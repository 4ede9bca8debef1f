// The facts that give the used marks their objects.
ghost use Rattle.std.specs.Prelude.{◌≤◌, length};
ghost use Rattle.chase.specs.Bounds.{max_nodes};
ghost use Rattle.ground.specs.Numbers.{Inside};
ghost use Rattle.candidate.specs.Writing.{Room, Wrote};
ghost use Rattle.candidate.specs.Facts.{mark_facts};
ghost use Rattle.candidate.specs.Ready.{NodesIn};

use crate::number::Sizes;
use crate::put::{fact, put_if};
use ground::number::object_of;
use primary::rules::{MAX_NODES, PART};
use records::marks::{MAX_MARKS, allows};
use records::schema::Signature;
use records::state::MARK_KINDS;

// The set of the marks that the query uses, and the node of each, from MAX_NODES on.
#[derive(Clone, Copy)]
pub struct Marks {
    pub used: u32,
    pub nodes: [u16; PART],
}

// What the facts are listed by, beside the arrays.
#[derive(Clone, Copy)]
pub struct Shape {
    pub sizes: Sizes,
    pub marks: Marks,
}

// The signature allows the marks that are used.
pub fn mark_facts(
    s: Signature,
    reps: &[u32],
    nodes: &[u16; PART],
    out: &mut [u32],
    count: usize,
) -> usize
    requires inside { Inside reps.now × (length reps.now ≤ max_nodes) × NodesIn (length reps.now) nodes.now }
    requires room { Room count (mark_facts s reps.now nodes.now) out.old }
    ensures { Wrote count (mark_facts s reps.now nodes.now) out.old result out.new }
{
    let mut at = count;
    for k in 0..MAX_MARKS {
        let d = object_of(reps, usize::from(nodes[MAX_NODES + k]));
        at = put_if(allows(s, k), fact(MARK_KINDS + k, d, 0), out, at);
    }
    at
}
