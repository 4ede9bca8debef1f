// The facts that put objects into classes.
ghost use Rattle.std.specs.Prelude.{◌<◌, ◌≤◌};
ghost use Rattle.records.specs.Layout.{max_classes};
ghost use Rattle.chase.specs.Written.{gather};
ghost use Rattle.candidate.specs.Writing.{Room, Wrote};
ghost use Rattle.candidate.specs.Facts.{members_in};
ghost use Rattle.candidate.specs.Ready.{Sized};

use crate::number::Sizes;
use crate::put::{fact, put_if};
use classes::sets::{meets, place};
use forest::objects::{OBJECTS, classes_of};

// The objects of a class, with the closing one. The query's edges have no part in it.
fn class_row(
    schema: &[u16],
    objects: &[u64; OBJECTS],
    sizes: Sizes,
    class: usize,
    out: &mut [u32],
    count: usize,
) -> usize
    requires sized { Sized schema.now objects.now sizes × (class < max_classes) }
    requires room { Room count (members_in schema.now objects.now sizes class) out.old }
    ensures { Wrote count (members_in schema.now objects.now sizes class) out.old result out.new }
{
    let own = place(class);
    let total = sizes.total;
    let mut at = count;
    for d in 0..total {
        let set = classes_of(schema, objects, sizes.ground, sizes.made, d);
        at = put_if(meets(set, own), fact(class, d, 0), out, at);
    }
    at
}

// .. of each of the first `classes` classes.
pub fn class_rows(
    schema: &[u16],
    objects: &[u64; OBJECTS],
    sizes: Sizes,
    classes: usize,
    out: &mut [u32],
    count: usize,
) -> usize
    requires sized { Sized schema.now objects.now sizes × (classes ≤ max_classes) }
    requires room { Room count (gather classes (members_in schema.now objects.now sizes)) out.old }
    ensures { Wrote count (gather classes (members_in schema.now objects.now sizes)) out.old result out.new }
{
    let mut at = count;
    for class in 0..classes {
        at = class_row(schema, objects, sizes, class, out, at);
    }
    at
}
