// Values are made: an object that needs a value of an attribute and has none gets one.
ghost use Rattle.forest.specs.Kept.{Grows};
ghost use Rattle.forest.specs.Places.{made_for};
ghost use Rattle.forest.specs.Making.{made_at, made_all, CanMake, CanMakeAll, CanMakeFor};

use crate::objects::{OBJECTS, classes_at, lacks, word};
use crate::places::{Here, Root, Step};
use classes::closure::image;
use classes::collect::needs_mask;

// An attribute, and the classes that need a value of it.
#[derive(Clone, Copy)]
struct Need {
    attribute: usize,
    mask: u32,
}

// The value of the attribute at an object, if it lacks one. Returns how many objects there are then.
fn make(
    schema: &[u16],
    edges: &[u16],
    g: usize,
    n: usize,
    need: Need,
    d: usize,
    objects: &mut [u64; OBJECTS],
) -> usize
    requires { CanMake schema.now edges.now objects.old g n need d }
    ensures { Grows g n result objects.old objects.new (made_at schema.now edges.now objects.old g n need d) }
{
    if !lacks(edges, objects, g, n, need.mask, need.attribute, d) {
        return n;
    }
    let set = image(schema, classes_at(objects, d), need.attribute);
    objects[n] = word(set, need.attribute, d);
    n + 1
}

// The values that the objects on the list lack.
fn make_all(
    schema: &[u16],
    edges: &[u16],
    g: usize,
    n: usize,
    need: Need,
    list: &[u16],
    objects: &mut [u64; OBJECTS],
) -> usize
    requires { CanMakeAll schema.now edges.now objects.old g n need list.now }
    ensures { Grows g n result objects.old objects.new (made_all schema.now edges.now objects.old g n need list.now) }
{
    let mut size = n;
    for &d in list {
        size = make(schema, edges, g, size, need, usize::from(d), objects);
    }
    size
}

// Before a forward step the start and those on the list get the values that they lack.
pub fn make_for(
    schema: &[u16],
    edges: &[u16],
    root: Root,
    step: Step,
    here: Here,
    objects: &mut [u64; OBJECTS],
) -> usize
    requires { CanMakeFor schema.now edges.now objects.old root step here }
    ensures { Grows root.ground here.size result objects.old objects.new (made_for schema.now edges.now objects.old root step here) }
{
    if step.backward {
        return here.size;
    }
    let attribute = step.attribute;
    let mask = needs_mask(schema, attribute);
    let need = Need { attribute, mask };
    let g = root.ground;
    let s = root.start;
    let n = make(schema, edges, g, here.size, need, s, objects);
    make_all(schema, edges, g, n, need, here.standing(), objects)
}
