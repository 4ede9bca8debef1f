// What is read of the objects: the first g of n are the ground's, and the rest are made.
ghost use Rattle.std.specs.Prelude.{ℕ, ◌≤◌, ◌<◌, ◌^◌, List, ◌≡◌, length, get_or};
ghost use Rattle.records.specs.Layout.{max_attributes, max_objects, object_part};
ghost use Rattle.records.specs.Schema.{Schema};
ghost use Rattle.records.specs.SchemaRecord.{schema_of};
ghost use Rattle.records.specs.SchemaRefusal.{AcceptedSchema};
ghost use Rattle.chase.specs.Axioms.{collect, needs_by};
ghost use Rattle.chase.specs.ClassSet.{full as full_set};
ghost use Rattle.chase.specs.Forest.{kid as kid_in, parent as parent_in, asks as asks_in, classes_of, lacks as lacks_in};
ghost use Rattle.ground.specs.Objects.{link, object_word, classes_in, forest_in, ground_in, Laid};
ghost use Rattle.forest.specs.Kept.{Kept, number};

use classes::sets::meets;
use ground::lay::LINK_PART;
use primary::rules::PART;
use records::schema::signature_of;
use records::state::MAX_OBJECTS;

pub const OBJECTS: usize = MAX_OBJECTS;

// A link is an attribute times this plus a maker.
const OBJECT_PART: u64 = records::state::OBJECT_PART as u64;

// The word of a made object.
pub fn word(classes: u32, attribute: usize, maker: usize) -> u64
    requires { (attribute < max_attributes) × (maker < object_part) }
    ensures { result ≡ object_word classes (link attribute maker) }
{
    u64::from(classes) * LINK_PART + (attribute as u64 * OBJECT_PART + maker as u64)
}

// The class set of an object's word.
pub fn classes_at(objects: &[u64; OBJECTS], d: usize) -> u32
    requires { (length objects.now ≡ max_objects) × (d < max_objects) × (classes_in (get_or objects.now d 0) < 2 ^ 32) }
    ensures { result ≡ classes_in (get_or objects.now d 0) }
{
    (objects[d] / LINK_PART) as u32
}

// The set of all classes.
fn full(schema: &[u16]) -> u32
    requires { AcceptedSchema schema.now }
    ensures { result ≡ full_set (schema_of schema.now).signature.classes }
{
    let s = signature_of(schema);
    (1 << s.classes) - 1
}

// The classes of an object, and of the closing object.
pub fn classes_of(schema: &[u16], objects: &[u64; OBJECTS], g: usize, n: usize, d: usize) -> u32
    requires { AcceptedSchema schema.now × Kept g n objects.now × (d ≤ n) }
    ensures { (edges : List ℕ) → result ≡ classes_of (schema_of schema.now) (ground_in g objects.now edges) (forest_in g n objects.now) d }
{
    if d < n {
        classes_at(objects, d)
    } else {
        full(schema)
    }
}

// The value made of the attribute at an object.
pub fn kid(
    objects: &[u64; OBJECTS],
    g: usize,
    n: usize,
    attribute: usize,
    d: usize,
) -> Option<usize>
    requires { Laid g n objects.now × (attribute < max_attributes) × (d < object_part) }
    ensures { (edges : List ℕ) → number result ≡ kid_in (ground_in g objects.now edges) (forest_in g n objects.now) attribute d }
{
    let link = attribute as u64 * OBJECT_PART + d as u64;
    // A loop and no `rfind`: the library has no law of a search from the end of a range.
    for e in (g..n).rev() {
        if objects[e] % LINK_PART == link {
            return Some(e);
        }
    }
    None
}

// The maker of an object, if it was made as a value of the attribute.
pub fn parent(
    objects: &[u64; OBJECTS],
    g: usize,
    n: usize,
    attribute: usize,
    e: usize,
) -> Option<usize>
    requires { Laid g n objects.now × (e < n) }
    ensures { (edges : List ℕ) → number result ≡ parent_in (ground_in g objects.now edges) (forest_in g n objects.now) attribute e }
{
    if e < g {
        return None;
    }
    let link = objects[e] % LINK_PART;
    if link / OBJECT_PART != attribute as u64 {
        return None;
    }
    Some((link % OBJECT_PART) as usize)
}

// The query has a pair of the attribute from the object.
pub fn asks(edges: &[u16], attribute: usize, d: usize) -> bool
    ensures { (g : ℕ) (objects : List ℕ) → result ≡ asks_in (ground_in g objects edges.now) attribute d }
{
    edges.iter().any(|&edge| {
        let w = usize::from(edge);
        (w / PART / PART == attribute) & (w / PART % PART == d)
    })
}

// The object needs a value of the attribute, and has none. The mask has the classes that need one. Most objects need none,
// so that the search for a value comes last.
pub fn lacks(
    edges: &[u16],
    objects: &[u64; OBJECTS],
    g: usize,
    n: usize,
    mask: u32,
    attribute: usize,
    d: usize,
) -> bool
    requires { Kept g n objects.now × (attribute < max_attributes) × (d < n) }
    ensures { (S : Schema) → mask ≡ collect S (needs_by attribute) → result ≡ lacks_in S (ground_in g objects.now edges.now) (forest_in g n objects.now) attribute d }
{
    if !meets(classes_at(objects, d), mask) {
        return false;
    }
    if asks(edges, attribute, d) {
        return false;
    }
    kid(objects, g, n, attribute, d).is_none()
}
