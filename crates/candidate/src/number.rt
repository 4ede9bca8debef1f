// How many objects the candidate has: the closing object is one of them where some object lacks a value. How many facts it has
// at most.
ghost use Rattle.std.specs.Prelude.{◌≤◌, ◌&&◌, ◌||◌, not, is_some, ◌≡◌};
ghost use Rattle.records.specs.Layout.{max_classes, max_attributes, max_constants, max_objects, max_facts, query_steps};
ghost use Rattle.records.specs.Schema.{Schema};
ghost use Rattle.records.specs.SchemaRecord.{schema_of};
ghost use Rattle.records.specs.SchemaRefusal.{AcceptedSchema};
ghost use Rattle.chase.specs.Axioms.{collect, needs_by};
ghost use Rattle.chase.specs.Bounds.{most_facts};
ghost use Rattle.chase.specs.ClassSet.{meets as meets_in};
ghost use Rattle.chase.specs.Candidate.{lacking as lacking_in, objects as objects_in};
ghost use Rattle.ground.specs.Objects.{forest_in, ground_in};
ghost use Rattle.forest.specs.Kept.{Kept};
ghost use Rattle.candidate.specs.Facts.{lacks_one};

use crate::tables::{is_origin, kids, origins};
use classes::collect::needs_mask;
use classes::sets::meets;
use forest::objects::{OBJECTS, classes_at};
use records::marks::MAX_MARKS;
use records::schema::{Signature, signature_of};

// How many objects there are: those of the ground, those with the made ones, and all, with the closing object where there
// is one.
#[derive(Clone, Copy)]
pub struct Sizes {
    pub ground: usize,
    pub made: usize,
    pub total: usize,
}

// An object of these classes needs a value, and neither the query nor the made part has one. The mask has the classes that
// need it.
pub fn unmet<T: Copy>(classes: u32, mask: u32, asked: bool, made: Option<T>) -> bool
    ensures { result ≡ (meets_in classes mask && not (asked || is_some made)) }
{
    meets(classes, mask) & !(asked | made.is_some())
}

// Some object lacks a value of the attribute. The mask has the classes that need one.
fn lacks_one(
    edges: &[u16],
    objects: &[u64; OBJECTS],
    g: usize,
    n: usize,
    mask: u32,
    attribute: usize,
) -> bool
    requires { Kept g n objects.now }
    ensures { (S : Schema) → mask ≡ collect S (needs_by attribute) → result ≡ lacks_one S (ground_in g objects.now edges.now) (forest_in g n objects.now) attribute }
{
    let from = origins(edges, attribute);
    let made = kids(objects, g, n, attribute);
    (0..n).any(|d| unmet(classes_at(objects, d), mask, is_origin(&from, d), made[d]))
}

fn lacking(schema: &[u16], edges: &[u16], objects: &[u64; OBJECTS], g: usize, n: usize) -> bool
    requires { AcceptedSchema schema.now × Kept g n objects.now }
    ensures { result ≡ lacking_in (schema_of schema.now) (ground_in g objects.now edges.now) (forest_in g n objects.now) }
{
    let s = signature_of(schema);
    (0..s.attributes).any(|attribute| {
        let mask = needs_mask(schema, attribute);
        lacks_one(edges, objects, g, n, mask, attribute)
    })
}

pub fn count_objects(
    schema: &[u16],
    edges: &[u16],
    objects: &[u64; OBJECTS],
    g: usize,
    n: usize,
) -> usize
    requires { AcceptedSchema schema.now × Kept g n objects.now }
    ensures { result ≡ objects_in (schema_of schema.now) (ground_in g objects.now edges.now) (forest_in g n objects.now) }
{
    if lacking(schema, edges, objects, g, n) {
        n + 1
    } else {
        n
    }
}

// So many objects have no more facts than this, beside that many pairs of the query.
pub fn most_facts(s: Signature, objects: usize, pairs: usize) -> usize
    requires { (s.classes ≤ max_classes) × (s.attributes ≤ max_attributes) × (s.constants ≤ max_constants) × (objects ≤ max_objects) × (pairs ≤ query_steps) }
    ensures { (result ≡ most_facts s objects pairs) × (result ≤ max_facts) }
{
    s.classes * objects + (s.attributes * objects + pairs) + s.constants + MAX_MARKS
}
