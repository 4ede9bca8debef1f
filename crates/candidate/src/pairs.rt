// The facts that are pairs of attributes: those of the query, and one to the made value or to the closing object.
ghost use Rattle.std.specs.Prelude.{ℕ, ◌<◌, ◌≤◌, List, [], ◌≡◌};
ghost use Rattle.records.specs.Layout.{max_attributes, max_objects, object_part};
ghost use Rattle.records.specs.SchemaRecord.{schema_of};
ghost use Rattle.records.specs.SchemaRefusal.{AcceptedSchema};
ghost use Rattle.chase.specs.Candidate.{links};
ghost use Rattle.chase.specs.Forest.{asks};
ghost use Rattle.chase.specs.Written.{gather};
ghost use Rattle.ground.specs.Objects.{forest_in, ground_in};
ghost use Rattle.forest.specs.Kept.{Kept, number};
ghost use Rattle.candidate.specs.Writing.{Room, Wrote};
ghost use Rattle.candidate.specs.Facts.{value_facts, link_facts, value_at, pairs_in};
ghost use Rattle.candidate.specs.Ready.{Sized};
ghost use Rattle.candidate.specs.Tables.{LookedUp};

use crate::number::{Sizes, unmet};
use crate::put::{fact, put_if};
use crate::tables::{is_origin, kids, origins};
use classes::collect::needs_mask;
use forest::objects::{OBJECTS, classes_of};
use primary::rules::PART;
use records::state::ATTRIBUTE_KINDS;

// The query has the pair (d, e) of the attribute.
fn linked(edges: &[u16], attribute: usize, d: usize, e: usize) -> bool
    ensures { (g : ℕ) (objects : List ℕ) → result ≡ links (ground_in g objects edges.now) attribute d e }
{
    edges.iter().any(|&edge| {
        let w = usize::from(edge);
        (w / PART / PART == attribute) & (w / PART % PART == d) & (w % PART == e)
    })
}

// The query's pairs of the attribute from an object. They lead to the first `g` objects.
fn link_facts(
    edges: &[u16],
    g: usize,
    attribute: usize,
    d: usize,
    out: &mut [u32],
    count: usize,
) -> usize
    requires g_le_max_objects { (g ≤ max_objects) × (attribute < max_attributes) × (d < object_part) }
    requires room { Room count (link_facts (ground_in g [] edges.now) attribute d) out.old }
    ensures { Wrote count (link_facts (ground_in g [] edges.now) attribute d) out.old result out.new }
{
    let mut at = count;
    for e in 0..g {
        let link = linked(edges, attribute, d, e);
        at = put_if(link, fact(ATTRIBUTE_KINDS + attribute, d, e), out, at);
    }
    at
}

// .. where there are any.
fn asked_facts(
    asked: bool,
    edges: &[u16],
    g: usize,
    attribute: usize,
    d: usize,
    out: &mut [u32],
    count: usize,
) -> usize
    requires g_le_max_objects { (g ≤ max_objects) × (attribute < max_attributes) × (d < object_part) × (asked ≡ asks (ground_in g [] edges.now) attribute d) }
    requires room { Room count (link_facts (ground_in g [] edges.now) attribute d) out.old }
    ensures { Wrote count (link_facts (ground_in g [] edges.now) attribute d) out.old result out.new }
{
    if !asked {
        return count;
    }
    link_facts(edges, g, attribute, d, out, count)
}

// The value that is not the query's: the made one, or the closing object where one is lacking. Of the attribute there is what
// was looked up.
fn value_of(
    schema: &[u16],
    objects: &[u64; OBJECTS],
    sizes: Sizes,
    mask: u32,
    asked: bool,
    made: Option<u16>,
    d: usize,
) -> Option<usize>
    requires { AcceptedSchema schema.now × Kept sizes.ground sizes.made objects.now × (d ≤ sizes.made) }
    ensures { (edges : List ℕ) (P : ℕ) → LookedUp (schema_of schema.now) (ground_in sizes.ground objects.now edges) (forest_in sizes.ground sizes.made objects.now) P d mask asked made → number result ≡ value_at (schema_of schema.now) (ground_in sizes.ground objects.now edges) (forest_in sizes.ground sizes.made objects.now) P d }
{
    if let Some(e) = made {
        return Some(usize::from(e));
    }
    let classes = classes_of(schema, objects, sizes.ground, sizes.made, d);
    if !unmet(classes, mask, asked, made) {
        return None;
    }
    Some(sizes.made)
}

// The pair to the value, if there is one.
fn value_facts(
    value: Option<usize>,
    attribute: usize,
    d: usize,
    out: &mut [u32],
    count: usize,
) -> usize
    requires value_le_object_part { (number value ≤ object_part) × (attribute < max_attributes) × (d < object_part) }
    requires room { Room count (value_facts attribute d (number value)) out.old }
    ensures { Wrote count (value_facts attribute d (number value)) out.old result out.new }
{
    match value {
        Some(e) => {
            out[count] = fact(ATTRIBUTE_KINDS + attribute, d, e);
            count + 1
        }
        None => count,
    }
}

// All pairs of an attribute: of each object the query's, then the one value more.
fn pair_row(
    schema: &[u16],
    edges: &[u16],
    objects: &[u64; OBJECTS],
    sizes: Sizes,
    attribute: usize,
    out: &mut [u32],
    count: usize,
) -> usize
    requires sized { Sized schema.now objects.now sizes × (attribute < max_attributes) }
    requires room { Room count (pairs_in schema.now edges.now objects.now sizes attribute) out.old }
    ensures { Wrote count (pairs_in schema.now edges.now objects.now sizes attribute) out.old result out.new }
{
    let mask = needs_mask(schema, attribute);
    let from = origins(edges, attribute);
    let made = kids(objects, sizes.ground, sizes.made, attribute);
    let total = sizes.total;
    let mut at = count;
    for d in 0..total {
        let asked = is_origin(&from, d);
        let linked = asked_facts(asked, edges, sizes.ground, attribute, d, out, at);
        let value = value_of(schema, objects, sizes, mask, asked, made[d], d);
        at = value_facts(value, attribute, d, out, linked);
    }
    at
}

// .. of each of the first `attributes` attributes.
pub fn pair_rows(
    schema: &[u16],
    edges: &[u16],
    objects: &[u64; OBJECTS],
    sizes: Sizes,
    attributes: usize,
    out: &mut [u32],
    count: usize,
) -> usize
    requires sized { Sized schema.now objects.now sizes × (attributes ≤ max_attributes) }
    requires room { Room count (gather attributes (pairs_in schema.now edges.now objects.now sizes)) out.old }
    ensures { Wrote count (gather attributes (pairs_in schema.now edges.now objects.now sizes)) out.old result out.new }
{
    let mut at = count;
    for attribute in 0..attributes {
        at = pair_row(schema, edges, objects, sizes, attribute, out, at);
    }
    at
}
