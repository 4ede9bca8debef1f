// All facts of the candidate.
ghost use Rattle.std.specs.Prelude.{◌≤◌, length};
ghost use Rattle.records.specs.SchemaRecord.{schema_of};
ghost use Rattle.chase.specs.Bounds.{most_facts};
ghost use Rattle.candidate.specs.Writing.{Wrote};
ghost use Rattle.candidate.specs.Facts.{facts_in, all_facts};
ghost use Rattle.candidate.specs.Ready.{Ready, NodesIn};

use crate::marks::{Shape, mark_facts};
use crate::members::class_rows;
use crate::names::name_facts;
use crate::number::Sizes;
use crate::pairs::pair_rows;
use forest::objects::OBJECTS;
use records::marks::allow;
use records::schema::signature_of;

// Writes those of what is declared to the start of `out`, which has room for the most that so many objects can have, and returns
// how many there are. The constants' nodes stand in a row from `first`.
fn declared(
    schema: &[u16],
    reps: &[u32],
    first: usize,
    edges: &[u16],
    objects: &[u64; OBJECTS],
    sizes: Sizes,
    out: &mut [u32],
) -> usize
    requires ready { Ready schema.now reps.now first edges.now objects.now sizes }
    requires edges_in_bounds { most_facts (schema_of schema.now).signature sizes.total (length edges.now) ≤ length out.old }
    ensures { Wrote 0 (facts_in schema.now reps.now first edges.now sizes.ground sizes.made objects.now) out.old result out.new }
{
    let s = signature_of(schema);
    let members = class_rows(schema, objects, sizes, s.classes, out, 0);
    let pairs = pair_rows(schema, edges, objects, sizes, s.attributes, out, members);
    name_facts(reps, first, s.constants, out, pairs)
}

// .. and then those of the used marks.
pub fn facts(
    schema: &[u16],
    reps: &[u32],
    first: usize,
    edges: &[u16],
    objects: &[u64; OBJECTS],
    shape: Shape,
    out: &mut [u32],
) -> usize
    requires ready { Ready schema.now reps.now first edges.now objects.now shape.sizes × NodesIn (length reps.now) shape.marks.nodes }
    requires edges_in_bounds { most_facts (schema_of schema.now).signature shape.sizes.total (length edges.now) ≤ length out.old }
    ensures { Wrote 0 (all_facts schema.now reps.now first edges.now objects.now shape) out.old result out.new }
{
    let marks = shape.marks;
    let nodes = marks.nodes;
    let s = allow(signature_of(schema), marks.used);
    let n = declared(schema, reps, first, edges, objects, shape.sizes, out);
    mark_facts(s, reps, &nodes, out, n)
}
