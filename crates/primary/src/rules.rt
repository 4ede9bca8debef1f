// The rules of a pass: what the query's facts say of the nodes, and what the axioms say of a node, of the two ends of an
// edge, and of two edges. A fact is a word of two or three parts (specs/Words.antt). The table has the domains of all
// attributes, which a rule would else collect again for each node or edge.
ghost use Rattle.std.specs.Prelude.{◌≡◌, map, length};
ghost use Rattle.records.specs.SchemaRecord.{schema_of};
ghost use Rattle.records.specs.SchemaRefusal.{AcceptedSchema};
ghost use Rattle.classes.specs.Domains.{DomainTable};
ghost use Rattle.records.specs.Helpers.Loops.{each, upto};
ghost use Rattle.chase.specs.Primary.{equate, assert, lift, rival as rival_in, unify as unify_in};
ghost use Rattle.primary.specs.Formed.{prime, Formed, Becomes};
ghost use Rattle.primary.specs.Words.{member_of, tie_of, edge_of, MembersIn, TiesIn, EdgeIn, EdgesIn, type_edge, unify_row};

use crate::prime::{add, merge, set_of};
use classes::closure::raise;
use classes::collect::{single_mask, values};
use classes::domains::domain_at;
use classes::sets::{meets, place};
use records::concept::{Query, Role};
use records::schema::{MAX_ATTRIBUTES, MAX_CONSTANTS};

// A part of a fact is below this.
pub const PART: usize = 32;
// The nodes of the largest query: its steps, the start and the constants. Where a mark may stand for a node, the numbers from here
// on are the marks.
pub const MAX_NODES: usize = Query::STEPS + 1 + MAX_CONSTANTS;

pub fn equate_all(ties: &[u16], reps: &mut [u32], sets: &mut [u32])
    requires { Formed reps.old sets.old × TiesIn (length reps.old) ties.now }
    ensures { Becomes (length reps.old) reps.new sets.new (each equate (map tie_of ties.now) (prime reps.old sets.old)) }
{
    for word in ties {
        let w = usize::from(*word);
        merge(reps, sets, w / PART, w % PART);
    }
}

pub fn assert_all(members: &[u16], reps: &[u32], sets: &mut [u32])
    requires { Formed reps.now sets.old × MembersIn (length reps.now) members.now }
    ensures { Becomes (length reps.now) reps.now sets.new (each assert (map member_of members.now) (prime reps.now sets.old)) }
{
    for word in members {
        let w = usize::from(*word);
        add(reps, sets, w % PART, place(w / PART));
    }
}

pub fn lift_all(schema: &[u16], table: &[u32; MAX_ATTRIBUTES], reps: &[u32], sets: &mut [u32])
    requires { AcceptedSchema schema.now × DomainTable schema.now table.now × Formed reps.now sets.old }
    ensures { Becomes (length reps.now) reps.now sets.new (upto (lift (schema_of schema.now)) (length reps.now) (prime reps.now sets.old)) }
{
    for i in 0..reps.len() {
        let raised = raise(schema, table, set_of(reps, sets, i));
        add(reps, sets, i, raised);
    }
}

// The two ends of an edge.
fn type_edge(
    schema: &[u16],
    table: &[u32; MAX_ATTRIBUTES],
    edge: usize,
    reps: &[u32],
    sets: &mut [u32],
)
    requires { AcceptedSchema schema.now × DomainTable schema.now table.now × Formed reps.now sets.old × EdgeIn (length reps.now) edge }
    ensures { Becomes (length reps.now) reps.now sets.new (type_edge (schema_of schema.now) (edge_of edge) (prime reps.now sets.old)) }
{
    let attribute = edge / PART / PART;
    let origin = edge / PART % PART;
    add(reps, sets, origin, domain_at(table, attribute));
    let found = values(schema, set_of(reps, sets, origin), attribute);
    add(reps, sets, edge % PART, found);
}

pub fn type_all(
    schema: &[u16],
    table: &[u32; MAX_ATTRIBUTES],
    edges: &[u16],
    reps: &[u32],
    sets: &mut [u32],
)
    requires { AcceptedSchema schema.now × DomainTable schema.now table.now × Formed reps.now sets.old × EdgesIn (length reps.now) edges.now }
    ensures { Becomes (length reps.now) reps.now sets.new (each (type_edge (schema_of schema.now)) (map edge_of edges.now) (prime reps.now sets.old)) }
{
    for word in edges {
        type_edge(schema, table, usize::from(*word), reps, sets);
    }
}

// The two edges are two values of one attribute at one node that has at most one.
fn rival(schema: &[u16], e: usize, f: usize, reps: &[u32], sets: &[u32]) -> bool
    requires { AcceptedSchema schema.now × Formed reps.now sets.now × EdgeIn (length reps.now) e × EdgeIn (length reps.now) f }
    ensures { result ≡ rival_in (schema_of schema.now) (edge_of e) (edge_of f) (prime reps.now sets.now) }
{
    let attribute = e / PART / PART;
    let origin = e / PART % PART;
    let other = f / PART % PART;
    let together = (attribute == f / PART / PART) & (reps[origin] == reps[other]);
    together && meets(set_of(reps, sets, origin), single_mask(schema, attribute))
}

// Most pairs are not rivals, or have one target already: the axioms are read only for the others.
fn unify(schema: &[u16], e: usize, f: usize, reps: &mut [u32], sets: &mut [u32])
    requires { AcceptedSchema schema.now × Formed reps.old sets.old × EdgeIn (length reps.old) e × EdgeIn (length reps.old) f }
    ensures { Becomes (length reps.old) reps.new sets.new (unify_in (schema_of schema.now) (edge_of e) (edge_of f) (prime reps.old sets.old)) }
{
    if reps[e % PART] != reps[f % PART] && rival(schema, e, f, reps, sets) {
        merge(reps, sets, e % PART, f % PART);
    }
}

fn unify_row(schema: &[u16], edges: &[u16], e: usize, reps: &mut [u32], sets: &mut [u32])
    requires { AcceptedSchema schema.now × Formed reps.old sets.old × EdgeIn (length reps.old) e × EdgesIn (length reps.old) edges.now }
    ensures { Becomes (length reps.old) reps.new sets.new (unify_row (schema_of schema.now) (map edge_of edges.now) (edge_of e) (prime reps.old sets.old)) }
{
    for word in edges {
        unify(schema, e, usize::from(*word), reps, sets);
    }
}

pub fn unify_all(schema: &[u16], edges: &[u16], reps: &mut [u32], sets: &mut [u32])
    requires { AcceptedSchema schema.now × Formed reps.old sets.old × EdgesIn (length reps.old) edges.now }
    ensures { Becomes (length reps.old) reps.new sets.new (each (unify_row (schema_of schema.now) (map edge_of edges.now)) (map edge_of edges.now) (prime reps.old sets.old)) }
{
    for word in edges {
        unify_row(schema, edges, usize::from(*word), reps, sets);
    }
}
