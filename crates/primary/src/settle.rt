// The pass, repeated until the weight stands still: the closed primary part of an accepted query.
ghost use Rattle.std.specs.Prelude.{◌≡◌, length};
ghost use Rattle.chase.specs.Task.{nodes};
ghost use Rattle.chase.specs.Primary.{begin as begin_of, primary};
ghost use Rattle.primary.specs.Formed.{prime, Becomes};
ghost use Rattle.primary.specs.Asked.{query_task, Asks};

use crate::begin::begin;
use crate::pass::{pass, weight};
use classes::domains::domains;

// `query` is the record whose facts the words are; the promises name it, and the code has no need of it.
fn settle(
    schema: &[u16],
    query: &[u16],
    members: &[u16],
    ties: &[u16],
    edges: &[u16],
    reps: &mut [u32],
    sets: &mut [u32],
)
    requires { Asks schema.now query.now members.now ties.now edges.now × (prime reps.old sets.old ≡ begin_of (query_task schema.now query.now)) }
    ensures { Becomes (nodes (query_task schema.now query.now)) reps.new sets.new (primary (query_task schema.now query.now)) }
{
    let table = domains(schema);
    let mut last = weight(reps, sets);
    pass(schema, &table, members, ties, edges, reps, sets);
    let mut next = weight(reps, sets);
    while next != last {
        last = next;
        pass(schema, &table, members, ties, edges, reps, sets);
        next = weight(reps, sets);
    }
}

// The primary part of the query, whatever the lent slices hold; they have an entry for each node.
pub fn close(
    schema: &[u16],
    query: &[u16],
    members: &[u16],
    ties: &[u16],
    edges: &[u16],
    reps: &mut [u32],
    sets: &mut [u32],
)
    requires { Asks schema.now query.now members.now ties.now edges.now × (length reps.old ≡ nodes (query_task schema.now query.now)) × (length sets.old ≡ nodes (query_task schema.now query.now)) }
    ensures { Becomes (nodes (query_task schema.now query.now)) reps.new sets.new (primary (query_task schema.now query.now)) }
{
    begin(reps, sets);
    settle(schema, query, members, ties, edges, reps, sets);
}
