// What accepted records answer: by the candidate, unless two constants clash.
ghost use Rattle.std.specs.Prelude.{◌≡◌, ◌≤◌, ◌<◌, ◌^◌, length};
ghost use Rattle.records.specs.Layout.{max_state_words};
ghost use Rattle.records.specs.SchemaRecord.{signature_of};
ghost use Rattle.records.specs.Helpers.Triple.{Triple};
ghost use Rattle.chase.specs.Bounds.{most_facts};
ghost use Rattle.chase.specs.Task.{nodes as nodes_of};
ghost use Rattle.primary.specs.Asked.{query_task};
ghost use Rattle.construct.specs.Arrays.{start_in, listing};
ghost use Rattle.decide.specs.Decision.{Verdict};
ghost use Rattle.decide.specs.Start.{start_answer, start_words, Told, Listable};

use crate::Witness;
use crate::start::{FEW, SOME, answer_by};
use candidate::facts::facts;
use candidate::marks::Shape;
use candidate::number::most_facts;
use construct::{candidate, nodes};
use forest::objects::OBJECTS;
use ground::number::object_of;
use primary::rules::MAX_NODES;
use records::marks::allow;
use records::schema::signature_of;
use records::state::MAX_FACTS;

// By the candidate in arrays, whose facts are listed in so many words: a function for each size, so that a small call clears few
// words.
fn list_in<const FACTS: usize>(
    schema: &[u16],
    view: &[u16],
    reps: &[u32],
    edges: &[u16],
    objects: &[u64; OBJECTS],
    shape: Shape,
    lent: &mut [u16],
) -> Option<Witness>
    requires listable { Listable schema.now view.now reps.now edges.now objects.now shape }
    requires room { most_facts (signature_of schema.now) shape.sizes.total (length edges.now) ≤ FACTS }
    requires few { FACTS < 2 ^ 32 }
    ensures answered { result ≡ start_answer view.now shape.sizes.total (start_in schema.now reps.now) (listing schema.now reps.now edges.now objects.now shape) }
    ensures words { lent.new ≡ start_words view.now shape.sizes.total (start_in schema.now reps.now) (listing schema.now reps.now edges.now objects.now shape) lent.old }
{
    let s = allow(signature_of(schema), shape.marks.used);
    let first = reps.len() - s.constants;
    let start = object_of(reps, first - 1);
    let mut list = [0u32; FACTS];
    let n = facts(schema, reps, first, edges, objects, shape, &mut list);
    answer_by(s, view, shape.sizes.total, start, &list[..n], lent)
}

// .. in words by how many facts there can be.
fn answer_in(
    schema: &[u16],
    view: &[u16],
    reps: &[u32],
    edges: &[u16],
    objects: &[u64; OBJECTS],
    shape: Shape,
    lent: &mut [u16],
) -> Option<Witness>
    requires { Listable schema.now view.now reps.now edges.now objects.now shape }
    ensures answered { result ≡ start_answer view.now shape.sizes.total (start_in schema.now reps.now) (listing schema.now reps.now edges.now objects.now shape) }
    ensures words { lent.new ≡ start_words view.now shape.sizes.total (start_in schema.now reps.now) (listing schema.now reps.now edges.now objects.now shape) lent.old }
{
    let most = most_facts(signature_of(schema), shape.sizes.total, edges.len());
    if most <= FEW {
        list_in::<FEW>(schema, view, reps, edges, objects, shape, lent)
    } else if most <= SOME {
        list_in::<SOME>(schema, view, reps, edges, objects, shape, lent)
    } else {
        list_in::<MAX_FACTS>(schema, view, reps, edges, objects, shape, lent)
    }
}

// With a representative for each node.
fn answer_of(
    schema: &[u16],
    query: &[u16],
    view: &[u16],
    reps: &mut [u32],
    lent: &mut [u16],
) -> Option<Witness>
    requires { Triple schema.now query.now view.now × (length reps.old ≡ nodes_of (query_task schema.now query.now)) }
    ensures told { Told schema.now query.now view.now result }
    ensures verdict { max_state_words ≤ length lent.old → Verdict schema.now query.now view.now lent.old result lent.new }
{
    let mut objects = [0u64; OBJECTS];
    // Where two constants clash the query is held.
    let made = candidate(schema, query, view, reps, &mut objects)?;
    answer_in(
        schema,
        view,
        reps,
        made.edges.as_slice(),
        &objects,
        made.shape,
        lent,
    )
}

// The answer, and the state that shows it if it is open and there is room.
pub fn answer(schema: &[u16], query: &[u16], view: &[u16], lent: &mut [u16]) -> Option<Witness>
    requires { Triple schema.now query.now view.now }
    ensures told { Told schema.now query.now view.now result }
    ensures verdict { max_state_words ≤ length lent.old → Verdict schema.now query.now view.now lent.old result lent.new }
{
    let n = nodes(schema, query);
    let mut reps = [0u32; MAX_NODES];
    answer_of(schema, query, view, &mut reps[..n], lent)
}
