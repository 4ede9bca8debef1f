// The candidate of an accepted schema, query and view: the query's facts are read and closed under the axioms, the
// representatives numbered, values made as the view asks for them, and the objects counted. Each part is the model's (crate chase).
#![tactic(auto)]

ghost use Rattle.std.specs.Prelude.{◌≡◌, ◌≤◌, length};
ghost use Rattle.records.specs.Layout.{max_tokens, max_objects};
ghost use Rattle.records.specs.Helpers.Triple.{Triple};
ghost use Rattle.chase.specs.Task.{task_of, nodes as nodes_of};
ghost use Rattle.primary.specs.Asked.{query_task};
ghost use Rattle.asked.specs.Listed.{listed as words_in};
ghost use Rattle.construct.specs.Arrays.{Arrays, Built};
ghost use Rattle.construct.specs.Closed.{Pair, Nodes, Closed, MarksOf};

use asked::entry::asked;
use asked::ties::of_equations;
use asked::words::{Kind, Words};
use candidate::marks::{Marks, Shape};
use candidate::number::{Sizes, count_objects};
use forest::objects::OBJECTS;
use forest::walk::walks;
use ground::lay::lay;
use ground::number::renumber;
use primary::clash::clashes;
use primary::rules::MAX_NODES;
use primary::settle::close;
use reading::used;
use records::layout::word;
use records::schema::signature_of;

// The query's edges between objects, how many objects there are, and the marks.
#[derive(Clone, Copy)]
pub struct Made {
    pub edges: Words,
    pub shape: Shape,
}

// What is kept of the query's facts: its edges, and its marks.
#[derive(Clone, Copy)]
struct Read {
    edges: Words,
    marks: Marks,
}

pub fn nodes(schema: &[u16], query: &[u16]) -> usize
    requires { Pair schema.now query.now }
    ensures { result ≡ nodes_of (query_task schema.now query.now) }
{
    let s = signature_of(schema);
    word(query, 1) + 1 + s.constants
}

// The primary part of the query. Returns its edges and marks.
fn closed(schema: &[u16], query: &[u16], reps: &mut [u32], sets: &mut [u32]) -> Read
    requires { Pair schema.now query.now × Nodes schema.now query.now reps.old sets.old }
    ensures closed { Closed schema.now query.now reps.new sets.new (words_in result.edges) }
    ensures room { (result.edges.count ≤ max_tokens) × (length result.edges.words ≡ max_tokens) }
    ensures marks { MarksOf schema.now query.now result.marks }
{
    let members = asked(schema, query, Kind::Members);
    let equations = asked(schema, query, Kind::Equations);
    let edges = asked(schema, query, Kind::Edges);
    let tied = of_equations(schema, query, equations);
    close(
        schema,
        query,
        members.as_slice(),
        tied.ties.as_slice(),
        edges.as_slice(),
        reps,
        sets,
    );
    let marks = Marks {
        used: used(query),
        nodes: tied.nodes,
    };
    Read { edges, marks }
}

// The candidate's objects, from the closed primary part. `query` is what the promises name; the code has no need of it.
fn from_primary(
    schema: &[u16],
    query: &[u16],
    view: &[u16],
    reps: &[u32],
    sets: &[u32],
    edges: &mut [u16],
    objects: &mut [u64; OBJECTS],
) -> Sizes
    requires { Triple schema.now query.now view.now × Closed schema.now query.now reps.now sets.now edges.old × (length objects.old ≡ max_objects) }
    ensures arrays { Arrays (task_of schema.now query.now view.now) schema.now reps.now edges.new objects.new result }
    ensures kept { length edges.new ≡ length edges.old }
{
    let ground = lay(reps, sets, objects);
    renumber(reps, edges);
    let made = walks(schema, view, edges, ground, objects);
    let total = count_objects(schema, edges, objects, ground, made);
    Sizes {
        ground,
        made,
        total,
    }
}

// The same, from two lists with an entry for each node. Where two constants are one object there is no candidate.
fn from_nodes(
    schema: &[u16],
    query: &[u16],
    view: &[u16],
    reps: &mut [u32],
    sets: &mut [u32],
    objects: &mut [u64; OBJECTS],
) -> Option<Made>
    requires { Triple schema.now query.now view.now × Nodes schema.now query.now reps.old sets.old × (length objects.old ≡ max_objects) }
    ensures { Built schema.now query.now view.now reps.new objects.new result }
{
    let read = closed(schema, query, reps, sets);
    let s = signature_of(schema);
    let first = reps.len() - s.constants;
    if clashes(s, reps, first) {
        return None;
    }
    // No method lends the words to be changed: the check follows no `&mut` into a part of a struct's array.
    let Words { count, mut words } = read.edges;
    let sizes = from_primary(
        schema,
        query,
        view,
        reps,
        sets,
        &mut words[..count],
        objects,
    );
    Some(Made {
        edges: Words { count, words },
        shape: Shape {
            sizes,
            marks: read.marks,
        },
    })
}

// The candidate in lent arrays: a representative for each node, and the objects. There is none where two constants clash.
pub fn candidate(
    schema: &[u16],
    query: &[u16],
    view: &[u16],
    reps: &mut [u32],
    objects: &mut [u64; OBJECTS],
) -> Option<Made>
    requires { Triple schema.now query.now view.now × (length reps.old ≡ nodes_of (query_task schema.now query.now)) × (length objects.old ≡ max_objects) }
    ensures { Built schema.now query.now view.now reps.new objects.new result }
{
    let n = reps.len();
    let mut sets = [0u32; MAX_NODES];
    from_nodes(schema, query, view, reps, &mut sets[..n], objects)
}
