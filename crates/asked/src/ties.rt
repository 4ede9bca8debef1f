// What a query's equations say of nodes: a mark is one of the nodes at which it stands, so that all of these are one object.
ghost use Rattle.std.specs.Prelude.{map, ◌≡◌, ◌<◌};
ghost use Rattle.records.specs.Layout.{query_steps};
ghost use Rattle.records.specs.Outcome.{query_signature};
ghost use Rattle.records.specs.SchemaRefusal.{AcceptedSchema};
ghost use Rattle.records.specs.ConceptRefusal.{AcceptedConcept};
ghost use Rattle.primary.specs.Words.{part};
ghost use Rattle.asked.specs.declared.words.Kind.TheVariants.{Equations};
ghost use Rattle.asked.specs.Answer.{Asked, IsTied};
ghost use Rattle.asked.specs.Marked.{LeftsIn, Anchored, Small, tie_word};

use crate::words::Words;
use primary::rules::{MAX_NODES, PART};
use records::layout::word;

// The ties; and the node of each mark, at the place that the mark has in an equation.
#[derive(Clone, Copy)]
pub struct Tied {
    pub ties: Words,
    pub nodes: [u16; PART],
}

// The node of each mark: that of the last equation in which it stands, or else the start. What stands beside nodes is kept too,
// so that the pass has no branch.
fn anchors(equations: &[u16], start: u16) -> [u16; PART]
    requires { (start < part) × LeftsIn equations.now }
    ensures anchored { Anchored start equations.now result }
    ensures small { Small result }
{
    let mut nodes = [start; PART];
    for &equation in equations {
        let side = usize::from(equation) % PART;
        nodes[side] = (usize::from(equation) / PART) as u16;
    }
    nodes
}

// An equation as a tie of two nodes.
fn tie(word: u16, nodes: &[u16; PART]) -> u16
    requires { Small nodes.now }
    ensures { result ≡ tie_word nodes.now word }
{
    let side = usize::from(word) % PART;
    if side < MAX_NODES {
        return word;
    }
    (usize::from(word) / PART * PART + usize::from(nodes[side])) as u16
}

fn tie_all(words: &mut [u16], nodes: &[u16; PART])
    requires { Small nodes.now }
    ensures { words.new ≡ map (tie_word nodes.now) words.old }
{
    for word in words.iter_mut() {
        *word = tie(*word, nodes);
    }
}

// The ties of an accepted query, from its equations.
pub fn of_equations(schema: &[u16], query: &[u16], equations: Words) -> Tied
    requires accepted_schema { AcceptedSchema schema.now }
    requires accepted_concept { AcceptedConcept query_steps (query_signature schema.now) query.now }
    requires asked { Asked schema.now query.now Equations equations }
    ensures { IsTied schema.now query.now result }
{
    let nodes = anchors(equations.as_slice(), word(query, 1) as u16);
    // No method lends the words to be changed: the check follows no `&mut` into a part of a struct's array.
    let Words { count, mut words } = equations;
    tie_all(&mut words[..count], &nodes);
    Tied {
        ties: Words { count, words },
        nodes,
    }
}
