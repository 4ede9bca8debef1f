// The facts of the item that ends at a place. Its last operand ends at the token before, and the operand before that one where
// the last one starts. `first` is the first constant's node.
ghost use Rattle.std.specs.Prelude.{◌≡◌, suc, ◌<◌, ◌^◌};
ghost use Rattle.records.specs.declared.token.Token.TheVariants.{Both, Common};
ghost use Rattle.records.specs.Concept.{direction_of};
ghost use Rattle.records.specs.ConceptRecord.{token_at};
ghost use Rattle.records.specs.Helpers.Reading.{step_token, HasConcept, HasPath};
ghost use Rattle.chase.specs.QueryTokens.{end_at};
ghost use Rattle.asked.specs.Places.{Place, ConceptGrown, PathGrown};

use crate::words::{Kind, Words, add_edge, add_equation, add_mark, add_member};
use reading::{start_of, step_number};
use records::token::{Token, is_step, token_at};

// The concept that ends at `end`, at a node.
#[cycle(both_common_concept_path_step)]
pub fn concept(
    query: &[u16],
    kind: Kind,
    first: usize,
    end: usize,
    node: usize,
    list: Words,
) -> Words
    requires place { Place query.now first end node list }
    requires has_concept { HasConcept query.now end }
    ensures { ConceptGrown first query.now end node kind list result }
{
    let at = end - 1;
    match token_at(query, at) {
        Token::Class(a) => add_member(kind, a, node, list),
        Token::Everything => list,
        Token::Constant(a) => add_equation(kind, node, first + a, list),
        Token::Both => both(query, kind, first, at, node, list),
        Token::Reached => path(query, kind, first, at, node, list),
        Token::Common => common(query, kind, first, at, node, list),
        Token::Mark(k) => add_mark(kind, k, node, list),
        // A path's tokens end no concept.
        Token::Empty | Token::Forward(_) | Token::Backward(_) => list,
    }
}

// Both of two concepts, whose token stands at `at`.
#[cycle(both_common_concept_path_step)]
fn both(query: &[u16], kind: Kind, first: usize, at: usize, node: usize, list: Words) -> Words
    requires place { Place query.now first (suc at) node list }
    requires has_concept { HasConcept query.now (suc at) }
    requires at_value { token_at query.now at ≡ Both }
    ensures { ConceptGrown first query.now (suc at) node kind list result }
{
    let after = concept(query, kind, first, at, node, list);
    concept(query, kind, first, start_of(query, at), node, after)
}

// The two paths of a common object, whose token stands at `at`.
#[cycle(both_common_concept_path_step)]
fn common(query: &[u16], kind: Kind, first: usize, at: usize, node: usize, list: Words) -> Words
    requires place { Place query.now first (suc at) node list }
    requires has_concept { HasConcept query.now (suc at) }
    requires at_value { token_at query.now at ≡ Common }
    ensures { ConceptGrown first query.now (suc at) node kind list result }
{
    let after = path(query, kind, first, at, node, list);
    let middle = start_of(query, at);
    let left = end_of(query, middle, node);
    let right = end_of(query, at, node);
    let joined = add_equation(kind, left, right, after);
    path(query, kind, first, middle, node, joined)
}

// The path that ends at `end`, from a node.
#[cycle(both_common_concept_path_step)]
fn path(query: &[u16], kind: Kind, first: usize, end: usize, node: usize, list: Words) -> Words
    requires place { Place query.now first end node list }
    requires has_path { HasPath query.now end }
    ensures { PathGrown first query.now end node kind list result }
{
    let at = end - 1;
    match token_at(query, at) {
        Token::Empty => list,
        Token::Forward(attribute) => {
            let ahead = StepToken {
                at,
                attribute,
                backward: false,
            };
            step(query, kind, first, node, ahead, list)
        }
        Token::Backward(attribute) => {
            let back = StepToken {
                at,
                attribute,
                backward: true,
            };
            step(query, kind, first, node, back, list)
        }
        // A concept's tokens end no path.
        Token::Class(_)
        | Token::Everything
        | Token::Constant(_)
        | Token::Both
        | Token::Reached
        | Token::Common
        | Token::Mark(_) => list,
    }
}

// The token of a step: where it stands, its attribute, and whether the step goes backward.
#[derive(Clone, Copy)]
struct StepToken {
    at: usize,
    attribute: usize,
    backward: bool,
}

// The path with a step at its end.
#[cycle(both_common_concept_path_step)]
fn step(query: &[u16], kind: Kind, first: usize, node: usize, step: StepToken, list: Words) -> Words
    requires place { Place query.now first (suc step.at) node list }
    requires has_path { HasPath query.now (suc step.at) }
    requires at_value { token_at query.now step.at ≡ step_token (direction_of step.backward) step.attribute }
    ensures { PathGrown first query.now (suc step.at) node kind list result }
{
    let at = step.at;
    let landing = step_number(query, at);
    let after = concept(query, kind, first, at, landing, list);
    let middle = start_of(query, at);
    let origin = end_of(query, middle, node);
    let led = add_edge(kind, step.backward, step.attribute, origin, landing, after);
    path(query, kind, first, middle, node, led)
}

// The node at the end of the path that ends at `end` and starts at `node`.
fn end_of(query: &[u16], end: usize, node: usize) -> usize
    requires end_bound { end < 2 ^ 16 }
    requires has_path { HasPath query.now end }
    ensures { result ≡ end_at query.now end node }
{
    let at = end - 1;
    if is_step(token_at(query, at)) {
        return step_number(query, at);
    }
    node
}
