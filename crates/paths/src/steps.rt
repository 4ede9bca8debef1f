// The step of a token, and the pair that a fact is.
ghost use Rattle.std.specs.Prelude.{◌+◌, ◌<◌, ◌^◌, ◌≡◌};
ghost use Rattle.records.specs.ConceptRecord.{token_at};
ghost use Rattle.paths.specs.Steps.{step_of, ends_of, object_in};

use records::layout::word;
use records::state::{ATTRIBUTE_KINDS, OBJECT_PART, facts, state_layout};
use records::token::{Token, token_at};

// The facts that a step follows, and which way.
#[derive(Clone, Copy)]
pub struct Step {
    pub kind: usize,
    pub backward: bool,
}

// The step whose token stands at `at`; other tokens are no steps.
pub fn step_at(words: &[u16], at: usize) -> Option<Step>
    requires { at < 2 ^ 16 }
    ensures { result ≡ step_of (token_at words.now at) }
{
    match token_at(words, at) {
        Token::Forward(p) => Some(Step {
            kind: ATTRIBUTE_KINDS + p,
            backward: false,
        }),
        Token::Backward(p) => Some(Step {
            kind: ATTRIBUTE_KINDS + p,
            backward: true,
        }),
        Token::Class(_)
        | Token::Everything
        | Token::Constant(_)
        | Token::Both
        | Token::Empty
        | Token::Reached
        | Token::Common
        | Token::Mark(_) => None,
    }
}

// Where the words of a step's origins begin, and those of its targets.
#[derive(Clone, Copy)]
pub struct Ends {
    pub origins: usize,
    pub targets: usize,
}

// Asked once a step, so that its facts are read the same way whichever way it goes.
pub fn ends_of(state: &[u16], backward: bool) -> Ends
    ensures { result ≡ ends_of state.now backward }
{
    let layout = state_layout();
    let first = layout.sizes;
    let second = first + facts(state);
    if backward {
        Ends {
            origins: second,
            targets: first,
        }
    } else {
        Ends {
            origins: first,
            targets: second,
        }
    }
}

// The object that fact `i` names in the words from `from` on. A second object is a whole word, but it is no higher.
pub fn object_in(state: &[u16], from: usize, i: usize) -> usize
    requires { from + i < 2 ^ 32 }
    ensures { result ≡ object_in state.now from i }
{
    word(state, from + i) % OBJECT_PART
}
