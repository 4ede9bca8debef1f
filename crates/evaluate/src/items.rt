// The evaluation of a concept record from the right: the item that ends at a place is read at the token before it, its last
// operand ends there, and the operand before that one where the last one starts. So each token is evaluated once.
// What a step of a path lands on is kept in the landings, at the place of its token: a path is walked when all its landing
// concepts are evaluated, so that nothing but sets is held meanwhile. The rows are lent for the relations of common objects.
ghost use Rattle.std.specs.Prelude.{suc, ◌≡◌};
ghost use Rattle.records.specs.declared.token.Token.TheVariants.{Both, Reached, Common};
ghost use Rattle.records.specs.ConceptRecord.{token_at};
ghost use Rattle.records.specs.Helpers.Reading.{HasConcept, HasPath};
ghost use Rattle.evaluate.specs.Places.{Place, ConceptAt, PathAt};

use paths::meeting::meeting;
use paths::reaching::reaching;
use records::state::{CONSTANT_KINDS, MARK_KINDS, objects};
use records::token::{Token, is_step, token_at};
use rows::sets::{everything, kind_set, put, shared_row};
use rows::sizes::SET_WORDS;

// Where a concept's tokens start, and the set that it selects.
#[derive(Clone, Copy)]
pub struct Found {
    pub start: usize,
    pub set: [u64; SET_WORDS],
}

// The concept that ends at `end`.
#[cycle(both_common_concept_path_reached)]
pub fn concept(
    words: &[u16],
    state: &[u16],
    end: usize,
    landings: &mut [u64],
    rows: &mut [u64],
) -> Found
    requires place { Place words.now state.now landings.old rows.old end }
    requires has_concept { HasConcept words.now end }
    ensures { ConceptAt words.now state.now end landings.old landings.new rows.old rows.new result }
{
    let at = end - 1;
    match token_at(words, at) {
        Token::Class(a) => Found {
            start: at,
            set: kind_set(state, a),
        },
        Token::Everything => Found {
            start: at,
            set: everything(objects(state)),
        },
        Token::Constant(a) => Found {
            start: at,
            set: kind_set(state, CONSTANT_KINDS + a),
        },
        Token::Both => both(words, state, at, landings, rows),
        Token::Reached => reached(words, state, at, landings, rows),
        Token::Common => common(words, state, at, landings, rows),
        Token::Mark(k) => Found {
            start: at,
            set: kind_set(state, MARK_KINDS + k),
        },
        // A path's tokens end no concept.
        Token::Empty | Token::Forward(_) | Token::Backward(_) => Found {
            start: at,
            set: [0; SET_WORDS],
        },
    }
}

// Both of two concepts, whose token stands at `at`.
#[cycle(both_common_concept_path_reached)]
fn both(words: &[u16], state: &[u16], at: usize, landings: &mut [u64], rows: &mut [u64]) -> Found
    requires place { Place words.now state.now landings.old rows.old (suc at) }
    requires has_concept { HasConcept words.now (suc at) }
    requires at_value { token_at words.now at ≡ Both }
    ensures { ConceptAt words.now state.now (suc at) landings.old landings.new rows.old rows.new result }
{
    let last = concept(words, state, at, landings, rows);
    let first = concept(words, state, last.start, landings, rows);
    Found {
        start: first.start,
        set: shared_row(&first.set, &last.set, 0),
    }
}

// Some object is reached by a path; its token stands at `at`.
#[cycle(both_common_concept_path_reached)]
fn reached(words: &[u16], state: &[u16], at: usize, landings: &mut [u64], rows: &mut [u64]) -> Found
    requires place { Place words.now state.now landings.old rows.old (suc at) }
    requires has_concept { HasConcept words.now (suc at) }
    requires at_value { token_at words.now at ≡ Reached }
    ensures { ConceptAt words.now state.now (suc at) landings.old landings.new rows.old rows.new result }
{
    let start = path(words, state, at, landings, rows);
    Found {
        start,
        set: reaching(words, state, landings, at),
    }
}

// Two paths reach a common object; their token stands at `at`.
#[cycle(both_common_concept_path_reached)]
fn common(words: &[u16], state: &[u16], at: usize, landings: &mut [u64], rows: &mut [u64]) -> Found
    requires place { Place words.now state.now landings.old rows.old (suc at) }
    requires has_concept { HasConcept words.now (suc at) }
    requires at_value { token_at words.now at ≡ Common }
    ensures { ConceptAt words.now state.now (suc at) landings.old landings.new rows.old rows.new result }
{
    let middle = path(words, state, at, landings, rows);
    let start = path(words, state, middle, landings, rows);
    Found {
        start,
        set: meeting(words, state, landings, middle, at, rows),
    }
}

// The path that ends at `end`: what its steps land on. Returns where its tokens start.
#[cycle(both_common_concept_path_reached)]
pub fn path(
    words: &[u16],
    state: &[u16],
    end: usize,
    landings: &mut [u64],
    rows: &mut [u64],
) -> usize
    requires place { Place words.now state.now landings.old rows.old end }
    requires has_path { HasPath words.now end }
    ensures { PathAt words.now state.now end landings.old landings.new rows.old rows.new result }
{
    let at = end - 1;
    if is_step(token_at(words, at)) {
        let landing = concept(words, state, at, landings, rows);
        put(landings, at, &landing.set);
        path(words, state, landing.start, landings, rows)
    } else {
        at
    }
}
