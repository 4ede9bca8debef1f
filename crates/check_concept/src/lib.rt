// The check of a concept record: that its tokens make one concept, of declared names and few enough steps, and what they name.
#![tactic(auto)]

ghost use Rattle.std.specs.Prelude.{◌≡◌, not, ◌||◌};
ghost use Rattle.records.specs.ConceptRecord.{token_of};
ghost use Rattle.records.specs.Marks.{allowing};
ghost use Rattle.records.specs.Shape.{outside};
ghost use Rattle.check_concept.specs.Scan.{scan_answer};
ghost use Rattle.records.specs.ConceptRefusal.{suits as suits_in, refusal_3, concept_answer};

use crate::scan::{START, Scan};
use records::concept::Role;
use records::layout::{misshapen, word};
use records::marks::{allow, allows};
use records::named::Named;
use records::refusal::Refusal;
use records::schema::Signature;
use records::token::{MAX_TOKENS, Token, argument_at, concept_layout, sort_at, token_of, tokens};

pub mod check;
pub mod named;
mod scan;
mod sorts;

fn suits(s: Signature, token: Token, argument: usize) -> bool
    ensures { result ≡ suits_in s token argument }
{
    match token {
        Token::Class(a) => a < s.classes,
        Token::Constant(a) => a < s.constants,
        Token::Forward(p) | Token::Backward(p) => p < s.attributes,
        Token::Mark(k) => allows(s, k),
        Token::Everything | Token::Both | Token::Empty | Token::Reached | Token::Common => {
            argument == 0
        }
    }
}

// Refusal 4 for a token of this sort and argument.
fn faulty_token(s: Signature, sort: usize, argument: usize) -> bool
    ensures { result ≡ (outside 1 10 sort || not (suits_in s (token_of sort argument) argument)) }
{
    (sort < 1) | (10 < sort) | !suits(s, token_of(sort, argument), argument)
}

// Refusal 3.
#[tactic(auto, unfolding(records::specs::ConceptRefusal::refusal_3))]
fn bad_shape(words: &[u16]) -> bool
    ensures { result ≡ refusal_3 words.now }
{
    let n = tokens(words);
    (n < 1) | (MAX_TOKENS < n) | misshapen(concept_layout(), words)
}

// Refusals 5 and 6, or what the concept names, from the scan of all its tokens. The record says that there are `steps` steps.
fn answer(limit: usize, steps: usize, scan: Scan) -> Result<Named, Refusal>
    ensures { result ≡ scan_answer limit steps scan }
{
    if !scan.pile.is_some_and(|sorts| sorts.is_concept()) {
        return Err(Refusal::ConceptPile);
    }
    if (scan.steps != steps) | (limit < scan.steps) {
        return Err(Refusal::ConceptSteps);
    }
    Ok(scan.named())
}

// What a concept of so many steps at most names, whatever its role. The tokens are read once, for refusal 4 and for what the scan
// keeps.
pub fn check_tokens(limit: usize, s: Signature, words: &[u16]) -> Result<Named, Refusal>
    ensures { result ≡ concept_answer limit s words.now }
{
    if bad_shape(words) {
        return Err(Refusal::ConceptShape);
    }
    let n = tokens(words);
    let mut scan = START;
    for i in 0..n {
        let sort = sort_at(words, i);
        let argument = argument_at(words, i);
        if faulty_token(s, sort, argument) {
            return Err(Refusal::ConceptToken);
        }
        scan = scan.read(token_of(sort, argument));
    }
    answer(limit, word(words, 1), scan)
}

// What a concept in this role names, or the first refusal that applies.
pub fn check_concept<R: Role>(s: Signature, words: &[u16]) -> Result<Named, Refusal>
    ensures { result ≡ concept_answer R.STEPS (allowing R.MARKS s) words.now }
{
    check_tokens(R::STEPS, allow(s, R::MARKS), words)
}
