// The tokens of a concept record, decoded.
ghost use Rattle.std.specs.Prelude.{◌≡◌, ◌<◌, ◌^◌};
ghost use Rattle.records.specs.Helpers.Word.{IsWord, IsLayout};
ghost use Rattle.records.specs.Layout.{entries as entries_of, left_at, right_at, concept_layout};
ghost use Rattle.records.specs.ConceptRecord.{token_of, token_at};
ghost use Rattle.records.specs.ConceptRefusal.{is_step};

use crate::layout::{Layout, entries, left, right};

pub const MAX_TOKENS: usize = 64;

// Tokens, steps.
pub const CONCEPT_SIZES: usize = 2;

// The ten sorts of token, in the paper's order.
#[derive(Clone, Copy)]
pub enum Token {
    Class(usize),
    Everything,
    Constant(usize),
    Both,
    Empty,
    Forward(usize),
    Backward(usize),
    Reached,
    Common,
    Mark(usize),
}

pub fn concept_layout() -> Layout
    ensures { IsLayout concept_layout result }
{
    Layout {
        sizes: CONCEPT_SIZES,
        counter: 0,
    }
}

pub fn tokens(words: &[u16]) -> usize
    ensures { IsWord (entries_of concept_layout words.now) result }
{
    entries(concept_layout(), words)
}

#[tactic(auto, unfolding(crate::specs::ConceptRecord::token_of))]
pub fn token_of(sort: usize, argument: usize) -> Token
    ensures { result ≡ token_of sort argument }
{
    match sort {
        1 => Token::Class(argument),
        2 => Token::Everything,
        3 => Token::Constant(argument),
        4 => Token::Both,
        5 => Token::Empty,
        6 => Token::Forward(argument),
        7 => Token::Backward(argument),
        8 => Token::Reached,
        9 => Token::Common,
        _ => Token::Mark(argument),
    }
}

pub fn sort_at(words: &[u16], i: usize) -> usize
    requires { i < 2 ^ 16 }
    ensures { result ≡ left_at concept_layout words.now i }
{
    left(concept_layout(), words, i)
}

pub fn argument_at(words: &[u16], i: usize) -> usize
    requires { i < 2 ^ 16 }
    ensures { result ≡ right_at concept_layout words.now i }
{
    right(concept_layout(), words, i)
}

pub fn token_at(words: &[u16], i: usize) -> Token
    requires { i < 2 ^ 16 }
    ensures { result ≡ token_at words.now i }
{
    token_of(sort_at(words, i), argument_at(words, i))
}

pub fn is_step(token: Token) -> bool
    ensures { result ≡ is_step token }
{
    match token {
        Token::Class(_) => false,
        Token::Everything => false,
        Token::Constant(_) => false,
        Token::Both => false,
        Token::Empty => false,
        Token::Forward(_) => true,
        Token::Backward(_) => true,
        Token::Reached => false,
        Token::Common => false,
        Token::Mark(_) => false,
    }
}
