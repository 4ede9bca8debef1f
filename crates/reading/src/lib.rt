// A concept's tokens, read from the right: where an item starts, and the number of a step. And which marks it uses.
#![tactic(auto)]

ghost use Rattle.std.specs.Prelude.{◌≡◌, ◌<◌, ◌^◌};
ghost use Rattle.records.specs.Finite.{set_of};
ghost use Rattle.records.specs.Layout.{max_marks};
ghost use Rattle.records.specs.Marks.{has_mark, used_marks};
ghost use Rattle.records.specs.Helpers.Reading.{takes as takes_of, start_of, step_number};

use records::marks::MAX_MARKS;
use records::named::only;
use records::token::{Token, is_step, token_at, tokens};

// The set of the mark that the token is.
fn mark_of(token: Token) -> u32
    ensures { result ≡ set_of max_marks (λ k. has_mark k token) }
{
    if let Token::Mark(k) = token {
        only(MAX_MARKS, k)
    } else {
        0
    }
}

// The marks that a concept uses.
pub fn used(words: &[u16]) -> u32
    ensures { result ≡ used_marks words.now }
{
    (0..tokens(words)).fold(0, |marks, i| marks | mark_of(token_at(words, i)))
}

// How many items a token takes from the pile.
#[tactic(auto, unfolding(records::specs::Helpers::Reading::takes))]
fn takes(token: Token) -> usize
    ensures { result ≡ takes_of token }
{
    match token {
        Token::Both | Token::Forward(_) | Token::Backward(_) | Token::Common => 2,
        Token::Reached => 1,
        Token::Class(_) | Token::Everything | Token::Constant(_) | Token::Empty | Token::Mark(_) =>
            0,
    }
}

// Where the item that ends at `end` starts: the scan goes left until no item is wanted any more.
pub fn start_of(words: &[u16], end: usize) -> usize
    requires { end < 2 ^ 16 }
    ensures { result ≡ start_of words.now end 1 }
{
    let mut at = end;
    let mut wanted = 1;
    while (0 < at) & (0 < wanted) {
        at -= 1;
        wanted = takes(token_at(words, at)) + wanted - 1;
    }
    at
}

// How many steps stand before `end`.
pub fn step_number(words: &[u16], end: usize) -> usize
    requires { end < 2 ^ 16 }
    ensures { result ≡ step_number words.now end }
{
    (0..end).filter(|i| is_step(token_at(words, *i))).count()
}
