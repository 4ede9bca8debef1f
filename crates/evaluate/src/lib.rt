// Which objects a concept selects in a state: document 01, "Meaning". The records must be accepted ones.
#![tactic(auto)]

ghost use Rattle.std.specs.Prelude.{◌≡◌, ◌*◌, ◌≤◌, ◌<◌, ◌^◌, length};
ghost use Rattle.std.proofs.Math.Bool.{So};
ghost use Rattle.records.specs.Finite.{any};
ghost use Rattle.records.specs.Layout.{concept_layout, entries};
ghost use Rattle.records.specs.ConceptRecord.{concept_of};
ghost use Rattle.records.specs.StateRecord.{state_of};
ghost use Rattle.paths.specs.Evaluable.{Evaluable};
ghost use Rattle.evaluate.specs.Relations.{is_common, common_at, Landable, Relations};
ghost use Rattle.rows.specs.Selection.{set_words, Selection};

use records::schema::Signature;
use records::state::{MAX_OBJECTS, objects};
use records::token::{MAX_TOKENS, Token, token_at, tokens};
use rows::sizes::{BLOCK_BITS, BLOCK_WORDS, SET_WORDS};

mod items;

// Most concepts have few tokens and most states few objects; these are the sizes below the largest.
const FEW_TOKENS: usize = 16;

const FEW_OBJECTS: usize = 64;

const FEW_BLOCKS: usize = (FEW_OBJECTS + BLOCK_BITS - 1) / BLOCK_BITS;

const SOME_OBJECTS: usize = 192;

const SOME_BLOCKS: usize = (SOME_OBJECTS + BLOCK_BITS - 1) / BLOCK_BITS;

// The words of the landings: a set for each token.
const FEW_LANDINGS: usize = FEW_TOKENS * SET_WORDS;

const ALL_LANDINGS: usize = MAX_TOKENS * SET_WORDS;

// The words of three relations: a row for each object, of as many blocks as there are objects for.
const NO_ROWS: usize = 0;

const FEW_ROWS: usize = 3 * FEW_OBJECTS * FEW_BLOCKS * BLOCK_WORDS;

const SOME_ROWS: usize = 3 * SOME_OBJECTS * SOME_BLOCKS * BLOCK_WORDS;

const ALL_ROWS: usize = 3 * MAX_OBJECTS * SET_WORDS;

fn is_common(token: Token) -> bool
    ensures { result ≡ is_common token }
{
    match token {
        Token::Class(_) => false,
        Token::Everything => false,
        Token::Constant(_) => false,
        Token::Both => false,
        Token::Empty => false,
        Token::Forward(_) => false,
        Token::Backward(_) => false,
        Token::Reached => false,
        Token::Common => true,
        Token::Mark(_) => false,
    }
}

// Whether the concept asks for a common object.
fn has_common(words: &[u16]) -> bool
    ensures { result ≡ any (entries concept_layout words.now) (common_at words.now) }
{
    (0..tokens(words)).any(|i| is_common(token_at(words, i)))
}

// With rows of so many words for three relations, which only a concept that asks for a common object has. A function for each
// size, so that a small call clears few words.
fn with_rows<const WORDS: usize>(
    s: Signature,
    concept: &[u16],
    state: &[u16],
    landings: &mut [u64],
) -> [u64; SET_WORDS]
    requires landable { Landable s concept.now state.now landings.old }
    requires relations { Relations concept.now state.now WORDS }
    ensures { Selection (state_of state.now) (concept_of concept.now) result }
{
    let mut rows = [0u64; WORDS];
    items::concept(concept, state, tokens(concept), landings, &mut rows).set
}

// The rows by how many objects there are.
fn with_landings(
    s: Signature,
    concept: &[u16],
    state: &[u16],
    landings: &mut [u64],
) -> [u64; SET_WORDS]
    requires { Landable s concept.now state.now landings.old }
    ensures { Selection (state_of state.now) (concept_of concept.now) result }
{
    let n = objects(state);
    if !has_common(concept) {
        with_rows::<NO_ROWS>(s, concept, state, landings)
    } else if n <= FEW_OBJECTS {
        with_rows::<FEW_ROWS>(s, concept, state, landings)
    } else if n <= SOME_OBJECTS {
        with_rows::<SOME_ROWS>(s, concept, state, landings)
    } else {
        with_rows::<ALL_ROWS>(s, concept, state, landings)
    }
}

// With landings of so many words.
fn with_tokens<const WORDS: usize>(s: Signature, concept: &[u16], state: &[u16]) -> [u64; SET_WORDS]
    requires evaluable { Evaluable s concept.now state.now }
    requires landings { entries concept_layout concept.now * set_words ≤ WORDS }
    requires few { WORDS < 2 ^ 32 }
    ensures { Selection (state_of state.now) (concept_of concept.now) result }
{
    let mut landings = [0u64; WORDS];
    with_landings(s, concept, state, &mut landings)
}

pub fn evaluate(s: Signature, concept: &[u16], state: &[u16]) -> [u64; SET_WORDS]
    requires { Evaluable s concept.now state.now }
    ensures { Selection (state_of state.now) (concept_of concept.now) result }
{
    if tokens(concept) <= FEW_TOKENS {
        with_tokens::<FEW_LANDINGS>(s, concept, state)
    } else {
        with_tokens::<ALL_LANDINGS>(s, concept, state)
    }
}
