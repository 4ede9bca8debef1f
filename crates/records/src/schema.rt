// The schema record, its axioms decoded.
ghost use Rattle.std.specs.Prelude.{◌≡◌, ◌<◌, ◌^◌};
ghost use Rattle.records.specs.Helpers.Word.{IsWord, IsLayout};
ghost use Rattle.records.specs.Layout.{entries as entries_of, schema_layout, word_digits};
ghost use Rattle.records.specs.SchemaRecord.{signature_of, axiom_of, schema_of};
ghost use Rattle.records.specs.State.{is_loose, differ as differ_in};

use crate::layout::{Layout, entries, left, right, word};

pub const MAX_CLASSES: usize = 24;

pub const MAX_ATTRIBUTES: usize = 8;

pub const MAX_CONSTANTS: usize = 4;

pub const MAX_AXIOMS: usize = 96;

// Classes, attributes, constants, axioms, loose constants.
pub const SCHEMA_SIZES: usize = 5;

// A word of two parts is the first times this plus the second.
pub const BYTE_PART: usize = 256;

// How many classes, attributes and constants are declared, each numbered from 0, and which marks may be named.
#[derive(Clone, Copy)]
pub struct Signature {
    pub classes: usize,
    pub attributes: usize,
    pub constants: usize,
    // The set of the loose constants: bit k, from the lowest, is constant k.
    pub loose: usize,
    // The set of the marks that are allowed.
    pub marks: u32,
}

// The five kinds of axiom, in the paper's order.
#[derive(Clone, Copy)]
pub enum Axiom {
    // class A, class B
    Subclass(usize, usize),
    // class A, attribute P, class B
    Typing(usize, usize, usize),
    // class A, attribute P
    Necessary(usize, usize),
    // class A, attribute P
    Single(usize, usize),
    // attribute P, class A1, class A2
    Relates(usize, usize, usize),
}

pub fn schema_layout() -> Layout
    ensures { IsLayout schema_layout result }
{
    Layout {
        sizes: SCHEMA_SIZES,
        counter: 3,
    }
}

pub fn axioms(words: &[u16]) -> usize
    ensures { IsWord (entries_of schema_layout words.now) result }
{
    entries(schema_layout(), words)
}

pub fn signature_of(words: &[u16]) -> Signature
    ensures { result ≡ signature_of words.now }
{
    Signature {
        classes: word(words, 0),
        attributes: word(words, 1),
        constants: word(words, 2),
        loose: word(words, 4),
        marks: 0,
    }
}

fn is_loose(s: Signature, a: usize) -> bool
    requires { a < word_digits }
    ensures { result ≡ is_loose s a }
{
    (s.loose >> a) % 2 == 1
}

// Constants `a` and `b` are to name different objects.
pub fn differ(s: Signature, a: usize, b: usize) -> bool
    requires { (a < word_digits) × (b < word_digits) }
    ensures { result ≡ differ_in s a b }
{
    !(is_loose(s, a) | is_loose(s, b))
}

#[tactic(auto, unfolding(crate::specs::SchemaRecord::axiom_of, crate::specs::SchemaRecord::axiom_kind))]
pub fn axiom_of(left: usize, right: usize) -> Axiom
    ensures { result ≡ axiom_of left right }
{
    let kind = left / BYTE_PART;
    let subject = left % BYTE_PART;
    match kind {
        1 => Axiom::Subclass(subject, right),
        2 => Axiom::Typing(subject, right / BYTE_PART, right % BYTE_PART),
        3 => Axiom::Necessary(subject, right),
        4 => Axiom::Single(subject, right),
        _ => Axiom::Relates(subject, right / BYTE_PART, right % BYTE_PART),
    }
}

pub fn axiom_at(words: &[u16], i: usize) -> Axiom
    requires { i < 2 ^ 16 }
    ensures { result ≡ (schema_of words.now).axiom_at i }
{
    let l = left(schema_layout(), words, i);
    let r = right(schema_layout(), words, i);
    axiom_of(l, r)
}
