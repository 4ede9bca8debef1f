// The state record and its facts.
ghost use Rattle.std.specs.Prelude.{◌≡◌, ◌<◌, ◌^◌};
ghost use Rattle.records.specs.Helpers.Word.{IsWord, IsLayout};
ghost use Rattle.records.specs.Layout.{entries as entries_of, state_layout};
ghost use Rattle.records.specs.StateRecord.{objects as objects_of, class_facts as class_facts_of, kind_at, object_at, is_class_fact};

use crate::layout::{Layout, entries, left, word};

pub const MAX_OBJECTS: usize = 480;

pub const MAX_FACTS: usize = 15_384;

// The size words: where each stands, and how many there are.
pub const AT_OBJECTS: usize = 0;

pub const AT_FACTS: usize = 1;

pub const AT_CLASS_FACTS: usize = 2;

pub const STATE_SIZES: usize = 3;

// The most words of an accepted record.
pub const STATE_WORDS: usize = STATE_SIZES + 2 * MAX_FACTS;

// A fact's left word is its kind times this plus its object.
pub const OBJECT_PART: usize = 512;

// A fact as one number is its left word times this plus its right word.
pub const WORD_PART: usize = 65_536;

// The first kind of attributes, the first of constants, the first of marks, and one past the last.
pub const ATTRIBUTE_KINDS: usize = 24;

pub const CONSTANT_KINDS: usize = 32;

pub const MARK_KINDS: usize = 36;

pub const FACT_KINDS: usize = 40;

pub fn state_layout() -> Layout
    ensures { IsLayout state_layout result }
{
    Layout {
        sizes: STATE_SIZES,
        counter: AT_FACTS,
    }
}

pub fn facts(words: &[u16]) -> usize
    ensures { IsWord (entries_of state_layout words.now) result }
{
    entries(state_layout(), words)
}

pub fn objects(words: &[u16]) -> usize
    ensures { IsWord (objects_of words.now) result }
{
    word(words, AT_OBJECTS)
}

// How many of the facts are class facts, as the record says.
pub fn class_facts(words: &[u16]) -> usize
    ensures { IsWord (class_facts_of words.now) result }
{
    word(words, AT_CLASS_FACTS)
}

pub fn kind_at(words: &[u16], i: usize) -> usize
    requires { i < 2 ^ 16 }
    ensures { result ≡ kind_at words.now i }
{
    left(state_layout(), words, i) / OBJECT_PART
}

pub fn object_at(words: &[u16], i: usize) -> usize
    requires { i < 2 ^ 16 }
    ensures { result ≡ object_at words.now i }
{
    left(state_layout(), words, i) % OBJECT_PART
}

// Fact `i` is of a class.
pub fn is_class_fact(words: &[u16], i: usize) -> bool
    requires { i < 2 ^ 16 }
    ensures { result ≡ is_class_fact words.now i }
{
    kind_at(words, i) < ATTRIBUTE_KINDS
}
