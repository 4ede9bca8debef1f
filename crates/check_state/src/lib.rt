// The check of a state record: refusals 7, 8, 9, 15 and 10.
#![tactic(auto)]

ghost use Rattle.std.specs.Prelude.{◌||◌, false, ◌≡◌, ◌<◌, ◌^◌, length};
ghost use Rattle.records.specs.StateRecord.{is_class_fact};
ghost use Rattle.records.specs.StateRefusal.{refusal_7, refusal_9, refusal_15, declares_kind, suits_kind, faulty_fact, ascends as ascends_at, state_answer};
ghost use Rattle.check_state.specs.Scan.{last_passes, follows_at, sorted_answer, slots, slot_of, named_in, misnamed as misnamed_in, mismarked as mismarked_in};
ghost use Rattle.records.specs.State.{repeats as repeats_in};

use records::layout::{left, misshapen, right};
use records::marks::{MAX_MARKS, allows};
use records::refusal::Refusal;
use records::schema::{Signature, differ};
use records::state::{
    ATTRIBUTE_KINDS, CONSTANT_KINDS, FACT_KINDS, MARK_KINDS, MAX_FACTS, MAX_OBJECTS, class_facts,
    facts, is_class_fact, kind_at, object_at, objects, state_layout,
};

// A place for each constant and mark to which a fact can give its object.
const SLOTS: usize = FACT_KINDS - CONSTANT_KINDS;

fn declares_kind(s: Signature, kind: usize) -> bool
    ensures { result ≡ declares_kind s kind }
{
    if kind < ATTRIBUTE_KINDS {
        return kind < s.classes;
    }
    if kind < CONSTANT_KINDS {
        return kind - ATTRIBUTE_KINDS < s.attributes;
    }
    if kind < MARK_KINDS {
        return kind - CONSTANT_KINDS < s.constants;
    }
    allows(s, kind - MARK_KINDS)
}

fn suits_kind(n: usize, kind: usize, right: usize) -> bool
    ensures { result ≡ suits_kind n kind right }
{
    if (ATTRIBUTE_KINDS <= kind) & (kind < CONSTANT_KINDS) {
        right < n
    } else {
        right == 0
    }
}

// Refusal 8 at fact `i`.
#[tactic(auto, unfolding(records::specs::StateRefusal::faulty_fact))]
fn faulty_fact(s: Signature, words: &[u16], i: usize) -> bool
    requires { i < 2 ^ 16 }
    ensures { result ≡ faulty_fact s words.now i }
{
    let n = objects(words);
    let kind = kind_at(words, i);
    let object = object_at(words, i);
    let second = right(state_layout(), words, i);
    !declares_kind(s, kind) | (n <= object) | !suits_kind(n, kind, second)
}

// Fact `i` stands before the next one.
fn ascends(words: &[u16], i: usize) -> bool
    requires { i < 2 ^ 16 }
    ensures { result ≡ ascends_at words.now i }
{
    let l = left(state_layout(), words, i);
    let next = left(state_layout(), words, i + 1);
    let r = right(state_layout(), words, i);
    let second = right(state_layout(), words, i + 1);
    (l < next) | ((l == next) & (r < second))
}

// Fact `i` is the first, or stands after the one before it.
fn follows(words: &[u16], i: usize) -> bool
    requires { i < 2 ^ 16 }
    ensures { result ≡ follows_at words.now i }
{
    i == 0 || ascends(words, i - 1)
}

// No fact stands before place `i`, or the last of them is of a class.
fn class_up_to(words: &[u16], i: usize) -> bool
    requires { i < 2 ^ 16 }
    ensures { result ≡ last_passes (is_class_fact words.now) i }
{
    i == 0 || is_class_fact(words, i - 1)
}

// Refusal 15. Facts that ascend begin with those of classes, so the two at the end of the count tell whether it is right.
fn bad_class_facts(words: &[u16]) -> bool
    requires { refusal_9 words.now ≡ false }
    ensures { result ≡ refusal_15 words.now }
{
    let n = facts(words);
    let end = class_facts(words);
    (n < end) | !class_up_to(words, end) | ((end < n) & is_class_fact(words, end))
}

// The place of the constant or mark to which a fact of this kind gives its object.
fn slot(kind: usize) -> Option<usize>
    ensures { result ≡ slot_of kind }
{
    if (CONSTANT_KINDS <= kind) & (kind < FACT_KINDS) {
        Some(kind - CONSTANT_KINDS)
    } else {
        None
    }
}

// Constant `a` clashes with an earlier one.
fn repeats(s: Signature, named: &[usize; SLOTS], a: usize) -> bool
    requires { (a < slots) × (length named.now ≡ slots) }
    ensures { result ≡ repeats_in s (named_in named.now) a }
{
    (0..a).any(|b| differ(s, a, b) & (named[b] == named[a]))
}

// Refusal 10 of the constants, from how many facts name each and the object of the last of them.
fn misnamed(s: Signature, counts: &[usize; SLOTS], named: &[usize; SLOTS]) -> bool
    requires { (length counts.now ≡ slots) × (length named.now ≡ slots) }
    ensures { result ≡ misnamed_in s counts.now named.now }
{
    if SLOTS < s.constants {
        return true;
    }
    (0..s.constants).any(|a| (counts[a] != 1) | repeats(s, named, a))
}

// Refusal 10 of the marks, from how many facts give each its object.
fn mismarked(s: Signature, counts: &[usize; SLOTS]) -> bool
    requires { length counts.now ≡ slots }
    ensures { result ≡ mismarked_in s counts.now }
{
    (0..MAX_MARKS).any(|k| allows(s, k) & (counts[MARK_KINDS - CONSTANT_KINDS + k] != 1))
}

// Refusal 10.
fn bad_names(s: Signature, counts: &[usize; SLOTS], named: &[usize; SLOTS]) -> bool
    requires { (length counts.now ≡ slots) × (length named.now ≡ slots) }
    ensures { result ≡ (misnamed_in s counts.now named.now || mismarked_in s counts.now) }
{
    misnamed(s, counts, named) | mismarked(s, counts)
}

// Refusal 7.
#[tactic(auto, unfolding(records::specs::StateRefusal::refusal_7))]
fn bad_shape(words: &[u16]) -> bool
    ensures { result ≡ refusal_7 words.now }
{
    let n = facts(words);
    (MAX_OBJECTS < objects(words)) | (MAX_FACTS < n) | misshapen(state_layout(), words)
}

// Refusal 15, then 10, or accepted.
fn answer(miscounted: bool, misnamed: bool) -> Result<(), Refusal>
    ensures { result ≡ sorted_answer miscounted misnamed }
{
    if miscounted {
        return Err(Refusal::StateClassFacts);
    }
    if misnamed {
        return Err(Refusal::StateNames);
    }
    Ok(())
}

// The first refusal that applies, or nothing.
#[tactic(auto, using(crate::proofs::StateScanLaws::slot_below))]
pub fn check_state(s: Signature, words: &[u16]) -> Result<(), Refusal>
    ensures { result ≡ state_answer s words.now }
{
    if bad_shape(words) {
        return Err(Refusal::StateShape);
    }
    let n = facts(words);
    let mut ascending = true;
    let mut counts = [0usize; SLOTS];
    let mut named = [0usize; SLOTS];
    for i in 0..n {
        if faulty_fact(s, words, i) {
            return Err(Refusal::StateFact);
        }
        ascending = ascending & follows(words, i);
        if let Some(at) = slot(kind_at(words, i)) {
            counts[at] += 1;
            named[at] = object_at(words, i);
        }
    }
    if !ascending {
        return Err(Refusal::StateOrder);
    }
    answer(bad_class_facts(words), bad_names(s, &counts, &named))
}
