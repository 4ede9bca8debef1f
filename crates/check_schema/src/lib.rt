// The check of a schema record: refusals 1, 14 and 2.
#![tactic(auto)]

ghost use Rattle.std.specs.Prelude.{◌≡◌, ◌<◌, ◌≤◌, ◌^◌};
ghost use Rattle.check_schema.specs.Scan.{content_answer};
ghost use Rattle.records.specs.Layout.{max_constants};
ghost use Rattle.records.specs.SchemaRecord.{signature_of};
ghost use Rattle.records.specs.SchemaRefusal.{oversized as oversized_in, declares as declares_in, faulty_axiom, refusal_1, refusal_14, refusal_2, schema_answer};

use records::layout::{left, misshapen};
use records::refusal::Refusal;
use records::schema::{
    Axiom, BYTE_PART, MAX_ATTRIBUTES, MAX_AXIOMS, MAX_CLASSES, MAX_CONSTANTS, Signature, axiom_at,
    axioms, schema_layout, signature_of,
};

fn declares(s: Signature, a: Axiom) -> bool
    ensures { result ≡ declares_in s a }
{
    match a {
        Axiom::Subclass(a, b) => (a < s.classes) & (b < s.classes),
        Axiom::Typing(a, p, b) => (a < s.classes) & (p < s.attributes) & (b < s.classes),
        Axiom::Necessary(a, p) | Axiom::Single(a, p) => (a < s.classes) & (p < s.attributes),
        Axiom::Relates(p, a, b) => (p < s.attributes) & (a < s.classes) & (b < s.classes),
    }
}

// Refusal 2 at axiom `i`.
#[tactic(auto, unfolding(records::specs::SchemaRefusal::faulty_axiom, records::specs::SchemaRecord::axiom_kind))]
fn faulty_axiom(s: Signature, words: &[u16], i: usize) -> bool
    requires { i < 2 ^ 16 }
    ensures { result ≡ faulty_axiom s words.now i }
{
    let kind = left(schema_layout(), words, i) / BYTE_PART;
    (kind < 1) | (5 < kind) | !declares(s, axiom_at(words, i))
}

// A size is above its limit.
fn oversized(s: Signature, axioms: usize) -> bool
    ensures { result ≡ oversized_in s axioms }
{
    (MAX_CLASSES < s.classes)
        | (MAX_ATTRIBUTES < s.attributes)
        | (MAX_CONSTANTS < s.constants)
        | (MAX_AXIOMS < axioms)
}

// Refusal 1.
#[tactic(auto, unfolding(records::specs::SchemaRefusal::refusal_1))]
fn bad_shape(words: &[u16]) -> bool
    ensures { result ≡ refusal_1 words.now }
{
    let n = axioms(words);
    oversized(signature_of(words), n) | misshapen(schema_layout(), words)
}

// Refusal 14: above the digits of the declared constants the word is not 0.
fn bad_loose(words: &[u16]) -> bool
    requires { (signature_of words.now).constants ≤ max_constants }
    ensures { result ≡ refusal_14 words.now }
{
    let s = signature_of(words);
    (s.loose >> s.constants) != 0
}

// Refusal 2.
fn bad_axiom(words: &[u16]) -> bool
    ensures { result ≡ refusal_2 words.now }
{
    let s = signature_of(words);
    (0..axioms(words)).any(|i| faulty_axiom(s, words, i))
}

// Refusal 14, then 2, or what the schema declares.
fn answer(s: Signature, undeclared: bool, faulty: bool) -> Result<Signature, Refusal>
    ensures { result ≡ content_answer s undeclared faulty }
{
    if undeclared {
        return Err(Refusal::SchemaLoose);
    }
    if faulty {
        return Err(Refusal::SchemaAxiom);
    }
    Ok(s)
}

// What the schema declares, or the first refusal that applies.
#[tactic(auto, unfolding(records::specs::SchemaRefusal::schema_answer))]
pub fn check_schema(words: &[u16]) -> Result<Signature, Refusal>
    ensures { result ≡ schema_answer words.now }
{
    if bad_shape(words) {
        return Err(Refusal::SchemaShape);
    }
    answer(signature_of(words), bad_loose(words), bad_axiom(words))
}
