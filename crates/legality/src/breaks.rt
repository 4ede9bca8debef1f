// Whether one object or one fact breaks an axiom. Membership is one look-up in the index of the state.
ghost use Rattle.std.specs.Prelude.{◌≡◌, ◌<◌, ◌^◌};
ghost use Rattle.records.specs.Layout.{fact_kinds, max_classes, right_at, state_layout};
ghost use Rattle.records.specs.StateRecord.{object_at};
ghost use Rattle.records.specs.Helpers.InRange.{AxiomInRange};
ghost use Rattle.legality.specs.Breaks.{seen_at, repeats_left, object_breaks, misplaced};

use index::bits::has;
use records::layout::{left, right};
use records::schema::Axiom;
use records::state::{ATTRIBUTE_KINDS, OBJECT_PART, object_at, state_layout};

// Some fact is of this kind and object.
fn member(seen: &[u64], kind: usize, object: usize) -> bool
    requires { (kind < fact_kinds) × (object < 2 ^ 16) }
    ensures { result ≡ seen_at seen.now kind object }
{
    has(seen, kind * OBJECT_PART + object)
}

// The first object of fact `f` is in class `a`.
fn first_in(state: &[u16], seen: &[u64], a: usize, f: usize) -> bool
    requires { (a < max_classes) × (f < 2 ^ 16) }
    ensures { result ≡ seen_at seen.now a (object_at state.now f) }
{
    member(seen, a, object_at(state, f))
}

// The second object of a pair is in class `b`.
fn second_in(state: &[u16], seen: &[u64], b: usize, f: usize) -> bool
    requires { (b < max_classes) × (f < 2 ^ 16) }
    ensures { result ≡ seen_at seen.now b (right_at state_layout state.now f) }
{
    member(seen, b, right(state_layout(), state, f))
}

// The fact before has the same left word: of a pair, the same attribute and first object.
fn repeats_left(state: &[u16], f: usize) -> bool
    requires { f < 2 ^ 16 }
    ensures { result ≡ repeats_left state.now f }
{
    0 < f && left(state_layout(), state, f - 1) == left(state_layout(), state, f)
}

pub fn object_breaks(x: Axiom, seen: &[u64], d: usize) -> bool
    requires { AxiomInRange x × (d < 2 ^ 16) }
    ensures { result ≡ object_breaks seen.now x d }
{
    match x {
        Axiom::Subclass(a, b) => member(seen, a, d) & !member(seen, b, d),
        Axiom::Typing(_, _, _) => false,
        Axiom::Necessary(a, p) => member(seen, a, d) & !member(seen, ATTRIBUTE_KINDS + p, d),
        Axiom::Single(_, _) => false,
        Axiom::Relates(_, _, _) => false,
    }
}

// Fact `f`, a pair of the axiom's attribute, breaks it.
pub fn misplaced(x: Axiom, state: &[u16], seen: &[u64], f: usize) -> bool
    requires { AxiomInRange x × (f < 2 ^ 16) }
    ensures { result ≡ misplaced state.now seen.now x f }
{
    match x {
        Axiom::Subclass(_, _) => false,
        Axiom::Typing(a, _, b) => first_in(state, seen, a, f) & !second_in(state, seen, b, f),
        Axiom::Necessary(_, _) => false,
        Axiom::Single(a, _) => first_in(state, seen, a, f) & repeats_left(state, f),
        Axiom::Relates(_, a, b) => !(first_in(state, seen, a, f) & second_in(state, seen, b, f)),
    }
}
