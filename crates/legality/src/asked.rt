// Which objects and which facts can break an axiom: all objects or none, and the facts of one attribute or none.
ghost use Rattle.std.specs.Prelude.{◌≡◌, ◌+◌, ◌<◌};
ghost use Rattle.records.specs.Layout.{attribute_kinds, max_attributes};
ghost use Rattle.records.specs.Helpers.InRange.{AxiomInRange};
ghost use Rattle.index.specs.Kinds.{KindsRise};
ghost use Rattle.legality.specs.Asked.{objects_asked, KindRow, PairsAsked};

use index::kinds::first_of_kind;
use records::schema::Axiom;
use records::state::ATTRIBUTE_KINDS;
use std::ops::Range;

// Where the pairs of attribute `p` stand.
fn pairs(state: &[u16], p: usize) -> Range<usize>
    requires { KindsRise state.now × (p < max_attributes) }
    ensures { KindRow state.now (attribute_kinds + p) result }
{
    let kind = ATTRIBUTE_KINDS + p;
    first_of_kind(state, kind)..first_of_kind(state, kind + 1)
}

// All objects, or none where only pairs can break the axiom.
pub fn objects_asked(x: Axiom, objects: usize) -> Range<usize>
    ensures { (result.start ≡ 0) × (result.end ≡ objects_asked x objects) }
{
    match x {
        Axiom::Subclass(_, _) => 0..objects,
        Axiom::Typing(_, _, _) => 0..0,
        Axiom::Necessary(_, _) => 0..objects,
        Axiom::Single(_, _) => 0..0,
        Axiom::Relates(_, _, _) => 0..0,
    }
}

// The pairs of its attribute, or none where only objects can break the axiom.
pub fn pairs_asked(x: Axiom, state: &[u16]) -> Range<usize>
    requires { AxiomInRange x × KindsRise state.now }
    ensures { PairsAsked state.now x result }
{
    match x {
        Axiom::Subclass(_, _) => 0..0,
        Axiom::Typing(_, p, _) => pairs(state, p),
        Axiom::Necessary(_, _) => 0..0,
        Axiom::Single(_, p) => pairs(state, p),
        Axiom::Relates(p, _, _) => pairs(state, p),
    }
}
