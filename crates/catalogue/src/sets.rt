// A set of views is a word in which view i is digit i.
ghost use Rattle.std.specs.Prelude.{◌≡◌, cond, ◌<◌, ◌^◌};
ghost use Rattle.records.specs.Finite.{bit};
ghost use Rattle.records.specs.Layout.{max_views};
ghost use Rattle.catalogue.specs.Helpers.{meets as meets_in};

pub fn has(set: u16, view: usize) -> bool
    requires { view < max_views }
    ensures { result ≡ bit set view }
{
    (set >> view) % 2 == 1
}

// The set of the view, if the test passes.
pub fn only_if(test: bool, view: usize) -> u16
    requires { view < max_views }
    ensures { result ≡ cond test (2 ^ view) 0 }
{
    if test { 1 << view } else { 0 }
}

// The two sets share a view.
#[tactic(auto, unfolding(crate::specs::Helpers::meets))]
pub fn meets(a: u16, b: u16) -> bool
    ensures { result ≡ meets_in a b }
{
    (a & b) != 0
}
