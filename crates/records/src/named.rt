// What a concept names: the classes and attributes of its tokens. A set of them is a word in which number k is digit k.
ghost use Rattle.std.specs.Prelude.{◌≡◌, ◌≤◌, eqb};
ghost use Rattle.records.specs.Finite.{set_of};

#[derive(Clone, Copy)]
pub struct Named {
    pub classes: u32,
    pub attributes: u32,
    // How many classes there are, each counted once.
    pub count: u64,
}

// The set of the number alone. A number past the limit is in no set, so no caller has to show a bound.
pub fn only(limit: usize, number: usize) -> u32
    requires { limit ≤ 32 }
    ensures { result ≡ set_of limit (λ k. eqb k number) }
{
    if number < limit { 1 << number } else { 0 }
}
