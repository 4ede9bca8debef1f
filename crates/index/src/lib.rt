// What makes questions about the facts of a state cheap: sets of numbers as words of bits, where the facts of a kind stand,
// and which left words the facts have.
#![tactic(auto)]

pub mod bits;
pub mod kinds;
pub mod left;
