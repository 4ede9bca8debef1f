// Judging states: which objects a concept selects, whether a state is legal, and whether it is a counterexample. Each entry takes
// arbitrary words, refuses faulty records by number, and promises its answer for every input (specs/).
#![tactic(auto)]

pub mod counterexample;
pub mod legal;
pub mod member;
pub mod select;
