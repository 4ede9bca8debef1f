// What C gets of an answer, since a Result does not cross: the number that a call returns, and its out values. The entries are in
// bikuvoa_c.
#![tactic(auto)]

pub mod given;
pub mod verdicts;
