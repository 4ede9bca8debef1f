// The ground: the closed primary part with its representatives numbered without gaps, as the first objects of an array, and
// the query's edges between them. Each function gives the value of the model's function of that name (crate chase: Ground).
#![tactic(auto)]

pub mod lay;
pub mod number;
