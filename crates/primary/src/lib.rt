// The primary part: the query's nodes, closed under its facts and the axioms. It lies in two lent slices, a representative
// and a class set for each node. Each function gives the value of the model's function of that name (crate chase: Primary).
#![tactic(auto)]

pub mod begin;
pub mod clash;
pub mod pass;
pub mod prime;
pub mod rules;
pub mod settle;
