// The candidate as the facts of a state record, one number a fact, in ascending order: all classes, then all attributes,
// then the constants, then the used marks (crate chase: Candidate, Written). The first g of the n objects are the ground's, the
// others are made. The closing object, where some value is lacking, has the number n.
#![tactic(auto)]

pub mod facts;
pub mod marks;
mod members;
mod names;
pub mod number;
mod pairs;
pub mod put;
mod tables;
