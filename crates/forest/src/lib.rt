// The made part of the candidate, in the array of objects (crate ground: Objects): what the code reads of it, the values
// that are made, and the walk of the view that makes them. Each function gives the value of the model's function of that
// name (crate chase: Forest).
#![tactic(auto)]

pub mod make;
pub mod objects;
pub mod places;
pub mod walk;
