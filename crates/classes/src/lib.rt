// Class sets as words, and what the axioms of an accepted schema say of them.
// Each function gives the value of the model's function of that name (crate chase: ClassSet, Axioms); `domains` gives
// those of `domain` for all attributes.
#![tactic(auto)]

pub mod closure;
pub mod collect;
pub mod domains;
pub mod sets;
