// What a query asks of its nodes, as words: the facts of one kind, in the order of the model (crate chase: Facts). The tokens
// are read from the right, so of two operands the right one's facts come first.
#![tactic(auto)]

pub mod entry;
pub mod items;
pub mod ties;
pub mod words;
