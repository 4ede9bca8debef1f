// Where paths lead in a state: from which objects a path leads anywhere, and from which two paths lead to a common object. What each
// step lands on is known: it stands in a row at the place of the step's token.
#![tactic(auto)]

pub mod meeting;
pub mod reaching;
mod relation;
mod steps;
