// Records of words: their types, and readers that take arbitrary words (document 01, "Records"). What the records mean, and what is
// turned back, is in specs/: all that a reader must believe.
#![tactic(auto)]

pub mod concept;
pub mod layout;
pub mod marks;
pub mod named;
pub mod refusal;
pub mod schema;
pub mod state;
pub mod token;
