// Writes records. Each writer changes the lent words that its record takes, and no later ones.
#![tactic(auto)]

pub mod halves;
pub mod states;
pub mod words;
