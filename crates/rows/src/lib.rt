// Sets of objects as words of bits, alone or as rows of a list of them, and rows of as many blocks as the objects need.
#![tactic(auto)]

pub mod blocks;
pub mod sets;
pub mod sizes;
