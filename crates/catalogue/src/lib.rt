// A catalogue of views in order: which views are held by which, and from that groups of views that hold each other, a narrower
// group before a wider one. No words are lent. Arbitrary words are taken; faulty records are refused.
#![tactic(auto)]

pub mod arrange;
pub mod check;
pub mod order;
pub mod pairs;
pub mod sets;
pub mod verdicts;
