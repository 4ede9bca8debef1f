// The entries for C (include/bikuvoa.h). Each returns 0, or the number of the first refusal that applies, and then no lent
// word and no out value is altered. A slice crosses as a pointer and a length.
#![tactic(auto)]

pub mod catalogues;
pub mod checks;
pub mod link_counts;
pub mod states;
pub mod verdicts;
