// Calls on a forest, one after the other in one loop: strands and answers stay with their owner from the first call to the last.
#![tactic(auto)]

pub mod calls;
pub mod refusal;
pub mod serve;
pub mod serve_all;
