// Mending a paper (change request 11): what the desk turns down by 6 or 36 is taken out, clause by clause, and all else stays as it is.
#![tactic(auto)]

mod copy;
mod lines;
pub mod mend;
mod reasons;
