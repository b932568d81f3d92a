// This crate holds the invariant of the definitions' state and the theorem that no assert is met, in proofs/; there is no code.
#![tactic(auto)]
