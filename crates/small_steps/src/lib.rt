// This crate holds definitions and theorems about a turn's two halves, in specs/ and proofs/; there is no code.
#![tactic(auto)]
