// This crate holds definitions and theorems about papers, in specs/ and proofs/; there is no code.
#![tactic(auto)]
