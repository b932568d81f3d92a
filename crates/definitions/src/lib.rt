// This crate holds definitions and theorems about them, in specs/ and proofs/; there is no code.
#![tactic(auto)]
