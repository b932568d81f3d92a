// This crate holds theorems about the definitions, in proofs/; there is no code.
#![tactic(auto)]
