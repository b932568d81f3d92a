// This crate holds laws on options, tests and lists, in proofs/; there is no code.
#![tactic(auto)]
