// This crate holds a theorem about the public functions, in proofs/, and its statement, in specs/; there is no code.
#![tactic(auto)]
