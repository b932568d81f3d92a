// Out to a Prolog with tabling (change request 13): a plain book as XSB text.
#![tactic(auto)]

pub mod export;
mod rules;
