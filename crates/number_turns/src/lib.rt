// Turns of logic.rs that touch no strand, done by the numbers beside the strands alone.
#![tactic(auto)]

pub mod number_turn;
