// A search: the loop that is lent the stores and the stack, and all that is done before its first turn and after its last.
#![tactic(auto)]

pub mod course;
pub mod ensure_root_answer;
pub mod root_answer;
pub mod settle;
pub mod solve_state;
