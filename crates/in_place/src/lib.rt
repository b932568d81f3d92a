// The thin outer layer: a search and a forest are lent by `&mut`, and each call changes what was lent, by one turn, one cut or one call of
// the forest. Each function here takes the value out, has a function by value do the work, and puts the new value back.
#![tactic(auto)]

pub mod by_value;
pub mod calls;
pub mod solve_state;
