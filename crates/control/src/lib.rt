// logic.rs over the stores: a turn is decided, reading only, and then done, writing only (crate `small_steps`). Files are named after the
// functions of logic.rs.
#![tactic(auto)]

pub mod decision; // decision.rt: what a turn with a strand is decided to do
pub mod ensure_root_answer; // ensure_root_answer.rt: the top of the stack and the strand that it goes on with
pub mod select_subgoal; // select_subgoal.rt: which literal the strand goes on with
pub mod on_subgoal_selected; // on_subgoal_selected.rt: a strand that has selected a literal, by what that literal's table holds for it
pub mod on_no_remaining_subgoals; // on_no_remaining_subgoals.rt: a strand with no literal left gives its answer
pub mod choose; // choose.rt: a turn with a strand: what it sees, and what it is decided to do
pub mod on_no_strands_left; // on_no_strands_left.rt: what is done where the top has no strand to go on with
pub mod clear_strands_after_cycle; // clear_strands_after_cycle.rt: the queues of a cycle, taken
pub mod unwind_stack; // unwind_stack.rt: active strands go back to their tables
pub mod on_positive_cycle; // on_positive_cycle.rt: what a cycle means to the entry on top
pub mod make_tables; // make_tables.rt: the goals noted get their tables
pub mod create_refinement_strand; // create_refinement_strand.rt: what stands at the strand's place after a turn
pub mod performed; // performed.rt: what a turn leaves
pub mod perform_deed; // perform_deed.rt: what is done about the strand in hand
pub mod perform_strand; // perform_strand.rt: a turn with a strand, done
pub mod perform_idle; // perform_idle.rt: what is done where the top has no strand to go on with
pub mod perform; // perform.rt: a turn done
