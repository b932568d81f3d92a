// logic.rs `on_subgoal_selected`, `merge_answer_into_strand` and `on_coinductive_subgoal`, by value: what a strand that has selected its
// last literal is decided to do, by what the selected table holds for it.
ghost use Rattle.std.specs.Prelude.{◌≡◌};
ghost use Rattle.control.specs.OnSubgoalSelected.{merge_not, merge_into, merge_positive, merge_literal, merge_answer};
ghost use Rattle.control.specs.OnSubgoalSelected.{coinductive, push_table, selected_deed};

use crate::decision::{Decision, Deed, decide_on, unwanted};
use crate::select_subgoal::last_literal;
use book::Literal;
use book::fitting::{answer_fits, is_trivial};
use strands::delaying::delay_goal;
use strands::fields::{deselected, made_ambiguous, next_answer_strand};
use strands::floundering::flounder_subgoal;
use strands::literals::{goal_of, is_negative, without_last};
use strands::merging::take_answer;
use strands::{Answer, Strand};

// What the selected table holds for the strand: the answer that it wants, by its place; a cycle of coinductive tables alone; the table is
// on the stack at this height; or none of these, and it is pushed.
#[derive(Clone, Copy)]
pub enum Look {
    Answer(u8),
    Coinductive,
    Cycle(u8),
    Push(u8),
}

// An answer for a "not": it fails, unless the answer is ambiguous.
fn merge_not(s: Strand, a: Answer) -> Decision
    ensures { result ≡ merge_not s a }
{
    if a.delayed_count != 0 {
        return decide_on(Deed::Stop(27), s, a);
    }
    if a.ambiguous {
        let rest = without_last(deselected(s));
        let t = made_ambiguous(rest);
        return decide_on(Deed::GoesOn, t, a);
    }
    decide_on(Deed::GivesUp, s, a)
}

// An answer for a positive literal, once its copy is made: where it fits, the strand takes it.
fn merge_into(s: Strand, a: Answer, l: Literal, copies: bool, copy: Strand) -> Decision
    ensures { result ≡ merge_into s a l copies copy }
{
    if answer_fits(l, a.variant) {
        return match take_answer(deselected(s), a) {
            None => decide_on(Deed::Stop(24), s, a),
            Some(t) => Decision {
                deed: Deed::GoesOn,
                copies,
                strand: t,
                copy,
                answer: a,
            },
        };
    }
    Decision {
        deed: Deed::GivesUp,
        copies,
        strand: s,
        copy,
        answer: a,
    }
}

// The copy for the next answer is the strand as it came; no other answer is worth having after a trivial one.
fn merge_positive(s: Strand, a: Answer, l: Literal, live: u16) -> Decision
    ensures { result ≡ merge_positive s a l live }
{
    if is_trivial(a.variant) {
        return merge_into(s, a, l, false, s);
    }
    if live >= 256 {
        return decide_on(Deed::Stop(22), s, a);
    }
    let copy = next_answer_strand(s);
    merge_into(s, a, l, true, copy)
}

fn merge_literal(s: Strand, a: Answer, live: u16) -> Decision
    ensures { result ≡ merge_literal s a live }
{
    let l = last_literal(s);
    if is_negative(l) {
        return merge_not(s, a);
    }
    merge_positive(s, a, l, live)
}

// A table that wants complete answers sets the literal of an ambiguous one aside.
pub fn merge_answer_into_strand(s: Strand, a: Answer, complete: bool, live: u16) -> Decision
    ensures { result ≡ merge_answer s a complete live }
{
    if unwanted(complete, a.ambiguous) {
        let t = flounder_subgoal(deselected(s));
        return decide_on(Deed::GoesOn, t, a);
    }
    merge_literal(s, a, live)
}

// The goal of a positive literal is delayed. A "not" in a coinductive cycle has no meaning.
pub fn on_coinductive_subgoal(s: Strand, a: Answer) -> Decision
    ensures { result ≡ coinductive s a }
{
    let l = last_literal(s);
    if is_negative(l) {
        return decide_on(Deed::Stop(28), s, a);
    }
    let goal = goal_of(l);
    let rest = without_last(deselected(s));
    match delay_goal(rest, goal) {
        None => decide_on(Deed::Stop(24), s, a),
        Some(t) => decide_on(Deed::GoesOn, t, a),
    }
}

// A push takes the next time of the clock.
fn push_table(table: u8, s: Strand, a: Answer, late: bool) -> Decision
    ensures { result ≡ push_table late table s a }
{
    if late {
        return decide_on(Deed::Stop(21), s, a);
    }
    decide_on(Deed::Pushes(table), s, a)
}

// `late` says that the clock is at its limit. The answer is the one that the look names, and is carried where it names none.
pub fn on_subgoal_selected(
    look: Look,
    s: Strand,
    a: Answer,
    complete: bool,
    live: u16,
    late: bool,
) -> Decision
    ensures { result ≡ selected_deed look s a complete live late }
{
    match look {
        Look::Answer(_) => merge_answer_into_strand(s, a, complete, live),
        Look::Coinductive => on_coinductive_subgoal(s, a),
        Look::Cycle(height) => decide_on(Deed::Cycles(height), s, a),
        Look::Push(table) => push_table(table, s, a, late),
    }
}
