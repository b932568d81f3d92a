// logic.rs `on_no_remaining_subgoals` and `pursue_answer`, by value: what a strand with no literal left is decided to do. x is the answer
// that it gives; `was` is the stored one that is the same, and is carried where x is new.
ghost use Rattle.std.specs.Prelude.{◌≡◌};
ghost use Rattle.control.specs.OnNoRemainingSubgoals.{outsized, empties, answer_again, answer_anew, pursue_answer, no_remaining};

use crate::decision::{Decision, Deed, decide_on, unwanted};
use book::Subst;
use book::fitting::{is_outsized, is_trivial};
use strands::literals::no_subgoals;
use strands::{Answer, Strand};

// Is the strand's answer too large to keep?
fn needs_truncation(s: Strand) -> bool
    ensures { result ≡ outsized s }
{
    let subst = Subst {
        variant: s.variant,
        outsized: s.outsized,
    };
    is_outsized(subst)
}

// No other strand of the table is worth pursuing once it has an answer that is trivial and not ambiguous.
fn empties_queue(s: Strand) -> bool
    ensures { result ≡ empties s }
{
    if s.ambiguous {
        return false;
    }
    is_trivial(s.variant)
}

// A repeated answer is given up. That the stored one is ambiguous and this one isn't has no meaning in the Rust.
fn answer_again(s: Strand, was: Answer) -> Decision
    ensures { result ≡ answer_again s was }
{
    if s.ambiguous {
        return decide_on(Deed::GivesUp, s, was);
    }
    if was.ambiguous {
        return decide_on(Deed::Stop(26), s, was);
    }
    decide_on(Deed::GivesUp, s, was)
}

fn answer_anew(s: Strand, was: Answer, x: Answer, held: u16) -> Decision
    ensures { result ≡ answer_anew s was x held }
{
    if held >= 256 {
        return decide_on(Deed::Stop(23), s, was);
    }
    let empties = empties_queue(s);
    decide_on(Deed::Answers(empties), s, x)
}

pub fn pursue_answer(s: Strand, was: Answer, x: Answer, is_new: bool, held: u16) -> Decision
    ensures { result ≡ pursue_answer s was x is_new held }
{
    if no_subgoals(s) {
        if needs_truncation(s) {
            return decide_on(Deed::Flounders, s, was);
        }
        if is_new {
            return answer_anew(s, was, x, held);
        }
        return answer_again(s, was);
    }
    decide_on(Deed::Stop(25), s, was)
}

// A table that wants complete answers puts an ambiguous strand off until it wants others too.
pub fn on_no_remaining_subgoals(
    s: Strand,
    was: Answer,
    x: Answer,
    is_new: bool,
    complete: bool,
    held: u16,
) -> Decision
    ensures { result ≡ no_remaining s was x is_new complete held }
{
    if unwanted(complete, s.ambiguous) {
        return decide_on(Deed::Requeues, s, was);
    }
    pursue_answer(s, was, x, is_new, held)
}
