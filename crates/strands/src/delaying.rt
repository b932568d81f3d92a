// slg/resolvent.rs and logic.rs: delayed goals. A coinductive cycle delays its goal, and an answer hands on the goals that it has delayed.
ghost use Rattle.std.specs.Prelude.{◌≡◌, [], ◌∷◌};
ghost use Rattle.strands.specs.View.{answer};
ghost use Rattle.strands.specs.Delaying.{delay_goals};

use crate::{Answer, Strand, within};
use sizes::MOST_LITERALS;

// The strand with a goal delayed. None where it would be the ninth, which is stopped by 24: the caller's strand is as it was.
pub fn delay_goal(s: Strand, goal: u8) -> Option<Strand>
    ensures { result ≡ delay_goals (goal ∷ []) s }
{
    let n = within(s.delayed_count);
    if n == MOST_LITERALS {
        return None;
    }
    let mut t = s;
    t.delayed[n] = goal;
    t.delayed_count = (n + 1) as u8;
    Some(t)
}

// The strand with the delayed goals of an answer that it takes; None past eight, as above.
pub fn delay_answer(s: Strand, a: Answer) -> Option<Strand>
    ensures { result ≡ delay_goals (answer a).delayed_subgoals s }
{
    let n = within(s.delayed_count);
    let m = within(a.delayed_count);
    if n + m > MOST_LITERALS {
        return None;
    }
    let mut t = s;
    t.delayed[n..n + m].copy_from_slice(&a.delayed[..m]);
    t.delayed_count = (n + m) as u8;
    Some(t)
}
