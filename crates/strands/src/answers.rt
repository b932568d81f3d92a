// Answers by value: a blank one, the answer that a strand without literals gives, and when two answers are the same.
ghost use Rattle.std.specs.Prelude.{◌≡◌};
ghost use Rattle.strands.specs.Answers.{blank_answer, answer_of, same_answer};

use crate::{Answer, Strand, within};
use sizes::MOST_LITERALS;

pub fn blank_answer() -> Answer
    ensures { result ≡ blank_answer }
{
    Answer {
        variant: 0,
        ambiguous: false,
        delayed_count: 0,
        delayed: [0; MOST_LITERALS],
    }
}

// The answer that `pursue_answer` makes of a strand, for the table of this goal. A delayed goal equal to the table's own is dropped.
pub fn answer_of(s: Strand, goal: u8) -> Answer
    ensures { result ≡ answer_of s goal }
{
    let mut kept = [0; MOST_LITERALS];
    let mut count: u8 = 0;
    for i in 0..within(s.delayed_count) {
        if s.delayed[i] != goal {
            kept[count as usize] = s.delayed[i];
            count += 1;
        }
    }
    Answer {
        variant: s.variant,
        ambiguous: s.ambiguous,
        delayed_count: count,
        delayed: kept,
    }
}

// The stored answer b has the variant and the delayed goals of a; the ambiguous flag doesn't count.
pub fn same_answer(a: Answer, b: Answer) -> bool
    ensures { result ≡ same_answer a b }
{
    let mine = &a.delayed[..within(a.delayed_count)];
    let stored = &b.delayed[..within(b.delayed_count)];
    b.variant == a.variant && stored == mine
}
