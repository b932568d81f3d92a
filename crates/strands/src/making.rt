// Strands made anew: a blank one, which fills the store; one for a clause of the book; and one that refines a root answer.
ghost use Rattle.std.specs.Prelude.{◌≡◌, ◌≤◌, take};
ghost use Rattle.strands.specs.Making.{new_strand, blank_strand, strand_of, positives, refine};

use crate::literals::NO_LITERAL;
use crate::{Answer, Selected, Strand, within};
use book::Literal;
use sizes::MOST_LITERALS;

// A strand that nobody has pursued: nothing is floundered, delayed or selected.
fn new_strand(
    variant: u16,
    outsized: bool,
    ambiguous: bool,
    literals: [Literal; MOST_LITERALS],
    count: u8,
) -> Strand
    ensures { result ≡ new_strand variant outsized ambiguous literals count }
{
    Strand {
        variant,
        outsized,
        ambiguous,
        answer_time: 0,
        literal_count: count,
        floundered_count: 0,
        delayed_count: 0,
        literals,
        floundered: [NO_LITERAL; MOST_LITERALS],
        floundered_time: [0; MOST_LITERALS],
        delayed: [0; MOST_LITERALS],
        selected: Selected::Nothing,
    }
}

// All zero.
pub fn blank() -> Strand
    ensures { result ≡ blank_strand }
{
    new_strand(0, false, false, [NO_LITERAL; MOST_LITERALS], 0)
}

// A clause's strand: its variant, its flags (bit 0 "cannot prove", bit 1 outsized) and its literals.
pub fn initial_strand(
    variant: u16,
    flags: u8,
    literals: [Literal; MOST_LITERALS],
    count: u8,
) -> Strand
    ensures { result ≡ strand_of variant flags literals count }
{
    let n = within(count);
    let ambiguous = flags % 2 == 1;
    let outsized = flags / 2 % 2 == 1;
    new_strand(variant, outsized, ambiguous, literals, n as u8)
}

// The first n goals as positive literals that want any variant.
fn positives(goals: [u8; MOST_LITERALS], n: usize) -> [Literal; MOST_LITERALS]
    requires { n ≤ 8 }
    ensures { result ≡ positives (take n goals) }
{
    let mut made = [NO_LITERAL; MOST_LITERALS];
    for i in 0..n {
        made[i] = Literal {
            goal: goals[i],
            ..NO_LITERAL
        };
    }
    made
}

// `create_refinement_strand`: the answer's delayed goals are the literals. An answer without any has none.
pub fn create_refinement_strand(a: Answer) -> Option<Strand>
    ensures { result ≡ refine a }
{
    if a.delayed_count == 0 {
        return None;
    }
    let n = within(a.delayed_count);
    let goals = a.delayed;
    let ls = positives(goals, n);
    let t = new_strand(a.variant, false, a.ambiguous, ls, n as u8);
    Some(t)
}
