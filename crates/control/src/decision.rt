// What a turn with a strand in hand is decided to do, by value. Every stop of such a turn is found before anything is written.
ghost use Rattle.std.specs.Prelude.{◌≡◌, false, ◌&&◌};
ghost use Rattle.control.specs.Decision.{decided};

use strands::{Answer, Strand};

// The acts of logic.rs with a strand (crate `small_steps`, `Deed`). A cycle names the entry's height, a push its table; an answer says
// whether it empties the queue.
#[derive(Clone, Copy)]
pub enum Deed {
    Stop(u8),
    GoesOn,
    GivesUp,
    Cycles(u8),
    Pushes(u8),
    Requeues,
    Flounders,
    Answers(bool),
}

// The strand as it then is; the copy for the next answer, where there is one; and the answer that is stored.
#[derive(Clone, Copy)]
pub struct Decision {
    pub deed: Deed,
    pub copies: bool,
    pub strand: Strand,
    pub copy: Strand,
    pub answer: Answer,
}

// A deed with no copy.
pub fn decide_on(deed: Deed, s: Strand, a: Answer) -> Decision
    ensures { result ≡ decided deed false s s a }
{
    Decision {
        deed,
        copies: false,
        strand: s,
        copy: s,
        answer: a,
    }
}

// A table that wants complete answers has no use for an ambiguous answer or strand yet.
pub fn unwanted(complete: bool, ambiguous: bool) -> bool
    ensures { result ≡ complete && ambiguous }
{
    if complete { ambiguous } else { false }
}
