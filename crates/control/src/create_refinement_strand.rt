// What a turn leaves at the strand's place (logic.rs `create_refinement_strand`, where the root has its answer).
ghost use Rattle.std.specs.Prelude.{◌≡◌};
ghost use Rattle.control.specs.CreateRefinementStrand.{answer_left, gives_answer, strand_left};

use crate::decision::Deed;
use strands::making::create_refinement_strand;
use strands::{Answer, Strand};

// What stands at the strand's place from now on, and when that was last pursued; whether it is a refinement strand.
#[derive(Clone, Copy)]
pub struct Left {
    pub strand: Strand,
    pub time: u64,
    pub refines: bool,
}

// A strand that has given its answer: at the root the answer's refinement strand takes its place, if it has one, which nobody has pursued.
fn answer_left(x: Answer, s: Strand, depth: usize, at: u64) -> Left
    ensures { result ≡ answer_left depth x s at }
{
    if depth >= 2 {
        return Left {
            strand: s,
            time: at,
            refines: false,
        };
    }
    match create_refinement_strand(x) {
        Some(f) => Left {
            strand: f,
            time: 0,
            refines: true,
        },
        None => Left {
            strand: s,
            time: at,
            refines: false,
        },
    }
}

fn gives_answer(deed: Deed) -> bool
    ensures { result ≡ gives_answer deed }
{
    matches!(deed, Deed::Answers(_))
}

pub fn strand_left(deed: Deed, x: Answer, s: Strand, depth: usize, at: u64) -> Left
    ensures { result ≡ strand_left deed depth x s at }
{
    if gives_answer(deed) {
        return answer_left(x, s, depth, at);
    }
    Left {
        strand: s,
        time: at,
        refines: false,
    }
}
