// slg/resolvent.rs `apply_answer_subst` and the end of logic.rs `merge_answer_into_strand`: an answer that fits the last literal is
// taken into the strand.
ghost use Rattle.std.specs.Prelude.{◌≡◌};
ghost use Rattle.strands.specs.Merging.{ambiguous_too, take_answer};

use crate::delaying::delay_answer;
use crate::fields::made_ambiguous;
use crate::literals::answered;
use crate::{Answer, Strand};

// An ambiguous answer makes the strand that takes it ambiguous.
fn ambiguous_too(s: Strand, ambiguous: bool) -> Strand
    ensures { result ≡ ambiguous_too ambiguous s }
{
    if ambiguous { made_ambiguous(s) } else { s }
}

// The last literal is removed and answer time rises; the answer's delayed goals are the strand's, and its ambiguity too. With no literal
// to take it for, the strand is as it was. None past eight delayed goals, which is stopped by 24: the caller's strand is as it was.
pub fn take_answer(s: Strand, a: Answer) -> Option<Strand>
    ensures { result ≡ take_answer a s }
{
    if s.literal_count == 0 {
        return Some(s);
    }
    let t = delay_answer(answered(s), a)?;
    Some(ambiguous_too(t, a.ambiguous))
}
