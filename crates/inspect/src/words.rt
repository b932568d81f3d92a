// What a paper says: its book in words (book_lines.rt), or the refusal. Behind a book that the desk turns down, since a goal has the same
// clause twice, stand its number and the clause's place:
//
//     desk refused 36
//     goal 1, clause 2: the same as clause 0
//
// Behind a refusal by 6 stand the book all the same and the literals that name no goal of it (missing.rt).
ghost use Rattle.std.specs.Prelude.{◌≡◌};
ghost use Rattle.pen.specs.Pen.{put_all, content};
ghost use Rattle.book.specs.Repeats.{repeat_seen};
ghost use Rattle.book.specs.Refusals.{number};
ghost use Rattle.inspect.specs.Words.{refusal_words, desk_words};
ghost use Rattle.inspect.specs.Missing.{paper_words};

use crate::book_lines::goals;
use crate::missing::behind;
use book::desk::look;
use book::{Refusal, Repeat};
use pen::Pen;

#[tactic(auto, using(pen::proofs::Putting::put_all_append), unfolding(crate::specs::Words::refusal_words))]
fn refusal(pen: &mut Pen, e: Refusal)
    ensures { content pen.new ≡ put_all (refusal_words (number e)) (content pen.old) }
{
    pen.refusal(u8::from(e));
    pen.text(b"neither entry takes it\n");
}

// Where a clause stands for the second time, so that the desk turns the book down.
#[tactic(auto, using(pen::proofs::Putting::put_all_append), unfolding(pen::specs::Pen::put_all, crate::specs::Words::desk_words))]
fn at_desk(pen: &mut Pen, repeat: Option<Repeat>)
    ensures { content pen.new ≡ put_all (desk_words (repeat_seen repeat)) (content pen.old) }
{
    if let Some(r) = repeat {
        pen.counted(b"desk refused 36\ngoal ", r.goal as u64);
        pen.counted(b", clause ", r.clause as u64);
        pen.counted(b": the same as clause ", r.earlier as u64);
        pen.text(b"\n");
    }
}

// What a byte string says as a book, in words, and what the desk says to it. Of one that is refused with 6 the book stands behind the
// refusal, as it is read without that test, and behind it the literals that name no goal.
pub(crate) fn say(pen: &mut Pen, bytes: &[u8])
    ensures { content pen.new ≡ put_all (paper_words bytes.now) (content pen.old) }
{
    match look(bytes) {
        Ok(looked) => {
            goals(pen, &looked.book);
            at_desk(pen, looked.repeat);
        }
        Err(e) => {
            refusal(pen, e);
            behind(pen, e, bytes);
        }
    }
}
