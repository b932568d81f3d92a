// Where a paper is not plain, in words: `goal 3, clause 0, literal 1: a want`.
#![tactic(auto)]

ghost use Rattle.std.specs.Prelude.{◌≡◌};
ghost use Rattle.std.proofs.Math.Option.{some};
ghost use Rattle.paper_checks.specs.Places.{fault_seen, seen_place, place_seen};
ghost use Rattle.pen.specs.Pen.{put_all, content, lender};
ghost use Rattle.places.specs.Words.{fault_words, place_line};

use paper_checks::{Fault, NotPlain};
use pen::Pen;

fn fault(pen: &mut Pen, fault: Fault)
    ensures puts { content pen.new ≡ put_all (fault_words (some (fault_seen fault))) (content pen.old) }
    ensures same_buffer { lender pen.new ≡ lender pen.old }
{
    match fault {
        Fault::Flag => pen.text(b": a flag\n"),
        Fault::Variant => pen.text(b": a variant\n"),
        Fault::Want => pen.text(b": a want\n"),
        Fault::Range => pen.text(b": a range\n"),
    }
}

fn line(pen: &mut Pen, p: NotPlain)
    ensures puts { content pen.new ≡ put_all (place_line (some (seen_place p))) (content pen.old) }
    ensures same_buffer { lender pen.new ≡ lender pen.old }
{
    match p {
        NotPlain::Goal { goal, fault: f } => {
            pen.counted(b"goal ", goal as u64);
            fault(pen, f);
        }
        NotPlain::Clause {
            goal,
            clause,
            fault: f,
        } => {
            pen.counted(b"goal ", goal as u64);
            pen.counted(b", clause ", clause as u64);
            fault(pen, f);
        }
        NotPlain::Literal {
            goal,
            clause,
            literal,
            fault: f,
        } => {
            pen.counted(b"goal ", goal as u64);
            pen.counted(b", clause ", clause as u64);
            pen.counted(b", literal ", literal as u64);
            fault(pen, f);
        }
    }
}

// Of no place nothing is said.
#[tactic(auto, using(pen::proofs::Putting::put_nothing))]
pub fn place(pen: &mut Pen, p: Option<NotPlain>)
    ensures puts { content pen.new ≡ put_all (place_line (place_seen p)) (content pen.old) }
    ensures same_buffer { lender pen.new ≡ lender pen.old }
{
    match p {
        Some(p) => line(pen, p),
        None => {}
    }
}
