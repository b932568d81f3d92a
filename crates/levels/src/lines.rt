// What the check of a paper says. One that is accepted is within demand 3, and has a line for each goal, with its least level:
//
//     within demand 3
//     0 1
//     1 0
//
// One that is refused has its number and the number's sentence. One that is not plain, or not levelled, is outside demand 3, and has also
// where to look:
//
//     outside demand 3
//     refused 37
//     not plain: a variant, a want or a flag that is not 0, or a range
//     goal 3, clause 0, literal 1: a want
//
//     outside demand 3
//     refused 38
//     not levelled: no numbers can be given to the goals so that each "not" leads lower and no other literal higher
//     goals on a cycle through "not": 0 1 5
ghost use Rattle.std.specs.Prelude.{◌≡◌};
ghost use Rattle.papers.specs.NotPlain.{not_plain_place};
ghost use Rattle.pen.specs.Pen.{put_all, content};
ghost use Rattle.pen.specs.Goals.{words_from};
ghost use Rattle.pen.specs.Refusals.{refusal_lines};
ghost use Rattle.book.specs.Refusals.{number};
ghost use Rattle.places.specs.Words.{place_line};
ghost use Rattle.levels.specs.Words.{level_line as levelLine, level_lines as levelLines, marked_words};
ghost use Rattle.levels.specs.Words.{cycle_words, outside_words, Tells};

use book::Refusal;
use paper_checks::place::not_plain;
use paper_checks::{Unlevelled, levels};
use pen::Pen;
use places::place;

#[tactic(auto, using(pen::proofs::Putting::put_all_append), unfolding(pen::specs::Pen::put_all, crate::specs::Words::level_line))]
fn level_line(pen: &mut Pen, goal: usize, level: u8)
    ensures { content pen.new ≡ put_all (levelLine goal level) (content pen.old) }
{
    pen.number(goal as u64);
    pen.counted(b" ", level as u64);
    pen.text(b"\n");
}

#[tactic(auto, using(pen::proofs::Goals::words_start, pen::proofs::Goals::words_next))]
fn level_lines(pen: &mut Pen, levels: &[u8])
    ensures { content pen.new ≡ put_all (levelLines 0 levels.now) (content pen.old) }
{
    for (goal, level) in levels.iter().enumerate() {
        level_line(pen, goal, *level);
    }
}

// The goal with a space before it, if it is marked.
#[tactic(auto, unfolding(pen::specs::Pen::put_all, crate::specs::Words::marked_words))]
fn marked(pen: &mut Pen, goal: usize, mark: bool)
    ensures { content pen.new ≡ put_all (marked_words goal mark) (content pen.old) }
{
    if mark {
        pen.counted(b" ", goal as u64);
    }
}

#[tactic(auto, using(pen::proofs::Goals::words_start, pen::proofs::Goals::words_next))]
fn marked_goals(pen: &mut Pen, marks: &[bool])
    ensures { content pen.new ≡ put_all (words_from marked_words 0 marks.now) (content pen.old) }
{
    for (goal, mark) in marks.iter().enumerate() {
        marked(pen, goal, *mark);
    }
}

#[tactic(auto, using(pen::proofs::Putting::put_all_append), unfolding(pen::specs::Pen::put_all, crate::specs::Words::cycle_words))]
fn cycle_line(pen: &mut Pen, marks: &[bool])
    ensures { content pen.new ≡ put_all (cycle_words marks.now) (content pen.old) }
{
    pen.text(b"goals on a cycle through \"not\":");
    marked_goals(pen, marks);
    pen.text(b"\n");
}

// The first place that is not plain; nothing where there is none.
fn first_place(pen: &mut Pen, bytes: &[u8])
    ensures { content pen.new ≡ put_all (place_line (not_plain_place bytes.now)) (content pen.old) }
{
    place(pen, not_plain(bytes));
}

// The first line of a refusal by 37 or 38.
#[tactic(auto, using(pen::proofs::Putting::put_nothing), unfolding(crate::specs::Words::outside_words))]
fn outside(pen: &mut Pen, refusal: Refusal)
    ensures { content pen.new ≡ put_all (outside_words (number refusal)) (content pen.old) }
{
    match refusal {
        Refusal::NotPlain => pen.text(b"outside demand 3\n"),
        Refusal::NotLevelled => pen.text(b"outside demand 3\n"),
        _ => {}
    }
}

// A refusal of a paper, and where it is not plain first.
fn refused(pen: &mut Pen, refusal: Refusal, bytes: &[u8])
    ensures { content pen.new ≡ put_all (place_line (not_plain_place bytes.now))
        (put_all (refusal_lines (number refusal)) (put_all (outside_words (number refusal)) (content pen.old))) }
{
    outside(pen, refusal);
    pen.refusal(u8::from(refusal));
    first_place(pen, bytes);
}

// What the check of a byte string says.
pub(crate) fn say(pen: &mut Pen, bytes: &[u8])
    ensures { Tells bytes.now (content pen.old) (content pen.new) }
{
    match levels::levels(bytes) {
        Ok(l) => {
            pen.text(b"within demand 3\n");
            level_lines(pen, &l.levels[..l.goals]);
        }
        Err(Unlevelled::Refused(refusal)) => refused(pen, refusal, bytes),
        Err(Unlevelled::OnCycles(marks)) => {
            refused(pen, Refusal::NotLevelled, bytes);
            cycle_line(pen, &marks);
        }
    }
}
