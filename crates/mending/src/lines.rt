// A line for each clause that goes: goal, clause among the goal's in the old paper, and reason.
ghost use Rattle.std.specs.Prelude.{◌≡◌, ◌+◌, ◌≤◌};
ghost use Rattle.laws.specs.Spans.{span};
ghost use Rattle.papers.specs.Mend.{reason_line, clause_lines, goal_lines};
ghost use Rattle.book.specs.View.{view, Formed};
ghost use Rattle.pen.specs.Pen.{put_all, content, lender};
ghost use Rattle.mending.specs.Reasons.{reason_seen, reason_at, Reasoned};

use crate::reasons::Reason;
use book::Book;
use pen::Pen;
use sizes::MOST_CLAUSES;

// A clause that stays has none.
#[tactic(auto, using(pen::proofs::Putting::put_all_append), unfolding(pen::specs::Pen::put_all))]
fn reason_line(pen: &mut Pen, goal: usize, clause: usize, reason: Option<Reason>)
    ensures puts { content pen.new ≡ put_all (reason_line goal clause (reason_seen reason)) (content pen.old) }
    ensures same_buffer { lender pen.new ≡ lender pen.old }
{
    if let Some(r) = reason {
        pen.number(goal as u64);
        pen.counted(b" ", clause as u64);
        pen.counted(b" ", u8::from(r) as u64);
        pen.text(b"\n");
    }
}

// The lines of a goal's clauses, so many from `first` on. Their numbers are those of the old paper: whoever goes is counted too.
fn clause_lines(
    pen: &mut Pen,
    reasons: &[Option<Reason>; MOST_CLAUSES],
    goal: usize,
    first: usize,
    count: usize,
)
    requires { first + count ≤ 256 }
    ensures puts { content pen.new ≡ put_all (clause_lines goal 0 (span (reason_at reasons.now) first count)) (content pen.old) }
    ensures same_buffer { lender pen.new ≡ lender pen.old }
{
    for number in 0..count {
        reason_line(pen, goal, number, reasons[first + number]);
    }
}

// The lines of a book.
pub(crate) fn lines(pen: &mut Pen, reasons: &[Option<Reason>; MOST_CLAUSES], b: &Book)
    requires formed { Formed b.now }
    requires reasoned { Reasoned b.now reasons.now }
    ensures puts { content pen.new ≡ put_all (goal_lines b.now.goals 0 (view b.now)) (content pen.old) }
    ensures same_buffer { lender pen.new ≡ lender pen.old }
{
    for g in 0..b.goals {
        clause_lines(pen, reasons, g, b.first_clause(g), b.clause_count(g));
    }
}
