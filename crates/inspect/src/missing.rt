// A paper that is refused with 6, since a literal names a goal that is not there: the book as it is read without that test, and a line for
// each such literal, with its place and the goal that it names. Clauses are told by their number in their goal, as `mend` tells them:
//
//     goal 0, clause 2, literal 1: no goal 7
ghost use Rattle.std.specs.Prelude.{◌≡◌, ◌<◌, ltb};
ghost use Rattle.definitions.specs.Mend.{read_loosely};
ghost use Rattle.pen.specs.Pen.{put_all, content};
ghost use Rattle.book.specs.Refusals.{number};
ghost use Rattle.book.specs.View.{Formed, clause_viewed, goal_viewed, view};
ghost use Rattle.inspect.specs.Missing.{missing_by, missing_clause, missing_goal, missing_from};
ghost use Rattle.inspect.specs.Missing.{loose_words, behind_by};

use crate::book_lines::goals;
use book::{Book, Refusal, read_loosely};
use pen::Pen;
use sizes::{MOST_LITERALS, wide, wide16};

// A literal's line, if it names no goal of so many.
#[tactic(auto, using(pen::proofs::Putting::put_all_append), unfolding(pen::specs::Pen::put_all, crate::specs::Missing::missing_by))]
fn literal(pen: &mut Pen, goals: usize, g: usize, k: usize, j: usize, named: u16)
    ensures { content pen.new ≡ put_all (missing_by (ltb named goals) g k j named) (content pen.old) }
{
    if wide16(named) < goals {
        return;
    }
    pen.counted(b"goal ", g as u64);
    pen.counted(b", clause ", k as u64);
    pen.counted(b", literal ", j as u64);
    pen.counted(b": no goal ", named as u64);
    pen.text(b"\n");
}

// The literals of clause c, which is clause k of goal g.
fn literals(pen: &mut Pen, book: &Book, g: usize, k: usize, c: usize)
    requires formed { Formed book.now }
    requires c_bound { c < 256 }
    ensures { content pen.new ≡ put_all (missing_clause book.now.goals g k (clause_viewed book.now c)) (content pen.old) }
{
    let count = wide(book.clause_len[c]);
    for j in 0..count {
        let i = MOST_LITERALS * c + j;
        literal(pen, book.goals, g, k, j, book.literal_goal[i]);
    }
}

// The clauses of goal g.
fn clauses(pen: &mut Pen, book: &Book, g: usize)
    requires formed { Formed book.now }
    requires g_lt_goals { g < book.now.goals }
    ensures { content pen.new ≡ put_all (missing_goal book.now.goals g (goal_viewed book.now g)) (content pen.old) }
{
    let first = wide16(book.goal_first[g]);
    let count = wide16(book.goal_len[g]);
    for k in 0..count {
        literals(pen, book, g, k, first + k);
    }
}

fn missing(pen: &mut Pen, book: &Book)
    requires { Formed book.now }
    ensures { content pen.new ≡ put_all (missing_from book.now.goals (view book.now)) (content pen.old) }
{
    for g in 0..book.goals {
        clauses(pen, book, g);
    }
}

fn loosely(pen: &mut Pen, bytes: &[u8])
    ensures { content pen.new ≡ put_all (loose_words (read_loosely bytes.now)) (content pen.old) }
{
    if let Ok(book) = read_loosely(bytes) {
        goals(pen, &book);
        missing(pen, &book);
    }
}

// What stands behind a refusal.
pub(crate) fn behind(pen: &mut Pen, e: Refusal, bytes: &[u8])
    ensures { content pen.new ≡ put_all (behind_by (number e) (read_loosely bytes.now)) (content pen.old) }
{
    if let Refusal::NoSuchGoal = e {
        loosely(pen, bytes);
    }
}
