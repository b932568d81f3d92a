// The clauses of a book as lines of XSB text: `g0 :- g1, tnot(g2).`, or `g1.` for a clause that has no literal.
ghost use Rattle.std.specs.Prelude.{◌≡◌, ◌+◌, ◌-◌, ◌≤◌};
ghost use Rattle.laws.specs.Spans.{span};
ghost use Rattle.papers.specs.Xsb.{literal_text, more_text, body_text, rule_line as ruleLine, rule_lines as ruleLines};
ghost use Rattle.pen.specs.Pen.{put_all, content, lender};
ghost use Rattle.book.specs.View.{meant};
ghost use Rattle.book.specs.Repeats.{lent_by, clause_read};
ghost use Rattle.xsb_export.specs.Exporting.{literal_said, rule_read};

use book::access::is_negative;
use book::{Book, Literal};
use pen::Pen;

fn literal(pen: &mut Pen, l: Literal)
    ensures puts { content pen.new ≡ put_all (literal_text (meant l)) (content pen.old) }
    ensures same_buffer { lender pen.new ≡ lender pen.old }
{
    if is_negative(l) {
        pen.counted(b"tnot(g", l.goal as u64);
        pen.text(b")");
        return;
    }
    pen.counted(b"g", l.goal as u64);
}

// The literals of clause c behind its first, of so many in all.
fn more(pen: &mut Pen, b: &Book, c: usize, count: usize)
    ensures puts { content pen.new ≡ put_all (more_text (span (literal_said b.now c) 1 (count - 1))) (content pen.old) }
    ensures same_buffer { lender pen.new ≡ lender pen.old }
{
    for j in 1..count {
        pen.text(b", ");
        literal(pen, b.literal(c, j));
    }
}

fn body(pen: &mut Pen, b: &Book, c: usize)
    ensures puts { content pen.new ≡ put_all (body_text (clause_read (lent_by b.now) c).literals) (content pen.old) }
    ensures same_buffer { lender pen.new ≡ lender pen.old }
{
    let count = b.literal_count(c);
    if count == 0 {
        return;
    }
    pen.text(b" :- ");
    literal(pen, b.literal(c, 0));
    more(pen, b, c, count);
}

// The line of clause c, of the goal that is given.
fn rule_line(pen: &mut Pen, b: &Book, head: usize, c: usize)
    ensures puts { content pen.new ≡ put_all (ruleLine (rule_read b.now head c)) (content pen.old) }
    ensures same_buffer { lender pen.new ≡ lender pen.old }
{
    pen.counted(b"g", head as u64);
    body(pen, b, c);
    pen.text(b".\n");
}

// The lines of so many clauses from `first` on, of the goal that is given.
pub(crate) fn rule_lines(pen: &mut Pen, b: &Book, head: usize, first: usize, count: usize)
    requires { first + count ≤ 256 }
    ensures puts { content pen.new ≡ put_all (ruleLines (span (rule_read b.now head) first count)) (content pen.old) }
    ensures same_buffer { lender pen.new ≡ lender pen.old }
{
    for k in 0..count {
        rule_line(pen, b, head, first + k);
    }
}
