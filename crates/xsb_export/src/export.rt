// A plain book as XSB text: a line `:- table g0/0.` for each goal, and then a line for each clause.
ghost use Rattle.std.specs.Prelude.{◌≡◌};
ghost use Rattle.papers.specs.Xsb.{table_line as tableLine, table_lines as tableLines, rule_lines, rules_from};
ghost use Rattle.papers.specs.Xsb.{export as export_of, check_export};
ghost use Rattle.papers.specs.NotPlain.{not_plain_place};
ghost use Rattle.pen.specs.Pen.{pen, put_all, content, lender};
ghost use Rattle.book.specs.View.{view, Sound};
ghost use Rattle.book.specs.Refusals.{number, fault_number};
ghost use Rattle.xsb_export.specs.Exporting.{lines_of, exported};

use crate::rules::rule_lines;
use book::{Book, Refusal};
use paper_checks::paper::plain;
use paper_checks::place::not_plain;
use pen::{Pen, Streams};
use places::place;

#[tactic(auto, using(crate::proofs::Exporting::table_said))]
fn table_line(pen: &mut Pen, goal: usize)
    ensures puts { content pen.new ≡ put_all (tableLine goal) (content pen.old) }
    ensures same_buffer { lender pen.new ≡ lender pen.old }
{
    pen.counted(b":- table g", goal as u64);
    pen.text(b"/0.\n");
}

#[tactic(auto, using(pen::proofs::Putting::put_nothing, crate::proofs::Exporting::tables_next))]
fn table_lines(pen: &mut Pen, goals: usize)
    ensures puts { content pen.new ≡ put_all (tableLines goals) (content pen.old) }
    ensures same_buffer { lender pen.new ≡ lender pen.old }
{
    for goal in 0..goals {
        table_line(pen, goal);
    }
}

fn rules(pen: &mut Pen, b: &Book)
    requires { Sound b.now }
    ensures puts { content pen.new ≡ put_all (rule_lines (rules_from 0 (view b.now))) (content pen.old) }
    ensures same_buffer { lender pen.new ≡ lender pen.old }
{
    for g in 0..b.goals {
        rule_lines(pen, b, g, b.first_clause(g), b.clause_count(g));
    }
}

fn book_text(pen: &mut Pen, b: &Book)
    requires { Sound b.now }
    ensures puts { content pen.new ≡ put_all (export_of (view b.now)) (content pen.old) }
    ensures same_buffer { lender pen.new ≡ lender pen.old }
{
    table_lines(pen, b.goals);
    rules(pen, b);
}

// A refusal's lines; behind those of 37 the place that is not plain first.
fn refused(pen: &mut Pen, e: Refusal, bytes: &[u8])
    ensures puts { content pen.new ≡ put_all (lines_of (number e) (not_plain_place bytes.now)) (content pen.old) }
    ensures same_buffer { lender pen.new ≡ lender pen.old }
{
    pen.refusal(u8::from(e));
    place(pen, not_plain(bytes));
}

// The text is put down by `out`, which is for standard output; of a paper that is refused no text, and the refusal's lines by `told`, which
// is for standard error.
pub fn export(out: &mut Pen, told: &mut Pen, bytes: &[u8]) -> Result<(), Refusal>
    ensures says { (fault_number result, content out.new, content told.new)
        ≡ exported (check_export bytes.now) (not_plain_place bytes.now) (content out.old) (content told.old) }
    ensures same_out { lender out.new ≡ lender out.old }
    ensures same_told { lender told.new ≡ lender told.old }
{
    match plain(bytes) {
        Ok(b) => {
            book_text(out, &b);
            Ok(())
        }
        Err(e) => {
            refused(told, e, bytes);
            Err(e)
        }
    }
}

// What an export comes to: how much is in use of the buffer for the text; or a refusal, and how much is in use of that for its lines. Of
// the other buffer nothing is.
#[derive(Clone, Copy)]
pub struct Exported {
    pub answer: Result<(), Refusal>,
    pub used: usize,
    pub told: usize,
}

// The same for who holds two buffers and no pens: both are put down from the start of their buffers on.
pub fn export_to(to: Streams, out: &mut [u8], told: &mut [u8], bytes: &[u8]) -> Exported
    ensures { (fault_number result.answer, pen out.new result.used, pen told.new result.told)
        ≡ exported (check_export bytes.now) (not_plain_place bytes.now) (pen out.old 0) (pen told.old 0) }
{
    let mut text = Pen::new(to, out);
    let mut lines = Pen::new(to, told);
    let answer = export(&mut text, &mut lines, bytes);
    Exported {
        answer,
        used: text.used,
        told: lines.used,
    }
}
