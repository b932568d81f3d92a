// Mending a paper: its bytes without the clauses that go, and a line for each of these; or a refusal, any but 6 and 36.
ghost use Rattle.std.specs.Prelude.{◌≡◌};
ghost use Rattle.book.specs.Refusals.{fault_number};
ghost use Rattle.papers.specs.Mend.{mend as mendOf};
ghost use Rattle.pen.specs.Pen.{pen, content, lender};
ghost use Rattle.mending.specs.Mending.{mends};

use crate::copy::copy;
use crate::lines::lines;
use crate::reasons::reasons_of;
use book::{Refusal, read_loosely};
use pen::{Pen, Streams};

// The book is put down by `out`, which is for standard output, and the lines by `told`, which is for standard error; of a paper that is
// refused no book, and the refusal's line in `told`.
pub fn mend(out: &mut Pen, told: &mut Pen, bytes: &[u8]) -> Result<(), Refusal>
    ensures says { (fault_number result, content out.new, content told.new)
        ≡ mends (mendOf bytes.now) (content out.old) (content told.old) }
    ensures same_out { lender out.new ≡ lender out.old }
    ensures same_told { lender told.new ≡ lender told.old }
{
    match read_loosely(bytes) {
        Ok(b) => {
            let reasons = reasons_of(&b);
            copy(out, &reasons, bytes);
            lines(told, &reasons, &b);
            Ok(())
        }
        Err(e) => {
            told.refusal_line(u8::from(e));
            Err(e)
        }
    }
}

// What mending comes to: how much is in use of the buffer for the book, and of that for the lines; or a refusal, and its line.
#[derive(Clone, Copy)]
pub struct Mended {
    pub answer: Result<(), Refusal>,
    pub used: usize,
    pub told: usize,
}

// The same for who holds two buffers and no pens: both are put down from the start of their buffers on.
pub fn mend_to(to: Streams, out: &mut [u8], told: &mut [u8], bytes: &[u8]) -> Mended
    ensures { (fault_number result.answer, pen out.new result.used, pen told.new result.told)
        ≡ mends (mendOf bytes.now) (pen out.old 0) (pen told.old 0) }
{
    let mut book = Pen::new(to, out);
    let mut lines = Pen::new(to, told);
    let answer = mend(&mut book, &mut lines, bytes);
    Mended {
        answer,
        used: book.used,
        told: lines.used,
    }
}
