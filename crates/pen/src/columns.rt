// Text in a column of a width, filled up with blanks; text that is as wide or wider stands as it is.
ghost use Rattle.std.specs.Prelude.{◌≡◌};
ghost use Rattle.definitions.specs.Text.{decimal, blanks as blanksOf, in_column, at_left, at_right};
ghost use Rattle.pen.specs.Pen.{put_all, content, lender};

use crate::Pen;
use itoa::Buffer;

impl Pen<'_> {
    #[tactic(auto, using(crate::proofs::Putting::put_nothing, crate::proofs::Putting::put_all_blanks))]
    pub fn blanks(&mut self, count: usize)
        ensures puts { content self.new ≡ put_all (blanksOf count) (content self.old) }
        ensures same_buffer { lender self.new ≡ lender self.old }
    {
        for _i in 0..count {
            self.byte(b' ');
        }
    }

    // At its left.
    pub fn left(&mut self, width: usize, bytes: &[u8])
        ensures puts { content self.new ≡ put_all (in_column at_left width bytes.now) (content self.old) }
        ensures same_buffer { lender self.new ≡ lender self.old }
    {
        self.text(bytes);
        self.blanks(width.saturating_sub(bytes.len()));
    }

    // At its right.
    pub fn right(&mut self, width: usize, bytes: &[u8])
        ensures puts { content self.new ≡ put_all (in_column at_right width bytes.now) (content self.old) }
        ensures same_buffer { lender self.new ≡ lender self.old }
    {
        let missing = width.saturating_sub(bytes.len());
        self.blanks(missing);
        self.text(bytes);
    }

    // A number in decimal, at its right.
    #[tactic(auto, using(crate::proofs::Numbers::decimal_printed))]
    pub fn right_number(&mut self, width: usize, n: u64)
        ensures puts { content self.new ≡ put_all (in_column at_right width (decimal n)) (content self.old) }
        ensures same_buffer { lender self.new ≡ lender self.old }
    {
        self.right(width, Buffer::new().format(n).as_bytes());
    }
}
