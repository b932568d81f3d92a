// The refusals as the programs say them to whoever wrote the paper: a line with the number, and below it the number's sentence.
ghost use Rattle.std.specs.Prelude.{◌≡◌};
ghost use Rattle.pen.specs.Pen.{put_all, content, lender};
ghost use Rattle.pen.specs.Refusals.{sentence as sentenceOf, refusal_line, refusal_lines};

use crate::Pen;

impl Pen<'_> {
    #[tactic(auto, unfolding(crate::specs::Refusals::sentence))]
    fn sentence(&mut self, number: u8)
        ensures puts { content self.new ≡ put_all (sentenceOf number) (content self.old) }
        ensures same_buffer { lender self.new ≡ lender self.old }
    {
        match number {
            1 => self.text(b"a command, an operand or the end is missing\n"),
            2 => self.text(b"unknown command\n"),
            3 => self.text(b"a clause before a goal, or a literal before a clause\n"),
            4 => self.text(b"unknown flag bit\n"),
            5 => self.text(b"a 65th goal, a 257th clause or a 9th literal of a clause\n"),
            6 => self.text(b"a literal names no goal\n"),
            7 => self.text(b"bytes after the end\n"),
            32 => self.text(b"a range with its low end above its high end\n"),
            36 => self.text(b"a goal has the same clause twice\n"),
            37 => self.text(b"not plain: a variant, a want or a flag that is not 0, or a range\n"),
            38 => self.text(
                b"not levelled: no numbers can be given to the goals so that each \"not\" leads lower and no other literal higher\n",
            ),
            39 => self.text(b"not text of the form that a book is written in\n"),
            _ => self.text(b"no goal\n"),
        }
    }

    // The line alone, for a reader that goes by numbers.
    #[tactic(auto, using(crate::proofs::Sentences::line_said))]
    pub fn refusal_line(&mut self, number: u8)
        ensures puts { content self.new ≡ put_all (refusal_line number) (content self.old) }
        ensures same_buffer { lender self.new ≡ lender self.old }
    {
        self.counted(b"refused ", number as u64);
        self.text(b"\n");
    }

    #[tactic(auto, using(crate::proofs::Putting::put_all_append), unfolding(crate::specs::Refusals::refusal_lines))]
    pub fn refusal(&mut self, number: u8)
        ensures puts { content self.new ≡ put_all (refusal_lines number) (content self.old) }
        ensures same_buffer { lender self.new ≡ lender self.old }
    {
        self.refusal_line(number);
        self.sentence(number);
    }
}
