// The bytes of a paper, command by command: each is copied with its operands, or goes with its clause.
ghost use Rattle.std.specs.Prelude.{◌≡◌, List, [], ℕ};
ghost use Rattle.std.specs.declared.option.Option as found;
ghost use Rattle.laws.specs.Spans.{span};
ghost use Rattle.definitions.specs.Book.{command, width as width_of};
ghost use Rattle.papers.specs.Mend.{at_other, at_clause, at_command, if_stays, copied};
ghost use Rattle.pen.specs.Pen.{put_all, content, lender};
ghost use Rattle.mending.specs.declared.reasons.Reason.{Reason};
ghost use Rattle.mending.specs.Reasons.{reason_at};
ghost use Rattle.mending.specs.Copying.{copying, Goes};

use crate::reasons::Reason;
use book::widths::{CLAUSE, END, GOAL, UNKNOWN, width};
use pen::Pen;
use sizes::MOST_CLAUSES;

// Where the copy stands: how many operands of the command at hand are to come; whether it stays; whether the last clause does; and how
// many clauses there were, of which no paper has more than 256.
#[derive(Clone, Copy)]
struct Copying {
    skip: u8,
    stays: bool,
    last_stays: bool,
    clauses: usize,
}

impl Copying {
    // A command that belongs to no clause stays.
    fn at_other(self, skip: u8) -> Copying
        ensures { (result.skip ≡ skip)
            × ((reasons : List (found.Option Reason)) → copying reasons result ≡ at_other (copying reasons self)) }
    {
        let last_stays = self.last_stays;
        Copying {
            skip,
            stays: true,
            last_stays,
            clauses: self.clauses,
        }
    }

    // A clause stays where it has no reason to go.
    fn at_clause(self, reasons: &[Option<Reason>; MOST_CLAUSES], skip: u8) -> Copying
        ensures { (result.skip ≡ skip) × (copying reasons.now result ≡ at_clause (copying reasons.now self).to_come) }
    {
        let clause = self.clauses;
        if clause < MOST_CLAUSES {
            let stays = reasons[clause].is_none();
            return Copying {
                skip,
                stays,
                last_stays: stays,
                clauses: clause + 1,
            };
        }
        Copying {
            skip,
            stays: true,
            last_stays: true,
            clauses: MOST_CLAUSES,
        }
    }

    // At the byte of a command. A literal goes with the last clause, wherever it stands.
    fn at_command(self, reasons: &[Option<Reason>; MOST_CLAUSES], b: u8) -> Copying
        ensures { (result.skip ≡ width_of (command b))
            × (copying reasons.now result ≡ at_command (command b) (copying reasons.now self)) }
    {
        let w = width(b);
        if w == UNKNOWN {
            return self.at_other(0);
        }
        if b == CLAUSE {
            return self.at_clause(reasons, w);
        }
        if b == GOAL || b == END {
            return self.at_other(w);
        }
        Copying {
            skip: w,
            stays: self.last_stays,
            last_stays: self.last_stays,
            clauses: self.clauses,
        }
    }

    // At any byte.
    fn at_byte(self, reasons: &[Option<Reason>; MOST_CLAUSES], b: u8) -> Copying
        ensures { Goes reasons.now self b result }
    {
        if self.skip == 0 {
            return self.at_command(reasons, b);
        }
        Copying {
            skip: self.skip - 1,
            stays: self.stays,
            last_stays: self.last_stays,
            clauses: self.clauses,
        }
    }
}

#[tactic(auto, using(pen::proofs::Putting::put_nothing, pen::proofs::Putting::put_one))]
fn put_if(pen: &mut Pen, stays: bool, b: u8)
    ensures puts { content pen.new ≡ put_all (if_stays stays b []) (content pen.old) }
    ensures same_buffer { lender pen.new ≡ lender pen.old }
{
    if stays {
        pen.byte(b);
    }
}

// What stays.
pub(crate) fn copy(pen: &mut Pen, reasons: &[Option<Reason>; MOST_CLAUSES], bytes: &[u8])
    ensures puts { content pen.new ≡ put_all (copied bytes.now (span (reason_at reasons.now) 0 256)) (content pen.old) }
    ensures same_buffer { lender pen.new ≡ lender pen.old }
{
    let mut c = Copying {
        skip: 0,
        stays: true,
        last_stays: true,
        clauses: 0,
    };
    for b in bytes {
        c = c.at_byte(reasons, *b);
        put_if(pen, c.stays, *b);
    }
}
