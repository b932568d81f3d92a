// Reading a book: each command is tested against document 01's refusals, in its order, and then done.
ghost use Rattle.std.specs.Prelude.{◌≡◌};
ghost use Rattle.book.specs.View.{Read, ReadLoosely, blank as blankBook};
ghost use Rattle.book.specs.Naming.{ReadNamed};

use crate::decode::operands_at;
use crate::faults::next_fault;
use crate::widths::{CLAUSE, END, GOAL};
use crate::{Book, Refusal};
use sizes::{BOOK_LITERALS, MOST_CLAUSES, MOST_GOALS, MOST_LITERALS};

// What is read without the test for 6; and `named` is the least count of goals that holds every goal named, so that nobody has to look
// at the literals again.
#[derive(Clone, Copy)]
struct Named {
    book: Book,
    named: usize,
}

impl Book {
    // A book without a goal, all of whose numbers are 0.
    pub fn blank() -> Book
        ensures { result ≡ blankBook }
    {
        Book {
            goals: 0,
            clauses: 0,
            goal_flags: [0; MOST_GOALS],
            goal_first: [0; MOST_GOALS],
            goal_len: [0; MOST_GOALS],
            clause_variant: [0; MOST_CLAUSES],
            clause_flags: [0; MOST_CLAUSES],
            clause_len: [0; MOST_CLAUSES],
            literal_kind: [0; BOOK_LITERALS],
            literal_goal: [0; BOOK_LITERALS],
            literal_want: [0; BOOK_LITERALS],
        }
    }
}

// All tests but the one for 6, command by command. `literals` are those of the last clause, and `named` holds every goal named so far.
fn read_named(bytes: &[u8]) -> Result<Named, Refusal>
    ensures { ReadNamed bytes.now result }
{
    let mut book = Book::blank();
    let mut literals: usize = 0;
    let mut named: usize = 0;
    let mut at: usize = 0;
    loop {
        let goals = book.goals;
        let clauses = book.clauses;
        next_fault(bytes, at, goals, clauses, literals)?;
        let o = operands_at(bytes, at);
        if o.command == END {
            return Ok(Named { book, named });
        }
        at = o.next;
        if o.command == GOAL {
            book.goal_flags[goals] = o.flags;
            book.goal_first[goals] = clauses as u16;
            book.goal_len[goals] = 0;
            book.goals = goals + 1;
        } else if o.command == CLAUSE {
            book.goal_len[goals - 1] = book.goal_len[goals - 1] + 1;
            book.clause_variant[clauses] = o.number;
            book.clause_flags[clauses] = o.flags;
            book.clause_len[clauses] = 0;
            book.clauses = clauses + 1;
            literals = 0;
        } else {
            let place = MOST_LITERALS * (clauses - 1) + literals;
            book.literal_kind[place] = o.kind;
            book.literal_goal[place] = o.number;
            book.literal_want[place] = o.want;
            literals = literals + 1;
            book.clause_len[clauses - 1] = literals as u8;
            named = named.max(o.number as usize + 1);
        }
    }
}

// The book that the bytes say, or why they are refused. `Read` says that the result means what the definitions' `read` gives, and that an
// accepted book is sound.
pub fn read(bytes: &[u8]) -> Result<Book, Refusal>
    ensures { Read bytes.now result }
{
    let all = read_named(bytes)?;
    if all.named > all.book.goals {
        return Err(Refusal::NoSuchGoal);
    }
    Ok(all.book)
}

// The same without the test for 6: the literals of a book that is accepted may name goals that it has not, up to 65535, where `literal_at`
// gives the low byte alone.
pub fn read_loosely(bytes: &[u8]) -> Result<Book, Refusal>
    ensures { ReadLoosely bytes.now result }
{
    let all = read_named(bytes)?;
    Ok(all.book)
}
