// What a forest holds, laid open: a copy of it for whoever shows it. Nobody can make a forest of that, so that what a forest has inside is
// still written by this crate alone.
ghost use Rattle.std.specs.Prelude.{◌≡◌};
ghost use Rattle.forest.specs.Shown.{shown};

use crate::Forest;
use sizes::{BOOK_LITERALS, MOST_CLAUSES, MOST_TABLES, PLACES};
use strands::{Answer, Strand};

// The clock, the mark, the tables with their queues of strands and of answers, by place; and of the book what is needed to tell a strand
// that still stands for its clause. The field `literal_want` and its like are a book's arrays (`book::Book`).
#[derive(Clone, Copy)]
pub struct Shown {
    pub clock: u64,
    pub mark: u8,
    pub count: usize,
    pub goal: [u8; MOST_TABLES],
    pub floundered: [u8; MOST_TABLES],
    pub complete: [u8; MOST_TABLES],
    pub strands: [Strand; PLACES],
    pub next: [u8; PLACES],
    pub tail: [u8; PLACES],
    pub len: [u16; PLACES],
    pub time: [u64; PLACES],
    pub waits: [u8; PLACES],
    pub wants: [u16; PLACES],
    pub answers: [Answer; PLACES],
    pub answer_next: [u8; PLACES],
    pub answer_tail: [u8; PLACES],
    pub answer_len: [u16; PLACES],
    pub clause_variant: [u16; MOST_CLAUSES],
    pub clause_flags: [u8; MOST_CLAUSES],
    pub clause_len: [u8; MOST_CLAUSES],
    pub literal_kind: [u8; BOOK_LITERALS],
    pub literal_goal: [u16; BOOK_LITERALS],
    pub literal_want: [u32; BOOK_LITERALS],
}

// A copy of the fields of these names.
pub fn show(f: Forest) -> Shown
    ensures { result ≡ shown f }
{
    let b = &f.book;
    let tables = &f.stores.tables;
    let strands = &f.stores.strands;
    let answers = &f.stores.answers;
    Shown {
        clock: f.clock,
        mark: f.mark,
        count: tables.count,
        goal: tables.goal,
        floundered: tables.floundered,
        complete: tables.complete,
        strands: strands.strands,
        next: strands.places.next,
        tail: strands.places.tail,
        len: strands.places.len,
        time: strands.time,
        waits: strands.waits,
        wants: strands.wants,
        answers: answers.answers,
        answer_next: answers.places.next,
        answer_tail: answers.places.tail,
        answer_len: answers.places.len,
        clause_variant: b.clause_variant,
        clause_flags: b.clause_flags,
        clause_len: b.clause_len,
        literal_kind: b.literal_kind,
        literal_goal: b.literal_goal,
        literal_want: b.literal_want,
    }
}
