// A rule book (document 01, "A book"): read from bytes into arrays of numbers, looked up by goal, clause and literal, and fitted to
// answers.
#![tactic(auto)]

pub mod access;
mod decode;
pub mod desk;
mod faults;
pub mod fitting;
mod keys;
pub mod reader;
pub mod refusal;
mod repeats;
pub mod same;
pub mod widths;

pub use crate::reader::{read, read_loosely};
pub use crate::refusal::Refusal;
use sizes::{BOOK_LITERALS, MOST_CLAUSES, MOST_GOALS};

// Goals, clauses and literals by number, so that each array can be lent alone. The clauses of goal g are the goal_len[g] clauses
// from goal_first[g] on, and literal j of clause c stands at 8 * c + j. Flags are as in the bytes; of a literal's kind bit 0 says
// outsized, bit 1 "not" and bit 2 that it wants a range. What it wants is a variant (0: any), or low + 65536 * high.
#[derive(Clone, Copy)]
pub struct Book {
    pub goals: usize,
    pub clauses: usize,
    pub goal_flags: [u8; MOST_GOALS],
    pub goal_first: [u16; MOST_GOALS],
    pub goal_len: [u16; MOST_GOALS],
    pub clause_variant: [u16; MOST_CLAUSES],
    pub clause_flags: [u8; MOST_CLAUSES],
    pub clause_len: [u8; MOST_CLAUSES],
    pub literal_kind: [u8; BOOK_LITERALS],
    pub literal_goal: [u16; BOOK_LITERALS],
    pub literal_want: [u32; BOOK_LITERALS],
}

// A literal by value, in six bytes, so that a strand with its literals stays small. A book's goals are below 64. `want` is the variant
// that it wants (0: any), or the low end of a range, and `high` the range's high end.
#[derive(Clone, Copy)]
pub struct Literal {
    pub goal: u8,
    pub kind: u8,
    pub want: u16,
    pub high: u16,
}

impl Literal {
    // All zero.
    pub const BLANK: Literal = Literal {
        goal: 0,
        kind: 0,
        want: 0,
        high: 0,
    };
}

// A clause that is the same as an earlier one of its goal: the two by their numbers among the goal's clauses.
#[derive(Clone, Copy)]
pub struct Repeat {
    pub goal: usize,
    pub clause: usize,
    pub earlier: usize,
}

// What the desk sees: the book that the old entry reads, and its first repeat.
#[derive(Clone, Copy)]
pub struct Looked {
    pub book: Book,
    pub repeat: Option<Repeat>,
}

// A strand's substitution: the variant that it stands for, and whether that answer is too large to keep.
#[derive(Clone, Copy)]
pub struct Subst {
    pub variant: u16,
    pub outsized: bool,
}
