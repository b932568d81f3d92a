// Out to a Prolog with tabling (change request 13): the book of a text of XSB's form, read in one pass, in pieces of any length.
#![tactic(auto)]

pub mod import;
mod keeping;
mod numbers;
mod places;
mod spots;

use sizes::{BOOK_LITERALS, MOST_CLAUSES, MOST_GOALS};

// What a number in the text is of.
#[derive(Clone, Copy)]
pub enum What {
    Table,
    Head,
    Positive,
    Negative,
}

// What may come next: a line; one byte, by its place in the form (specs/Places); a digit, or what ends the number so far; a literal; what
// stands behind one.
#[derive(Clone, Copy)]
pub enum Place {
    Line,
    Fixed(usize),
    Number(What, Option<u64>),
    Literal,
    Behind,
}

// What a byte ended, with its number.
#[derive(Clone, Copy)]
pub enum Ended {
    Head(u64),
    Positive(u64),
    Negative(u64),
}

// Where the reading of a text stands: how many table lines there were, the head of the last rule that was begun, whether there was one,
// and what the last byte ended.
#[derive(Clone, Copy)]
pub struct Spot {
    place: Place,
    tables: u64,
    head: u64,
    begun: bool,
    ended: Option<Ended>,
}

// What is known of the bytes of the book so far: how many goals are written, how many clauses, how many literals of the last clause, and
// how many bytes.
#[derive(Clone, Copy)]
pub struct Kept {
    goals: u64,
    clauses: u64,
    literals: u64,
    used: usize,
}

// A plain book has at most so many bytes: a goal is 2, a clause 4, a literal 6, and the end 1.
pub const PLAIN_BYTES: usize = 2 * MOST_GOALS + 4 * MOST_CLAUSES + 6 * BOOK_LITERALS + 1;

// A text that is being read: its state has a fixed size, whatever the text's length. A text without a spot is not of the form, whatever
// follows; of one that is over a limit nothing is kept. Nobody outside this crate can read or write what a reader has inside.
#[derive(Clone, Copy)]
pub struct Reader {
    spot: Option<Spot>,
    kept: Option<Kept>,
    bytes: [u8; PLAIN_BYTES],
}

// The book of a text: the first `used` bytes.
#[derive(Clone, Copy)]
pub struct Imported {
    pub used: usize,
    pub bytes: [u8; PLAIN_BYTES],
}
