// forest.rs: what can be called. A forest is made from a book's bytes and holds that book; goals are opened, tables searched and peeked at.
// Nobody outside this crate can write what a forest has inside, or read it but in a copy (`shown`).
#![tactic(auto)]

pub mod any_future_answer;
pub mod make;
pub mod open;
pub mod searches;
pub mod serve_calls;
pub mod shown;

use book::Book;
use stores::Stores;

// The book and the stores; the clock's limit, the number that marks a stopped forest, and the clock. No search is under way between two
// calls, so that there is no stack.
#[derive(Clone, Copy)]
pub struct Forest {
    book: Book,
    stores: Stores,
    clock_limit: u64,
    mark: u8,
    clock: u64,
}
