// table.rs, tables.rs and stack.rs: where the Rust has Vec, VecDeque and FxHashMap, arrays of a fixed size. Strands and answers stand at
// places of a store; a table's queue, its answers and the free places are rings of places (crate `rings`).
#![tactic(auto)]

pub mod numbers; // numbers.rt: flags, and the first of some numbers
pub mod places; // places.rt: a store's places
pub mod queue; // queue.rt: the queues of strands
pub mod table; // table.rt: a table's answers
pub mod tables; // tables.rt: the tables' own numbers
pub mod stack; // stack.rt: the stack's entries

use crate::queue::Strands;
use crate::table::Answers;
use crate::tables::Tables;

// What a forest keeps beside its book: the tables, the strands and the answers.
#[derive(Clone, Copy)]
pub struct Stores {
    pub tables: Tables,
    pub strands: Strands,
    pub answers: Answers,
}
