// What a turn leaves: how it ends, the numbers that the loop carries on, and what its owner writes.
use strands::{Answer, Strand};

// How the turn ends (definitions, `Flow`), or the number of its stop.
#[derive(Clone, Copy)]
pub enum Flow {
    Continue,
    ReturnOk,
    NoMoreSolutions,
    QuantumExceeded,
    NegativeCycle,
    Stop(u8),
}

// The numbers that the loop carries from turn to turn: how many tables there are, the stack's depth, the clock, and where the places of
// strands and of answers begin that were never used.
#[derive(Clone, Copy)]
pub struct Carried {
    pub count: usize,
    pub depth: usize,
    pub clock: u64,
    pub used: u16,
    pub answer_used: u16,
}

// What a turn leaves. The owner writes the copy, then the strand, and the answer, each at its place; where one is not to be written, it is
// what was read there, or what is written there next.
#[derive(Clone, Copy)]
pub struct Performed {
    pub flow: Flow,
    pub copy_place: u8,
    pub copy: Strand,
    pub place: u8,
    pub strand: Strand,
    pub answer_place: u8,
    pub answer: Answer,
    pub count: usize,
    pub depth: usize,
    pub clock: u64,
    pub used: u16,
    pub answer_used: u16,
}
