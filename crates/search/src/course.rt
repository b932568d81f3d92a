// What is asked of a search, and how far it has come.
ghost use Rattle.std.specs.Prelude.{◌≡◌};
ghost use Rattle.search.specs.Course.{is_turn, is_peek, ended, carried, carry};

use control::performed::{Carried, Flow};

// How a search ends (definitions, `Ending`): an answer by its variant and whether it is ambiguous, a failure of the Rust, the turns used
// up, or a stop by its number.
#[derive(Clone, Copy)]
pub enum Ending {
    Found(u16, bool),
    NoMoreSolutions,
    Floundered,
    QuantumExceeded,
    NegativeCycle,
    InvalidAnswer,
    Cut,
    Stopped(u8),
}

// One turn of a search that stands, a search, or the searches of a peek one after the other.
#[derive(Clone, Copy)]
pub enum Mode {
    Turn,
    Search,
    Peek,
}

#[derive(Clone, Copy)]
pub struct Asked {
    pub mode: Mode,
    pub table: u8,
    pub limit: u64,
    pub clock_limit: u64,
}

// Whether all is over, and then how the last search ended; how its last turn ended; the index of the search that stands or was last, the
// rounds after it and how many searches ended in QuantumExceeded; its turns. Then the forest's mark, and the numbers that a turn carries.
#[derive(Clone, Copy)]
pub struct Course {
    pub over: bool,
    pub ending: Ending,
    pub flow: Flow,
    pub index: u64,
    pub more: u64,
    pub exceeded: u64,
    pub done: u64,
    pub mark: u8,
    pub count: usize,
    pub depth: usize,
    pub clock: u64,
    pub used: u16,
    pub answer_used: u16,
}

pub fn is_turn(mode: Mode) -> bool
    ensures { result ≡ is_turn mode }
{
    matches!(mode, Mode::Turn)
}

pub fn is_peek(mode: Mode) -> bool
    ensures { result ≡ is_peek mode }
{
    matches!(mode, Mode::Peek)
}

// The search has ended so.
pub fn ended(c: Course, ending: Ending) -> Course
    ensures { result ≡ ended ending c }
{
    Course {
        over: true,
        ending,
        ..c
    }
}

pub fn carried(c: Course) -> Carried
    ensures { result ≡ carried c }
{
    Carried {
        count: c.count,
        depth: c.depth,
        clock: c.clock,
        used: c.used,
        answer_used: c.answer_used,
    }
}

// A turn ended so, and left these numbers.
pub fn carry(c: Course, flow: Flow, now: Carried) -> Course
    ensures { result ≡ carry flow now c }
{
    Course {
        flow,
        count: now.count,
        depth: now.depth,
        clock: now.clock,
        used: now.used,
        answer_used: now.answer_used,
        ..c
    }
}
