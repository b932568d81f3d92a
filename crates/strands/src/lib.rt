// lib.rs and strand.rs: the small types that the other files share, and a strand as a struct by value. Every function is total: what
// a sound strand rules out is tested, so that no caller has to show anything, and a contract is an equation with a model of specs/ on
// every input. What a model means, and that it keeps soundness, are theorems (proofs/*Views).
#![tactic(auto)]

pub mod times; // times.rt: time stamps, minimums, the answer mode
pub mod fields; // fields.rt: a strand with one field written, and the copy for the next answer
pub mod literals; // literals.rt: a strand's literals: how many, which, the last one removed
pub mod floundering; // floundering.rt: flounder_subgoal and reconsider_floundered_subgoals
pub mod delaying; // delaying.rt: delayed goals, and 24 at the ninth
pub mod merging; // merging.rt: an answer taken into a strand
pub mod making; // making.rt: a blank strand, a clause's strand, a refinement strand
pub mod answers; // answers.rt: an answer made from a strand, and when two answers are the same

ghost use Rattle.std.specs.Prelude.{◌≡◌, min};

use book::Literal;
use sizes::MOST_LITERALS;

// `SelectedSubgoal`, or nothing selected: 6 bytes.
#[derive(Clone, Copy)]
pub enum Selected {
    Nothing,
    Subgoal { index: u8, table: u8, answer: u16 },
}

// `Strand` with its `ExClause`, in 126 bytes: 8 of variant, flags, answer time and counts, 48 of literals, 48 of floundered ones and 8 of
// their times, 8 of delayed goals and 6 of what is selected. A `FlounderedSubgoal` is a literal and, at the same index, its time: a struct
// of the two would have a byte more that aligns it, and a strand 134. The last pursued time stands beside the strands, by place, where it
// can be read without the strand. Reading and writing back an element of an array costs twice as much above 128 bytes.
#[derive(Clone, Copy)]
pub struct Strand {
    pub variant: u16,
    pub outsized: bool,
    pub ambiguous: bool,
    pub answer_time: u8,
    pub literal_count: u8,
    pub floundered_count: u8,
    pub delayed_count: u8,
    pub literals: [Literal; MOST_LITERALS],
    pub floundered: [Literal; MOST_LITERALS],
    pub floundered_time: [u8; MOST_LITERALS],
    pub delayed: [u8; MOST_LITERALS],
    pub selected: Selected,
}

// `Answer`: a variant, and the goals that are still to be proved for it. 12 bytes.
#[derive(Clone, Copy)]
pub struct Answer {
    pub variant: u16,
    pub ambiguous: bool,
    pub delayed_count: u8,
    pub delayed: [u8; MOST_LITERALS],
}

// A count as a number of places in an array of eight.
pub fn within(count: u8) -> usize
    ensures { result ≡ min count 8 }
{
    usize::from(count).min(MOST_LITERALS)
}
