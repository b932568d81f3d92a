// logic.rs `on_no_strands_left`, by numbers alone: what a turn does where the top has no strand to go on with. A caller's strand is not
// read: the number beside it tells the sign of the literal that it waits on.
ghost use Rattle.std.specs.Prelude.{◌≡◌};
ghost use Rattle.control.specs.OnNoStrandsLeft.{waits_on_not, caller_waits_on_not, no_strands, minimum_at};
ghost use Rattle.control.specs.OnNoStrandsLeft.{part_of_cycle, head_of_cycle, cycle, no_strands_left, without_strand};

use crate::ensure_root_answer::{Next, Top};
use sizes::{MOST_ENTRIES, PLACES};
use stores::numbers::{NO_PLACE, WAITS_NOT};
use stores::stack::caller_place;
use strands::times::TimeStamp;

// The acts of logic.rs with no strand (crate `small_steps`, `Act`), and none where there is a strand. That a strand of a cycle has nothing
// selected (29) is found where the cycle's tables are cleared.
#[derive(Clone, Copy)]
pub enum Idle {
    Nothing,
    Finishes,
    CallerFailed,
    CallerProved,
    ChangesMode,
    NegativeCycle,
    Clears,
    PartOfCycle,
}

pub fn waits_on_not(w: u8) -> bool
    ensures { result ≡ waits_on_not w }
{
    if w < WAITS_NOT {
        return false;
    }
    w < 2 * WAITS_NOT
}

// Whether the literal that the caller's strand waits on is a "not".
pub fn caller_waits_on_not(waits: &[u8; PLACES], active: &[u16; MOST_ENTRIES], depth: usize) -> bool
    ensures { result ≡ caller_waits_on_not waits.now active.now depth }
{
    let p = caller_place(active, depth);
    if p >= NO_PLACE {
        return false;
    }
    waits_on_not(waits[p as usize])
}

// The queue is empty: the top's goal has no more answers. A "not" of the caller is proved by that, and any other literal fails.
fn no_strands(depth: usize, waits: &[u8; PLACES], active: &[u16; MOST_ENTRIES]) -> Idle
    ensures { result ≡ no_strands waits.now active.now depth }
{
    if depth < 2 {
        return Idle::Finishes;
    }
    if caller_waits_on_not(waits, active, depth) {
        return Idle::CallerProved;
    }
    Idle::CallerFailed
}

// One of the top's minimums; 0 where the stack has no top.
pub fn minimum_at(minimum: &[u64; MOST_ENTRIES], depth: usize) -> u64
    ensures { result ≡ minimum_at minimum.now depth }
{
    if depth == 0 {
        return 0;
    }
    if depth > MOST_ENTRIES {
        return 0;
    }
    minimum[depth - 1]
}

// The cycle goes on below the top: its strands wait for the caller.
fn part_of_cycle(depth: usize) -> Idle
    ensures { result ≡ part_of_cycle depth }
{
    if depth < 2 {
        return Idle::Finishes;
    }
    Idle::PartOfCycle
}

// The top is where the cycle began: negative, or all its strands wait on each other and are cleared.
fn head_of_cycle(negative: u64) -> Idle
    ensures { result ≡ head_of_cycle negative }
{
    if negative < TimeStamp::MAX.clock {
        return Idle::NegativeCycle;
    }
    Idle::Clears
}

// Every strand of the queue has met a cycle.
fn cycle(clock: u64, positive: u64, negative: u64, depth: usize) -> Idle
    ensures { result ≡ cycle clock positive negative depth }
{
    if positive < clock {
        return part_of_cycle(depth);
    }
    if negative < clock {
        return part_of_cycle(depth);
    }
    head_of_cycle(negative)
}

pub fn on_no_strands_left(
    top: Top,
    len: &[u16; PLACES],
    waits: &[u8; PLACES],
    positive: &[u64; MOST_ENTRIES],
    negative: &[u64; MOST_ENTRIES],
    active: &[u16; MOST_ENTRIES],
) -> Idle
    ensures { result ≡ no_strands_left len.now waits.now positive.now negative.now
        active.now top }
{
    let t = top.table;
    if len[t as usize] == 0 {
        return no_strands(top.depth, waits, active);
    }
    if top.complete {
        return Idle::ChangesMode;
    }
    let p = minimum_at(positive, top.depth);
    let n = minimum_at(negative, top.depth);
    cycle(top.clock, p, n, top.depth)
}

// What is done with no strand, and nothing where there is one to go on with.
pub fn without_strand(
    next: Next,
    top: Top,
    len: &[u16; PLACES],
    waits: &[u8; PLACES],
    positive: &[u64; MOST_ENTRIES],
    negative: &[u64; MOST_ENTRIES],
    active: &[u16; MOST_ENTRIES],
) -> Idle
    ensures { result ≡ without_strand len.now waits.now positive.now negative.now
        active.now next top }
{
    if next.found {
        return Idle::Nothing;
    }
    on_no_strands_left(top, len, waits, positive, negative, active)
}
