// stack.rs: the stack's arrays are lent, and its depth goes by value. The topmost entry stands at depth - 1. At most 64 entries: a table
// is on the stack at most once. On a depth that no stack has nothing is written. `is_active` is `first_of` of numbers.rt over the tables of
// the entries.
ghost use Rattle.std.specs.Prelude.{◌≡◌, ◌-◌};
ghost use Rattle.sizes.specs.Limits.{most_places};
ghost use Rattle.stores.specs.Numbers.{count_after, written_at, within, all_from};
ghost use Rattle.stores.specs.Stack.{caller_place, caller_written, top_written, coinductive_at, blank_stack};

use crate::numbers::{NO_PLACE, flag_at, upto};
use sizes::{MOST_ENTRIES, MOST_TABLES};

// Entry 0 is the root; an active strand is a place, and 256 where there is none.
#[derive(Clone, Copy)]
pub struct Stack {
    pub depth: usize,
    pub table: [u8; MOST_ENTRIES],
    pub clock: [u64; MOST_ENTRIES],
    pub positive: [u64; MOST_ENTRIES],
    pub negative: [u64; MOST_ENTRIES],
    pub active: [u16; MOST_ENTRIES],
}

pub fn blank_stack() -> Stack
    ensures { result ≡ blank_stack }
{
    Stack {
        depth: 0,
        table: [0; MOST_ENTRIES],
        clock: [0; MOST_ENTRIES],
        positive: [0; MOST_ENTRIES],
        negative: [0; MOST_ENTRIES],
        active: [NO_PLACE; MOST_ENTRIES],
    }
}

// `push`: the depth that it leaves; the same depth where the stack is full.
pub fn push_entry(
    table: &mut [u8; MOST_ENTRIES],
    clock: &mut [u64; MOST_ENTRIES],
    positive: &mut [u64; MOST_ENTRIES],
    negative: &mut [u64; MOST_ENTRIES],
    active: &mut [u16; MOST_ENTRIES],
    depth: usize,
    t: u8,
    time: u64,
    most: u64,
) -> usize
    ensures { (result ≡ count_after depth)
        × (table.new ≡ written_at depth t table.old)
        × (clock.new ≡ written_at depth time clock.old)
        × (positive.new ≡ written_at depth most positive.old)
        × (negative.new ≡ written_at depth most negative.old)
        × (active.new ≡ written_at depth most_places active.old) }
{
    if depth >= MOST_ENTRIES {
        return depth;
    }
    table[depth] = t;
    clock[depth] = time;
    positive[depth] = most;
    negative[depth] = most;
    active[depth] = NO_PLACE;
    depth + 1
}

// `pop`: the depth that it leaves.
pub fn pop(depth: usize) -> usize
    ensures { result ≡ depth - 1 }
{
    depth.saturating_sub(1)
}

// The place of the strand of the caller, the entry below the top: 256 where there is no caller or no strand.
pub fn caller_place(active: &[u16; MOST_ENTRIES], depth: usize) -> u16
    ensures { result ≡ caller_place depth active.now }
{
    if depth < 2 {
        return NO_PLACE;
    }
    if depth > MOST_ENTRIES {
        return NO_PLACE;
    }
    active[depth - 2]
}

// `pop_and_take_caller_strand`, but for the depth: the caller's entry has no strand from now on.
pub fn take_caller(active: &mut [u16; MOST_ENTRIES], depth: usize) -> u16
    ensures { (result ≡ caller_place depth active.old) × (active.new ≡ caller_written depth active.old) }
{
    if depth < 2 {
        return NO_PLACE;
    }
    if depth > MOST_ENTRIES {
        return NO_PLACE;
    }
    let p = active[depth - 2];
    active[depth - 2] = NO_PLACE;
    p
}

// The top's active strand is set: a place, or 256 for none.
pub fn set_active(active: &mut [u16; MOST_ENTRIES], depth: usize, place: u16)
    ensures { active.new ≡ top_written depth place active.old }
{
    if depth == 0 {
        return;
    }
    if depth > MOST_ENTRIES {
        return;
    }
    active[depth - 1] = place;
}

// One of the top's minimums is set.
pub fn set_minimum(minimum: &mut [u64; MOST_ENTRIES], depth: usize, time: u64)
    ensures { minimum.new ≡ top_written depth time minimum.old }
{
    if depth == 0 {
        return;
    }
    if depth > MOST_ENTRIES {
        return;
    }
    minimum[depth - 1] = time;
}

// `top_of_stack_is_coinductive_from`: all entries from one up to the top are of coinductive tables.
pub fn coinductive_from(
    table: &[u8; MOST_ENTRIES],
    coinductive: &[u8; MOST_TABLES],
    from: usize,
    depth: usize,
) -> bool
    ensures { result ≡ all_from (coinductive_at table.now coinductive.now) from (within depth - from) }
{
    for i in from..upto(depth) {
        if !flag_at(coinductive, table[i]) {
            return false;
        }
    }
    true
}
