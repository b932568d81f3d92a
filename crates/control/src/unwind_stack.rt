// logic.rs `unwind_stack` and `Drop` of SolveState: active strands go back to the queues of their tables. The stack's arrays are only
// read: whoever holds its depth sets it to 0.
ghost use Rattle.std.specs.Prelude.{◌≡◌, ◌<◌, ◌-◌};
ghost use Rattle.stores.specs.Numbers.{within};
ghost use Rattle.control.specs.UnwindStack.{Rings, enqueued_back, all_back};

use rings::ring_enqueue;
use sizes::{MOST_ENTRIES, PLACES};
use stores::numbers::upto;
use stores::stack::pop;

// An active strand, by its place, goes to the end of its table's queue.
pub fn enqueue_active(
    next: &mut [u8; PLACES],
    tail: &mut [u8; PLACES],
    len: &mut [u16; PLACES],
    table: u8,
    place: u16,
)
    ensures { Rings (enqueued_back table place) next.old tail.old len.old
        next.new tail.new len.new }
{
    if place < 256 {
        ring_enqueue(next, tail, len, table, place as u8);
    }
}

// The active strands of the lowest n entries, from the topmost of them down.
fn enqueue_below(
    next: &mut [u8; PLACES],
    tail: &mut [u8; PLACES],
    len: &mut [u16; PLACES],
    entry_table: &[u8; MOST_ENTRIES],
    active: &[u16; MOST_ENTRIES],
    n: usize,
)
    ensures { Rings (all_back entry_table.now active.now (within n))
        next.old tail.old len.old next.new tail.new len.new }
{
    for i in (0..upto(n)).rev() {
        enqueue_active(next, tail, len, entry_table[i], active[i]);
    }
}

// `unwind_stack`: the callers' strands. The top has none where a search is given up.
pub fn unwind_stack(
    next: &mut [u8; PLACES],
    tail: &mut [u8; PLACES],
    len: &mut [u16; PLACES],
    entry_table: &[u8; MOST_ENTRIES],
    active: &[u16; MOST_ENTRIES],
    depth: usize,
)
    ensures { Rings (all_back entry_table.now active.now (within (depth - 1)))
        next.old tail.old len.old next.new tail.new len.new }
{
    enqueue_below(next, tail, len, entry_table, active, pop(depth));
}

// `Drop` of SolveState: the top's active strand, and then the callers'.
pub fn put_back(
    next: &mut [u8; PLACES],
    tail: &mut [u8; PLACES],
    len: &mut [u16; PLACES],
    entry_table: &[u8; MOST_ENTRIES],
    active: &[u16; MOST_ENTRIES],
    depth: usize,
)
    ensures { Rings (all_back entry_table.now active.now (within depth))
        next.old tail.old len.old next.new tail.new len.new }
{
    enqueue_below(next, tail, len, entry_table, active, depth);
}
