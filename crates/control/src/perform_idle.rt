// What is done where the top has no strand to go on with (crate `small_steps`, the acts without one), over lent numbers.
ghost use Rattle.std.specs.Prelude.{◌≡◌, List, ℕ, ◌-◌, false};
ghost use Rattle.strands.specs.declared.Strand.{Strand};
ghost use Rattle.stores.specs.Places.{places};
ghost use Rattle.stores.specs.Queue.{store};
ghost use Rattle.stores.specs.Stack.{caller_taken};
ghost use Rattle.control.specs.ClearStrandsAfterCycle.{clear, cleared};
ghost use Rattle.control.specs.OnNoStrandsLeft.{caller_waits_on_not, minimum_at};
ghost use Rattle.control.specs.OnPositiveCycle.{minimums_at, cycled};
ghost use Rattle.control.specs.UnwindStack.{Rings};
ghost use Rattle.control.specs.PerformDeed.{stack_of};
ghost use Rattle.control.specs.PerformIdle.{caller_failed, proved, caller_proved, cycle_cleared, caller_table, rejoined};
ghost use Rattle.control.specs.PerformIdle.{clearing_flow, clearing_depth, idling, idled_by, idle_done};

use crate::clear_strands_after_cycle::clear_strands_after_cycle;
use crate::on_no_strands_left::{Idle, caller_waits_on_not, minimum_at};
use crate::on_positive_cycle::{minimums_of, take_cycle};
use crate::performed::Flow;
use crate::unwind_stack::{enqueue_active, unwind_stack};
use sizes::{MOST_ENTRIES, MOST_TABLES, PLACES};
use stores::numbers::{FREE, set_flag};
use stores::queue::number_strand;
use stores::stack::{caller_place, pop, take_caller};
use strands::Strand;
use strands::fields::deselected;
use strands::literals::without_last;

// The caller's literal fails with the top's goal, and with it the search: the place of the caller's strand is free, and the stack below is
// unwound.
fn fail_caller(
    next: &mut [u8; PLACES],
    tail: &mut [u8; PLACES],
    len: &mut [u16; PLACES],
    entry_table: &[u8; MOST_ENTRIES],
    active: &[u16; MOST_ENTRIES],
    depth: usize,
)
    ensures { Rings (caller_failed entry_table.now active.now depth)
        next.old tail.old len.old next.new tail.new len.new }
{
    enqueue_active(next, tail, len, FREE, caller_place(active, depth));
    unwind_stack(next, tail, len, entry_table, active, pop(depth));
}

// The caller's "not" is proved: its strand, at this place, goes on without that literal. It was pursued when it was.
fn prove_caller(
    time: &mut [u64; PLACES],
    ambiguous: &mut [u8; PLACES],
    variant: &mut [u16; PLACES],
    waits: &mut [u8; PLACES],
    wants: &mut [u16; PLACES],
    place: u8,
    s: Strand,
) -> Strand
    ensures { (result ≡ proved s) × ((strands : List Strand) (next tail len : List ℕ) (used : ℕ)
        → store strands time.new ambiguous.new variant.new waits.new wants.new
        (places next tail len used)
        ≡ caller_proved place s
        (store strands time.old ambiguous.old variant.old waits.old wants.old
        (places next tail len used))) }
{
    let x = without_last(deselected(s));
    let at = time[place as usize];
    number_strand(time, ambiguous, variant, waits, wants, place, at, x);
    x
}

// Every strand of a cycle waits on another one of it: their queues are emptied, and the stack is unwound. True where a strand has nothing
// selected (29): then nothing is written.
fn clear_cycle(
    next: &mut [u8; PLACES],
    tail: &mut [u8; PLACES],
    len: &mut [u16; PLACES],
    waits: &[u8; PLACES],
    entry_table: &[u8; MOST_ENTRIES],
    active: &[u16; MOST_ENTRIES],
    t: u8,
    depth: usize,
) -> bool
    ensures { (result ≡ (clear waits.now t (cleared false next.old tail.old len.old)).met_29)
        × Rings (cycle_cleared waits.now entry_table.now active.now t depth)
        next.old tail.old len.old next.new tail.new len.new }
{
    let n = *next;
    let l = *tail;
    let m = *len;
    let c = clear_strands_after_cycle(t, n, l, m, waits);
    if c.met_29 {
        return true;
    }
    let links = c.next;
    let ends = c.tail;
    let sizes = c.len;
    *next = links;
    *tail = ends;
    *len = sizes;
    unwind_stack(next, tail, len, entry_table, active, depth);
    false
}

// The table of the entry below the top.
fn caller_table(entry_table: &[u8; MOST_ENTRIES], depth: usize) -> u8
    ensures { result ≡ caller_table depth entry_table.now }
{
    if depth < 2 {
        return FREE;
    }
    if depth > MOST_ENTRIES {
        return FREE;
    }
    entry_table[depth - 2]
}

// The cycle goes on below the top: the caller meets it with the top's minimums, and its strand goes back to its table's queue.
pub fn rejoin_cycle(
    next: &mut [u8; PLACES],
    tail: &mut [u8; PLACES],
    len: &mut [u16; PLACES],
    waits: &[u8; PLACES],
    entry_table: &[u8; MOST_ENTRIES],
    entry_clock: &[u64; MOST_ENTRIES],
    positive: &mut [u64; MOST_ENTRIES],
    negative: &mut [u64; MOST_ENTRIES],
    active: &mut [u16; MOST_ENTRIES],
    depth: usize,
)
    ensures { (stack_of (depth - 1) entry_table.now entry_clock.now positive.new
        negative.new active.new
        ≡ cycled (caller_waits_on_not waits.now active.old depth)
        (minimums_at (minimum_at positive.old depth) (minimum_at negative.old depth))
        (caller_taken (stack_of depth entry_table.now entry_clock.now positive.old
        negative.old active.old)))
        × Rings (rejoined entry_table.now active.old depth)
        next.old tail.old len.old next.new tail.new len.new }
{
    let not = caller_waits_on_not(waits, active, depth);
    let m = minimums_of(minimum_at(positive, depth), minimum_at(negative, depth));
    let t = caller_table(entry_table, depth);
    let q = take_caller(active, depth);
    take_cycle(entry_clock, positive, negative, pop(depth), m, not);
    enqueue_active(next, tail, len, t, q);
}

// How an act without a strand ends: the flow, the stack's depth, and the caller's strand as it then is.
#[derive(Clone, Copy)]
pub struct Idled {
    pub flow: Flow,
    pub depth: usize,
    pub strand: Strand,
}

fn flow_of_clearing(met_29: bool) -> Flow
    ensures { result ≡ clearing_flow met_29 }
{
    if met_29 {
        Flow::Stop(29)
    } else {
        Flow::QuantumExceeded
    }
}

fn depth_of_clearing(met_29: bool, depth: usize) -> usize
    ensures { result ≡ clearing_depth met_29 depth }
{
    if met_29 { depth } else { 0 }
}

// The act is done; s is the caller's strand, at this place.
pub fn perform_idle(
    idle: Idle,
    t: u8,
    depth: usize,
    place: u8,
    s: Strand,
    next: &mut [u8; PLACES],
    tail: &mut [u8; PLACES],
    len: &mut [u16; PLACES],
    time: &mut [u64; PLACES],
    ambiguous: &mut [u8; PLACES],
    variant: &mut [u16; PLACES],
    waits: &mut [u8; PLACES],
    wants: &mut [u16; PLACES],
    complete: &mut [u8; MOST_TABLES],
    entry_table: &[u8; MOST_ENTRIES],
    entry_clock: &[u64; MOST_ENTRIES],
    positive: &mut [u64; MOST_ENTRIES],
    negative: &mut [u64; MOST_ENTRIES],
    active: &mut [u16; MOST_ENTRIES],
) -> Idled
    ensures { (strands : List Strand) (used : ℕ)
        → idled_by result (store strands time.new ambiguous.new variant.new waits.new
        wants.new (places next.new tail.new len.new used)) complete.new
        (stack_of result.depth entry_table.now entry_clock.now positive.new negative.new
        active.new)
        ≡ idle_done t place s idle
        (idling (store strands time.old ambiguous.old variant.old waits.old
        wants.old (places next.old tail.old len.old used)) complete.old
        (stack_of depth entry_table.now entry_clock.now positive.old negative.old
        active.old)) }
{
    match idle {
        Idle::Nothing => {
            let flow = Flow::Continue;
            Idled {
                flow,
                depth,
                strand: s,
            }
        }
        Idle::Finishes => {
            let flow = Flow::NoMoreSolutions;
            Idled {
                flow,
                depth: 0,
                strand: s,
            }
        }
        Idle::CallerFailed => {
            fail_caller(next, tail, len, entry_table, active, depth);
            let flow = Flow::QuantumExceeded;
            Idled {
                flow,
                depth: 0,
                strand: s,
            }
        }
        Idle::CallerProved => {
            let x = prove_caller(time, ambiguous, variant, waits, wants, place, s);
            let flow = Flow::Continue;
            Idled {
                flow,
                depth: pop(depth),
                strand: x,
            }
        }
        Idle::ChangesMode => {
            set_flag(complete, t, false);
            let flow = Flow::QuantumExceeded;
            Idled {
                flow,
                depth,
                strand: s,
            }
        }
        Idle::NegativeCycle => {
            unwind_stack(next, tail, len, entry_table, active, depth);
            let flow = Flow::NegativeCycle;
            Idled {
                flow,
                depth: 0,
                strand: s,
            }
        }
        Idle::Clears => {
            let met_29 = clear_cycle(next, tail, len, waits, entry_table, active, t, depth);
            let flow = flow_of_clearing(met_29);
            Idled {
                flow,
                depth: depth_of_clearing(met_29, depth),
                strand: s,
            }
        }
        Idle::PartOfCycle => {
            rejoin_cycle(
                next,
                tail,
                len,
                waits,
                entry_table,
                entry_clock,
                positive,
                negative,
                active,
                depth,
            );
            let flow = Flow::Continue;
            Idled {
                flow,
                depth: pop(depth),
                strand: s,
            }
        }
    }
}
