// What is done about the strand in hand, deed by deed (crate `small_steps`, `perform_deed`), over lent numbers. The strand's place is in
// nobody's ring, and its numbers are written. Nothing here stops, but for a decision that is a stop already.
ghost use Rattle.std.specs.Prelude.{◌≡◌, List, ℕ, ltb};
ghost use Rattle.strands.specs.Times.{incremented};
ghost use Rattle.stores.specs.Numbers.{written_at};
ghost use Rattle.stores.specs.Places.{places, enqueued};
ghost use Rattle.strands.specs.declared.Answer.{Answer};
ghost use Rattle.stores.specs.Stack.{pushed, activated};
ghost use Rattle.definitions.specs.{MAX};
ghost use Rattle.control.specs.UnwindStack.{Rings};
ghost use Rattle.control.specs.PerformDeed.{stack_of, answers_of, left_rings, left_active, given_up, emptied, emptied_if, seated};
ghost use Rattle.control.specs.PerformDeed.{new_place, answer_kept, answer_flow, moving, did_by, deed_done};

use crate::decision::Deed;
use crate::on_positive_cycle::on_positive_cycle;
use crate::performed::Flow;
use crate::unwind_stack::unwind_stack;
use rings::{ring_enqueue, ring_move, ring_unlink};
use sizes::{MOST_ENTRIES, MOST_TABLES, PLACES};
use stores::places::take_place;
use stores::stack::{pop, push_entry, set_active};
use stores::table::{mark_floundered, number_answer};
use strands::Answer;
use strands::times::TimeStamp;

// The strand leaves its origin: the queue of the top's table, behind the place `before`, or the top's entry.
pub fn leave(
    next: &mut [u8; PLACES],
    tail: &mut [u8; PLACES],
    len: &mut [u16; PLACES],
    active: &mut [u16; MOST_ENTRIES],
    queued: bool,
    before: u8,
    t: u8,
    depth: usize,
)
    ensures { Rings (left_rings queued t before) next.old tail.old len.old
        next.new tail.new len.new
        × (active.new ≡ left_active queued depth active.old) }
{
    if queued {
        ring_unlink(next, tail, len, t, before);
        return;
    }
    set_active(active, depth, 256);
}

// A strand is given up, and with it the search: its place is free, and the stack is unwound.
pub fn give_up(
    next: &mut [u8; PLACES],
    tail: &mut [u8; PLACES],
    len: &mut [u16; PLACES],
    entry_table: &[u8; MOST_ENTRIES],
    active: &[u16; MOST_ENTRIES],
    place: u8,
    depth: usize,
)
    ensures { Rings (given_up entry_table.now active.now depth place)
        next.old tail.old len.old next.new tail.new len.new }
{
    ring_enqueue(next, tail, len, 64, place);
    unwind_stack(next, tail, len, entry_table, active, depth);
}

// What a push leaves.
#[derive(Clone, Copy)]
pub struct Pushed {
    pub depth: usize,
    pub clock: u64,
}

// The last lines of `on_subgoal_selected`: the strand waits in its entry, and the table that it waits on is pushed, at the clock's next
// time.
pub fn push_table(
    entry_table: &mut [u8; MOST_ENTRIES],
    entry_clock: &mut [u64; MOST_ENTRIES],
    positive: &mut [u64; MOST_ENTRIES],
    negative: &mut [u64; MOST_ENTRIES],
    active: &mut [u16; MOST_ENTRIES],
    depth: usize,
    place: u8,
    t: u8,
    clock: u64,
) -> Pushed
    ensures { (stack_of result.depth entry_table.new entry_clock.new positive.new
        negative.new active.new
        ≡ pushed t (incremented clock) MAX (activated place (stack_of depth entry_table.old entry_clock.old
        positive.old negative.old active.old)))
        × (result.clock ≡ incremented clock) }
{
    let was = TimeStamp { clock };
    let time = was.increment();
    set_active(active, depth, place as u16);
    let above = push_entry(
        entry_table,
        entry_clock,
        positive,
        negative,
        active,
        depth,
        t,
        time.clock,
        TimeStamp::MAX.clock,
    );
    Pushed {
        depth: above,
        clock: time.clock,
    }
}

// A table's queue is emptied: its places are free.
fn empty_queue(
    next: &mut [u8; PLACES],
    tail: &mut [u8; PLACES],
    len: &mut [u16; PLACES],
    t: u8,
    empties: bool,
)
    ensures { Rings (emptied_if empties t) next.old tail.old len.old
        next.new tail.new len.new }
{
    if empties {
        ring_move(next, tail, len, t, 64);
    }
}

// `pursue_answer`, where the answer is too large to keep: the table flounders, and the search is given up.
fn flounder_table(
    floundered: &mut [u8; MOST_TABLES],
    next: &mut [u8; PLACES],
    tail: &mut [u8; PLACES],
    len: &mut [u16; PLACES],
    answer_next: &mut [u8; PLACES],
    answer_tail: &mut [u8; PLACES],
    answer_len: &mut [u16; PLACES],
    entry_table: &[u8; MOST_ENTRIES],
    active: &[u16; MOST_ENTRIES],
    t: u8,
    place: u8,
    depth: usize,
)
    ensures { (floundered.new ≡ written_at t 1 floundered.old)
        × Rings (λ p. given_up entry_table.now active.now depth place (emptied t p))
        next.old tail.old len.old next.new tail.new len.new
        × Rings (emptied t) answer_next.old answer_tail.old answer_len.old
        answer_next.new answer_tail.new answer_len.new }
{
    mark_floundered(
        floundered,
        next,
        tail,
        len,
        answer_next,
        answer_tail,
        answer_len,
        t,
    );
    give_up(next, tail, len, entry_table, active, place, depth);
}

// Where a new answer stands, and what that leaves of the places that were never used.
#[derive(Clone, Copy)]
pub struct Kept {
    pub place: u8,
    pub used: u16,
}

// A new answer of the table, with its numbers beside it. A store that is full was seen in deciding (23).
fn keep_answer(
    answer_next: &mut [u8; PLACES],
    answer_tail: &mut [u8; PLACES],
    answer_len: &mut [u16; PLACES],
    answer_used: u16,
    answer_variant: &mut [u16; PLACES],
    answer_key: &mut [u64; PLACES],
    answer_ambiguous: &mut [u8; PLACES],
    t: u8,
    x: Answer,
) -> Kept
    ensures { (result.place
        ≡ new_place (places answer_next.old answer_tail.old answer_len.old answer_used))
        × ((answers : List Answer)
        → answers_of answers answer_variant.new answer_key.new answer_ambiguous.new
        (places answer_next.new answer_tail.new answer_len.new result.used)
        ≡ answer_kept t x (answers_of answers answer_variant.old answer_key.old answer_ambiguous.old
        (places answer_next.old answer_tail.old answer_len.old answer_used))) }
{
    let mut used = answer_used;
    let place = take_place(answer_next, answer_tail, answer_len, &mut used).unwrap_or(0);
    number_answer(answer_variant, answer_key, answer_ambiguous, place, x);
    ring_enqueue(answer_next, answer_tail, answer_len, t, place);
    Kept { place, used }
}

fn ring_for(refines: bool, t: u8) -> u8
    ensures { result ≡ seated refines t }
{
    if refines { t } else { 64 }
}

// The place of a strand that has given its answer: the refinement strand stands there, in the table's queue, or it is free.
fn leave_answer(
    next: &mut [u8; PLACES],
    tail: &mut [u8; PLACES],
    len: &mut [u16; PLACES],
    t: u8,
    place: u8,
    empties: bool,
    refines: bool,
)
    ensures { Rings (λ p. enqueued (seated refines t) place (emptied_if empties t p))
        next.old tail.old len.old next.new tail.new len.new }
{
    empty_queue(next, tail, len, t, empties);
    ring_enqueue(next, tail, len, ring_for(refines, t), place);
}

// The caller goes on, or the root has its answer.
fn flow_of_answer(depth: usize) -> Flow
    ensures { result ≡ answer_flow (ltb depth 2) }
{
    if depth < 2 {
        Flow::ReturnOk
    } else {
        Flow::Continue
    }
}

// How a deed ends: the flow, the stack's depth and the clock, where the answer that is written stands, and the answers' places in use.
#[derive(Clone, Copy)]
pub struct Done {
    pub flow: Flow,
    pub depth: usize,
    pub clock: u64,
    pub answer_place: u8,
    pub answer_used: u16,
}

// The deed is done: `not` is the sign of the strand's last literal, x the answer that it gives, `refines` whether its place holds a
// refinement strand from now on, and `seen` the place of the answer that was read.
pub fn perform_deed(
    deed: Deed,
    not: bool,
    refines: bool,
    x: Answer,
    t: u8,
    place: u8,
    was: Done,
    next: &mut [u8; PLACES],
    tail: &mut [u8; PLACES],
    len: &mut [u16; PLACES],
    floundered: &mut [u8; MOST_TABLES],
    answer_next: &mut [u8; PLACES],
    answer_tail: &mut [u8; PLACES],
    answer_len: &mut [u16; PLACES],
    answer_variant: &mut [u16; PLACES],
    answer_key: &mut [u64; PLACES],
    answer_ambiguous: &mut [u8; PLACES],
    entry_table: &mut [u8; MOST_ENTRIES],
    entry_clock: &mut [u64; MOST_ENTRIES],
    positive: &mut [u64; MOST_ENTRIES],
    negative: &mut [u64; MOST_ENTRIES],
    active: &mut [u16; MOST_ENTRIES],
) -> Done
    ensures { (used : ℕ) (answers : List Answer)
        → did_by result (places next.new tail.new len.new used) floundered.new
        (answers_of answers answer_variant.new answer_key.new answer_ambiguous.new
        (places answer_next.new answer_tail.new answer_len.new result.answer_used))
        (stack_of result.depth entry_table.new entry_clock.new positive.new negative.new
        active.new)
        ≡ deed_done not refines x t place was.answer_place deed
        (moving (places next.old tail.old len.old used) floundered.old
        (answers_of answers answer_variant.old answer_key.old answer_ambiguous.old
        (places answer_next.old answer_tail.old answer_len.old was.answer_used))
        (stack_of was.depth entry_table.old entry_clock.old positive.old negative.old
        active.old) was.clock) }
{
    match deed {
        Deed::Stop(n) => {
            let flow = Flow::Stop(n);
            Done { flow, ..was }
        }
        Deed::GoesOn => {
            set_active(active, was.depth, place as u16);
            let flow = Flow::Continue;
            Done { flow, ..was }
        }
        Deed::GivesUp => {
            give_up(next, tail, len, entry_table, active, place, was.depth);
            let flow = Flow::QuantumExceeded;
            Done {
                flow,
                depth: 0,
                ..was
            }
        }
        Deed::Cycles(height) => {
            on_positive_cycle(
                next,
                tail,
                len,
                entry_clock,
                positive,
                negative,
                was.depth,
                height,
                not,
                t,
                place,
            );
            let flow = Flow::Continue;
            Done { flow, ..was }
        }
        Deed::Pushes(table) => {
            let p = push_table(
                entry_table,
                entry_clock,
                positive,
                negative,
                active,
                was.depth,
                place,
                table,
                was.clock,
            );
            let flow = Flow::Continue;
            Done {
                flow,
                depth: p.depth,
                clock: p.clock,
                ..was
            }
        }
        Deed::Requeues => {
            ring_enqueue(next, tail, len, t, place);
            let flow = Flow::QuantumExceeded;
            Done { flow, ..was }
        }
        Deed::Flounders => {
            flounder_table(
                floundered,
                next,
                tail,
                len,
                answer_next,
                answer_tail,
                answer_len,
                entry_table,
                active,
                t,
                place,
                was.depth,
            );
            let flow = Flow::QuantumExceeded;
            Done {
                flow,
                depth: 0,
                ..was
            }
        }
        Deed::Answers(empties) => {
            let k = keep_answer(
                answer_next,
                answer_tail,
                answer_len,
                was.answer_used,
                answer_variant,
                answer_key,
                answer_ambiguous,
                t,
                x,
            );
            leave_answer(next, tail, len, t, place, empties, refines);
            let flow = flow_of_answer(was.depth);
            Done {
                flow,
                depth: pop(was.depth),
                clock: was.clock,
                answer_place: k.place,
                answer_used: k.used,
            }
        }
    }
}
