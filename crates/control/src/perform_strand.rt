// A turn with a strand, done: the strand leaves its origin, the goals noted get their tables, the copy for the next answer is queued, the
// strand's numbers are written, and then the deed is done (crate `small_steps`, `perform` of `takes`).
ghost use Rattle.std.specs.Prelude.{◌≡◌, List};
ghost use Rattle.strands.specs.declared.Answer.{Answer};
ghost use Rattle.strands.specs.declared.Strand.{Strand};
ghost use Rattle.stores.specs.Places.{places};
ghost use Rattle.stores.specs.Queue.{store};
ghost use Rattle.control.specs.SelectSubgoal.{noted_count};
ghost use Rattle.control.specs.MakeTables.{tables_of, tabling, tables_from};
ghost use Rattle.control.specs.PerformDeed.{stack_of, answers_of, left_rings, left_active};
ghost use Rattle.control.specs.CreateRefinementStrand.{strand_left};
ghost use Rattle.control.specs.PerformStrand.{lent_of, copy_noted, copy_place};
ghost use Rattle.control.specs.PerformStrand.{settled_as, settled, turn_by, strand_performed};

use crate::create_refinement_strand::strand_left;
use crate::decision::Decision;
use crate::ensure_root_answer::{Next, Top};
use crate::make_tables::make_tables;
use crate::perform_deed::{Done, leave, perform_deed};
use crate::performed::{Carried, Flow, Performed};
use crate::select_subgoal::{Made, last_literal};
use rings::ring_enqueue;
use sizes::{MOST_CLAUSES, MOST_ENTRIES, MOST_GOALS, MOST_TABLES, PLACES};
use stores::places::take_place;
use stores::queue::number_strand;
use strands::Strand;
use strands::literals::is_negative;

// The strand leaves its origin, and the goals noted get their tables: how many tables there are then.
fn begin_turn(
    p: Next,
    made: Made,
    t: u8,
    depth: usize,
    count: usize,
    goal: &mut [u8; MOST_TABLES],
    coinductive: &mut [u8; MOST_TABLES],
    floundered: &mut [u8; MOST_TABLES],
    complete: &mut [u8; MOST_TABLES],
    next: &mut [u8; PLACES],
    tail: &mut [u8; PLACES],
    len: &mut [u16; PLACES],
    used: &mut u16,
    time: &mut [u64; PLACES],
    ambiguous: &mut [u8; PLACES],
    variant: &mut [u16; PLACES],
    waits: &mut [u8; PLACES],
    wants: &mut [u16; PLACES],
    active: &mut [u16; MOST_ENTRIES],
    goal_flags: &[u8; MOST_GOALS],
    goal_first: &[u16; MOST_GOALS],
    goal_len: &[u16; MOST_GOALS],
    clause_variant: &[u16; MOST_CLAUSES],
    clause_flags: &[u8; MOST_CLAUSES],
) -> usize
    ensures { (active.new ≡ left_active p.queued depth active.old) × ((strands : List Strand)
        → tabling (tables_of result goal.new coinductive.new floundered.new complete.new)
        (store strands time.new ambiguous.new variant.new waits.new wants.new
        (places next.new tail.new len.new used.new))
        ≡ tables_from goal_flags.now goal_first.now goal_len.now clause_variant.now
        clause_flags.now made.goals (noted_count made) 0
        (tabling (tables_of count goal.old coinductive.old floundered.old complete.old)
        (store strands time.old ambiguous.old variant.old waits.old wants.old
        (left_rings p.queued t p.before
        (places next.old tail.old len.old used.old))))) }
{
    leave(next, tail, len, active, p.queued, p.before, t, depth);
    make_tables(
        goal,
        coinductive,
        floundered,
        complete,
        next,
        tail,
        len,
        used,
        time,
        ambiguous,
        variant,
        waits,
        wants,
        goal_flags,
        goal_first,
        goal_len,
        clause_variant,
        clause_flags,
        count,
        made,
    )
}

// The copy for the next answer, pursued at this time, waits at the end of the table's queue: its place, or the strand's own where there is
// no copy. A store that is full was seen in deciding (22).
fn store_copy(
    copies: bool,
    copy: Strand,
    at: u64,
    t: u8,
    place: u8,
    next: &mut [u8; PLACES],
    tail: &mut [u8; PLACES],
    len: &mut [u16; PLACES],
    used: &mut u16,
    time: &mut [u64; PLACES],
    ambiguous: &mut [u8; PLACES],
    variant: &mut [u16; PLACES],
    waits: &mut [u8; PLACES],
    wants: &mut [u16; PLACES],
) -> u8
    ensures { (result ≡ copy_place copies place (places next.old tail.old len.old used.old))
        × ((strands : List Strand)
        → store strands time.new ambiguous.new variant.new waits.new wants.new
        (places next.new tail.new len.new used.new)
        ≡ copy_noted copies t at copy
        (store strands time.old ambiguous.old variant.old waits.old wants.old
        (places next.old tail.old len.old used.old))) }
{
    if copies {
        let k = take_place(next, tail, len, used).unwrap_or(0);
        number_strand(time, ambiguous, variant, waits, wants, k, at, copy);
        ring_enqueue(next, tail, len, t, k);
        return k;
    }
    place
}

// What settling leaves: the copy's place, and what stands at the strand's own.
#[derive(Clone, Copy)]
pub struct Settled {
    pub copy_place: u8,
    pub strand: Strand,
    pub refines: bool,
}

// The copy and the strand, with their numbers: the strand's place is then in nobody's ring still.
fn settle(
    d: Decision,
    t: u8,
    place: u8,
    at: u64,
    depth: usize,
    next: &mut [u8; PLACES],
    tail: &mut [u8; PLACES],
    len: &mut [u16; PLACES],
    used: &mut u16,
    time: &mut [u64; PLACES],
    ambiguous: &mut [u8; PLACES],
    variant: &mut [u16; PLACES],
    waits: &mut [u8; PLACES],
    wants: &mut [u16; PLACES],
) -> Settled
    ensures { (result ≡ settled_as d (strand_left d.deed depth d.answer d.strand at) place
        (places next.old tail.old len.old used.old)) × ((strands : List Strand)
        → store strands time.new ambiguous.new variant.new waits.new wants.new
        (places next.new tail.new len.new used.new)
        ≡ settled d (strand_left d.deed depth d.answer d.strand at) t place at
        (store strands time.old ambiguous.old variant.old waits.old wants.old
        (places next.old tail.old len.old used.old))) }
{
    let copy = d.copy;
    let copy_place = store_copy(
        d.copies, copy, at, t, place, next, tail, len, used, time, ambiguous, variant, waits, wants,
    );
    let deed = d.deed;
    let x = d.answer;
    let s = d.strand;
    let l = strand_left(deed, x, s, depth, at);
    let strand = l.strand;
    number_strand(
        time, ambiguous, variant, waits, wants, place, l.time, strand,
    );
    Settled {
        copy_place,
        strand,
        refines: l.refines,
    }
}

// `seen` is the place of the answer that was read.
pub fn perform_strand(
    d: Decision,
    made: Made,
    p: Next,
    top: Top,
    seen: u8,
    was: Carried,
    goal: &mut [u8; MOST_TABLES],
    coinductive: &mut [u8; MOST_TABLES],
    floundered: &mut [u8; MOST_TABLES],
    complete: &mut [u8; MOST_TABLES],
    next: &mut [u8; PLACES],
    tail: &mut [u8; PLACES],
    len: &mut [u16; PLACES],
    time: &mut [u64; PLACES],
    ambiguous: &mut [u8; PLACES],
    variant: &mut [u16; PLACES],
    waits: &mut [u8; PLACES],
    wants: &mut [u16; PLACES],
    answer_next: &mut [u8; PLACES],
    answer_tail: &mut [u8; PLACES],
    answer_len: &mut [u16; PLACES],
    answer_variant: &mut [u16; PLACES],
    answer_key: &mut [u64; PLACES],
    answer_ambiguous: &mut [u8; PLACES],
    entry_table: &mut [u8; MOST_ENTRIES],
    entry_clock: &mut [u64; MOST_ENTRIES],
    positive: &mut [u64; MOST_ENTRIES],
    negative: &mut [u64; MOST_ENTRIES],
    active: &mut [u16; MOST_ENTRIES],
    goal_flags: &[u8; MOST_GOALS],
    goal_first: &[u16; MOST_GOALS],
    goal_len: &[u16; MOST_GOALS],
    clause_variant: &[u16; MOST_CLAUSES],
    clause_flags: &[u8; MOST_CLAUSES],
) -> Performed
    ensures { (strands : List Strand) (answers : List Answer)
        → turn_by result (tables_of result.count goal.new coinductive.new floundered.new complete.new)
        (store strands time.new ambiguous.new variant.new waits.new wants.new
        (places next.new tail.new len.new result.used))
        (answers_of answers answer_variant.new answer_key.new answer_ambiguous.new
        (places answer_next.new answer_tail.new answer_len.new result.answer_used))
        (stack_of result.depth entry_table.new entry_clock.new positive.new negative.new
        active.new)
        ≡ strand_performed goal_flags.now goal_first.now goal_len.now
        clause_variant.now clause_flags.now p top made d seen
        (lent_of
        (tables_of was.count goal.old coinductive.old floundered.old complete.old)
        (store strands time.old ambiguous.old variant.old waits.old wants.old
        (places next.old tail.old len.old was.used))
        (answers_of answers answer_variant.old answer_key.old answer_ambiguous.old
        (places answer_next.old answer_tail.old answer_len.old was.answer_used))
        (stack_of was.depth entry_table.old entry_clock.old positive.old negative.old
        active.old) was.clock) }
{
    let mut used = was.used;
    let count = begin_turn(
        p,
        made,
        top.table,
        was.depth,
        was.count,
        goal,
        coinductive,
        floundered,
        complete,
        next,
        tail,
        len,
        &mut used,
        time,
        ambiguous,
        variant,
        waits,
        wants,
        active,
        goal_flags,
        goal_first,
        goal_len,
        clause_variant,
        clause_flags,
    );
    let w = settle(
        d, top.table, p.place, top.clock, was.depth, next, tail, len, &mut used, time, ambiguous,
        variant, waits, wants,
    );
    let deed = d.deed;
    let x = d.answer;
    let s = d.strand;
    let not = is_negative(last_literal(s));
    let flow = Flow::Continue;
    let begun = Done {
        flow,
        depth: was.depth,
        clock: was.clock,
        answer_place: seen,
        answer_used: was.answer_used,
    };
    let done = perform_deed(
        deed,
        not,
        w.refines,
        x,
        top.table,
        p.place,
        begun,
        next,
        tail,
        len,
        floundered,
        answer_next,
        answer_tail,
        answer_len,
        answer_variant,
        answer_key,
        answer_ambiguous,
        entry_table,
        entry_clock,
        positive,
        negative,
        active,
    );
    let copy = d.copy;
    let strand = w.strand;
    let end = done.flow;
    Performed {
        flow: end,
        copy_place: w.copy_place,
        copy,
        place: p.place,
        strand,
        answer_place: done.answer_place,
        answer: x,
        count,
        depth: done.depth,
        clock: done.clock,
        used,
        answer_used: done.answer_used,
    }
}
