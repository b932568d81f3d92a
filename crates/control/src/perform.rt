// A turn done, writing only: what was decided about it is done to the lent numbers, and whoever owns the strands and the answers is told
// what stands where.
ghost use Rattle.std.specs.Prelude.{◌≡◌, List};
ghost use Rattle.strands.specs.declared.Answer.{Answer};
ghost use Rattle.strands.specs.declared.Strand.{Strand};
ghost use Rattle.stores.specs.Places.{places};
ghost use Rattle.stores.specs.Queue.{store};
ghost use Rattle.control.specs.MakeTables.{tables_of};
ghost use Rattle.control.specs.PerformDeed.{stack_of, answers_of};
ghost use Rattle.control.specs.PerformStrand.{lent_of, turn_by};
ghost use Rattle.control.specs.Perform.{stays_as, has_strand, stops, stop_flow, performed};

use crate::decision::{Decision, Deed};
use crate::ensure_root_answer::{Next, Top};
use crate::on_no_strands_left::Idle;
use crate::perform_idle::perform_idle;
use crate::perform_strand::perform_strand;
use crate::performed::{Carried, Flow, Performed};
use crate::select_subgoal::Made;
use sizes::{MOST_CLAUSES, MOST_ENTRIES, MOST_GOALS, MOST_TABLES, PLACES};
use strands::{Answer, Strand};

// A turn that leaves everything where it is.
fn stays(flow: Flow, place: u8, s: Strand, seen: u8, a: Answer, was: Carried) -> Performed
    ensures { result ≡ stays_as flow place s seen a was }
{
    Performed {
        flow,
        copy_place: place,
        copy: s,
        place,
        strand: s,
        answer_place: seen,
        answer: a,
        count: was.count,
        depth: was.depth,
        clock: was.clock,
        used: was.used,
        answer_used: was.answer_used,
    }
}

fn has_strand(idle: Idle) -> bool
    ensures { result ≡ has_strand idle }
{
    match idle {
        Idle::Nothing => true,
        Idle::Finishes => false,
        Idle::CallerFailed => false,
        Idle::CallerProved => false,
        Idle::ChangesMode => false,
        Idle::NegativeCycle => false,
        Idle::Clears => false,
        Idle::PartOfCycle => false,
    }
}

fn stops(deed: Deed) -> bool
    ensures { result ≡ stops deed }
{
    match deed {
        Deed::Stop(_) => true,
        Deed::GoesOn => false,
        Deed::GivesUp => false,
        Deed::Cycles(_) => false,
        Deed::Pushes(_) => false,
        Deed::Requeues => false,
        Deed::Flounders => false,
        Deed::Answers(_) => false,
    }
}

fn flow_of_stop(deed: Deed) -> Flow
    ensures { result ≡ stop_flow deed }
{
    match deed {
        Deed::Stop(n) => Flow::Stop(n),
        Deed::GoesOn => Flow::Continue,
        Deed::GivesUp => Flow::Continue,
        Deed::Cycles(_) => Flow::Continue,
        Deed::Pushes(_) => Flow::Continue,
        Deed::Requeues => Flow::Continue,
        Deed::Flounders => Flow::Continue,
        Deed::Answers(_) => Flow::Continue,
    }
}

// The turn is done: with the strand at this place, or the caller's where there is none to go on with; s is the strand that was read there,
// and a the answer that was read at the place `seen`. A stop leaves everything as it is.
pub fn perform(
    idle: Idle,
    d: Decision,
    made: Made,
    p: Next,
    top: Top,
    place: u8,
    s: Strand,
    seen: u8,
    a: Answer,
    was: Carried,
    goal: &mut [u8; MOST_TABLES],
    coinductive: &mut [u8; MOST_TABLES],
    floundered: &mut [u8; MOST_TABLES],
    complete: &mut [u8; MOST_TABLES],
    next: &mut [u8; PLACES],
    tail: &mut [u8; PLACES],
    len: &mut [u16; PLACES],
    time: &mut [u64; PLACES],
    ambiguous: &mut [u8; PLACES],
    variant: &mut [u16; PLACES],
    waits: &mut [u8; PLACES],
    wants: &mut [u16; PLACES],
    answer_next: &mut [u8; PLACES],
    answer_tail: &mut [u8; PLACES],
    answer_len: &mut [u16; PLACES],
    answer_variant: &mut [u16; PLACES],
    answer_key: &mut [u64; PLACES],
    answer_ambiguous: &mut [u8; PLACES],
    entry_table: &mut [u8; MOST_ENTRIES],
    entry_clock: &mut [u64; MOST_ENTRIES],
    positive: &mut [u64; MOST_ENTRIES],
    negative: &mut [u64; MOST_ENTRIES],
    active: &mut [u16; MOST_ENTRIES],
    goal_flags: &[u8; MOST_GOALS],
    goal_first: &[u16; MOST_GOALS],
    goal_len: &[u16; MOST_GOALS],
    clause_variant: &[u16; MOST_CLAUSES],
    clause_flags: &[u8; MOST_CLAUSES],
) -> Performed
    ensures { (strands : List Strand) (answers : List Answer)
        → turn_by result (tables_of result.count goal.new coinductive.new floundered.new complete.new)
        (store strands time.new ambiguous.new variant.new waits.new wants.new
        (places next.new tail.new len.new result.used))
        (answers_of answers answer_variant.new answer_key.new answer_ambiguous.new
        (places answer_next.new answer_tail.new answer_len.new result.answer_used))
        (stack_of result.depth entry_table.new entry_clock.new positive.new negative.new
        active.new)
        ≡ performed goal_flags.now goal_first.now goal_len.now
        clause_variant.now clause_flags.now p top made d place s seen a idle
        (lent_of
        (tables_of was.count goal.old coinductive.old floundered.old complete.old)
        (store strands time.old ambiguous.old variant.old waits.old wants.old
        (places next.old tail.old len.old was.used))
        (answers_of answers answer_variant.old answer_key.old answer_ambiguous.old
        (places answer_next.old answer_tail.old answer_len.old was.answer_used))
        (stack_of was.depth entry_table.old entry_clock.old positive.old negative.old
        active.old) was.clock) }
{
    if has_strand(idle) {
        let deed = d.deed;
        if stops(deed) {
            return stays(flow_of_stop(deed), place, s, seen, a, was);
        }
        return perform_strand(
            d,
            made,
            p,
            top,
            seen,
            was,
            goal,
            coinductive,
            floundered,
            complete,
            next,
            tail,
            len,
            time,
            ambiguous,
            variant,
            waits,
            wants,
            answer_next,
            answer_tail,
            answer_len,
            answer_variant,
            answer_key,
            answer_ambiguous,
            entry_table,
            entry_clock,
            positive,
            negative,
            active,
            goal_flags,
            goal_first,
            goal_len,
            clause_variant,
            clause_flags,
        );
    }
    let i = perform_idle(
        idle,
        top.table,
        was.depth,
        place,
        s,
        next,
        tail,
        len,
        time,
        ambiguous,
        variant,
        waits,
        wants,
        complete,
        entry_table,
        entry_clock,
        positive,
        negative,
        active,
    );
    let flow = i.flow;
    let strand = i.strand;
    let now = Carried {
        depth: i.depth,
        ..was
    };
    stays(flow, place, strand, seen, a, now)
}
