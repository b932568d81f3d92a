// logic.rs `get_or_create_table_for_ucanonical_goal` and `build_table`, writing: the goals that were noted in choosing get their tables, in
// the order noted. A new table's strands are not written: its queue has fresh places (stores, queue.rt).
ghost use Rattle.std.specs.Prelude.{◌≡◌, List};
ghost use Rattle.strands.specs.declared.Strand.{Strand};
ghost use Rattle.stores.specs.Places.{places};
ghost use Rattle.stores.specs.Queue.{store};
ghost use Rattle.control.specs.SelectSubgoal.{strands_by, noted_count};
ghost use Rattle.control.specs.MakeTables.{tables_of, tabling, table_made, tables_from};

use crate::select_subgoal::Made;
use book::access::{clause_count, first_clause, is_coinductive, is_floundered};
use sizes::{MOST_CLAUSES, MOST_GOALS, MOST_TABLES, PLACES};
use stores::numbers::upto;
use stores::queue::fresh_places;
use stores::tables::insert;
use strands::within;

// A floundered table has no strands.
fn strands_for(floundered: bool, clauses: usize) -> usize
    ensures { result ≡ strands_by floundered clauses }
{
    if floundered { 0 } else { clauses }
}

// `build_table`: a table for the goal, with the goal's flags and a fresh place for each of its clauses.
fn make_table(
    goal: &mut [u8; MOST_TABLES],
    coinductive: &mut [u8; MOST_TABLES],
    floundered: &mut [u8; MOST_TABLES],
    complete: &mut [u8; MOST_TABLES],
    next: &mut [u8; PLACES],
    tail: &mut [u8; PLACES],
    len: &mut [u16; PLACES],
    used: &mut u16,
    time: &mut [u64; PLACES],
    ambiguous: &mut [u8; PLACES],
    variant: &mut [u16; PLACES],
    waits: &mut [u8; PLACES],
    wants: &mut [u16; PLACES],
    goal_flags: &[u8; MOST_GOALS],
    goal_first: &[u16; MOST_GOALS],
    goal_len: &[u16; MOST_GOALS],
    clause_variant: &[u16; MOST_CLAUSES],
    clause_flags: &[u8; MOST_CLAUSES],
    count: usize,
    g: u8,
) -> usize
    ensures { (strands : List Strand)
        → tabling (tables_of result goal.new coinductive.new floundered.new complete.new)
        (store strands time.new ambiguous.new variant.new waits.new wants.new
        (places next.new tail.new len.new used.new))
        ≡ table_made goal_flags.now goal_first.now goal_len.now clause_variant.now
        clause_flags.now g
        (tabling (tables_of count goal.old coinductive.old floundered.old complete.old)
        (store strands time.old ambiguous.old variant.old waits.old wants.old
        (places next.old tail.old len.old used.old))) }
{
    let k = g as usize;
    let flounders = is_floundered(goal_flags, k);
    let t = upto(count) as u8;
    let first = first_clause(goal_first, k);
    let strands = strands_for(flounders, clause_count(goal_len, k));
    fresh_places(
        next,
        tail,
        len,
        used,
        time,
        ambiguous,
        variant,
        waits,
        wants,
        clause_variant,
        clause_flags,
        t,
        first,
        strands,
    );
    let coinduces = is_coinductive(goal_flags, k);
    insert(
        goal,
        coinductive,
        floundered,
        complete,
        count,
        g,
        coinduces,
        flounders,
    )
}

// The goals noted get their tables: how many tables there are then.
pub fn make_tables(
    goal: &mut [u8; MOST_TABLES],
    coinductive: &mut [u8; MOST_TABLES],
    floundered: &mut [u8; MOST_TABLES],
    complete: &mut [u8; MOST_TABLES],
    next: &mut [u8; PLACES],
    tail: &mut [u8; PLACES],
    len: &mut [u16; PLACES],
    used: &mut u16,
    time: &mut [u64; PLACES],
    ambiguous: &mut [u8; PLACES],
    variant: &mut [u16; PLACES],
    waits: &mut [u8; PLACES],
    wants: &mut [u16; PLACES],
    goal_flags: &[u8; MOST_GOALS],
    goal_first: &[u16; MOST_GOALS],
    goal_len: &[u16; MOST_GOALS],
    clause_variant: &[u16; MOST_CLAUSES],
    clause_flags: &[u8; MOST_CLAUSES],
    count: usize,
    made: Made,
) -> usize
    ensures { (strands : List Strand)
        → tabling (tables_of result goal.new coinductive.new floundered.new complete.new)
        (store strands time.new ambiguous.new variant.new waits.new wants.new
        (places next.new tail.new len.new used.new))
        ≡ tables_from goal_flags.now goal_first.now goal_len.now clause_variant.now
        clause_flags.now made.goals (noted_count made) 0
        (tabling (tables_of count goal.old coinductive.old floundered.old complete.old)
        (store strands time.old ambiguous.old variant.old waits.old wants.old
        (places next.old tail.old len.old used.old))) }
{
    let mut tables = count;
    for i in 0..within(made.count) {
        tables = make_table(
            goal,
            coinductive,
            floundered,
            complete,
            next,
            tail,
            len,
            used,
            time,
            ambiguous,
            variant,
            waits,
            wants,
            goal_flags,
            goal_first,
            goal_len,
            clause_variant,
            clause_flags,
            tables,
            made.goals[i],
        );
    }
    tables
}
