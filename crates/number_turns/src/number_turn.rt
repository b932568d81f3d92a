// Turns that the numbers beside the strands settle: a push, a cycle, and a table that is part of one. No strand is read or written, so
// that whoever owns the strands lets such turns go by without touching them. Every other turn is left as it is.
ghost use Rattle.std.specs.Prelude.{◌≡◌, List, ℕ, set};
ghost use Rattle.strands.specs.declared.Answer.{Answer};
ghost use Rattle.strands.specs.declared.Strand.{Strand};
ghost use Rattle.stores.specs.declared.table.Answers.{Answers};
ghost use Rattle.stores.specs.declared.tables.Tables.{Tables};
ghost use Rattle.stores.specs.Places.{places};
ghost use Rattle.stores.specs.Queue.{store};
ghost use Rattle.control.specs.MakeTables.{tables_of};
ghost use Rattle.control.specs.PerformDeed.{stack_of, answers_of, left_rings, left_active};
ghost use Rattle.control.specs.PerformStrand.{lent_of};
ghost use Rattle.control.specs.UnwindStack.{Rings};
ghost use Rattle.number_turns.specs.NumberTurn.{push_unless, move_by_look, strand_move, idle_move, move_for};
ghost use Rattle.number_turns.specs.NumberTurn.{moved, numbered_by, number_turn};

use control::choose::look_at;
use control::ensure_root_answer::{Next, Top, next_strand, top_of};
use control::on_no_strands_left::{Idle, on_no_strands_left, waits_on_not};
use control::on_positive_cycle::on_positive_cycle;
use control::on_subgoal_selected::Look;
use control::perform_deed::{leave, push_table};
use control::perform_idle::rejoin_cycle;
use sizes::{MOST_ENTRIES, MOST_TABLES, PLACES};
use stores::numbers::{WAITS_NOT, flag_at};
use stores::stack::pop;

// What the numbers settle: nothing, a push of a table, a cycle with the entry at a height, or that the top is part of a cycle.
#[derive(Clone, Copy)]
pub enum Move {
    Nothing,
    Pushes(u8),
    Cycles(u8),
    Rejoins,
}

// A push takes the next time of the clock.
fn push_unless(late: bool, table: u8) -> Move
    ensures { result ≡ push_unless late table }
{
    if late {
        return Move::Nothing;
    }
    Move::Pushes(table)
}

fn move_by_look(look: Look, late: bool) -> Move
    ensures { result ≡ move_by_look late look }
{
    match look {
        Look::Answer(_) => Move::Nothing,
        Look::Coinductive => Move::Nothing,
        Look::Cycle(height) => Move::Cycles(height),
        Look::Push(table) => push_unless(late, table),
    }
}

// By the numbers beside a strand: the table that it waits on, with its sign, and the index of the answer that it wants.
fn strand_move(
    w: u8,
    index: u16,
    late: bool,
    entry_table: &[u8; MOST_ENTRIES],
    coinductive: &[u8; MOST_TABLES],
    floundered: &[u8; MOST_TABLES],
    depth: usize,
    answer_next: &[u8; PLACES],
    answer_tail: &[u8; PLACES],
    answer_len: &[u16; PLACES],
) -> Move
    ensures { result ≡ strand_move entry_table.now coinductive.now floundered.now depth
        answer_next.now answer_tail.now answer_len.now late w index }
{
    if w >= 2 * WAITS_NOT {
        return Move::Nothing;
    }
    let t = w % WAITS_NOT;
    if flag_at(floundered, t) {
        return Move::Nothing;
    }
    let look = look_at(
        t,
        index,
        entry_table,
        coinductive,
        depth,
        answer_next,
        answer_tail,
        answer_len,
    );
    move_by_look(look, late)
}

fn idle_move(idle: Idle) -> Move
    ensures { result ≡ idle_move idle }
{
    match idle {
        Idle::Nothing => Move::Nothing,
        Idle::Finishes => Move::Nothing,
        Idle::CallerFailed => Move::Nothing,
        Idle::CallerProved => Move::Nothing,
        Idle::ChangesMode => Move::Nothing,
        Idle::NegativeCycle => Move::Nothing,
        Idle::Clears => Move::Nothing,
        Idle::PartOfCycle => Move::Rejoins,
    }
}

// By the strand that the top goes on with, or where there is none, by what is left.
fn move_for(
    p: Next,
    top: Top,
    late: bool,
    len: &[u16; PLACES],
    waits: &[u8; PLACES],
    wants: &[u16; PLACES],
    entry_table: &[u8; MOST_ENTRIES],
    positive: &[u64; MOST_ENTRIES],
    negative: &[u64; MOST_ENTRIES],
    active: &[u16; MOST_ENTRIES],
    coinductive: &[u8; MOST_TABLES],
    floundered: &[u8; MOST_TABLES],
    answer_next: &[u8; PLACES],
    answer_tail: &[u8; PLACES],
    answer_len: &[u16; PLACES],
) -> Move
    ensures { result ≡ move_for entry_table.now coinductive.now floundered.now
        answer_next.now answer_tail.now answer_len.now late len.now waits.now
        wants.now positive.now negative.now active.now p top }
{
    if p.found {
        return strand_move(
            waits[p.place as usize],
            wants[p.place as usize],
            late,
            entry_table,
            coinductive,
            floundered,
            top.depth,
            answer_next,
            answer_tail,
            answer_len,
        );
    }
    let idle = on_no_strands_left(top, len, waits, positive, negative, active);
    idle_move(idle)
}

// Whether the turn is done, and the stack's depth and the clock then.
#[derive(Clone, Copy)]
pub struct Numbered {
    pub settled: bool,
    pub depth: usize,
    pub clock: u64,
}

// The strand is pursued at the top's time: it leaves its origin.
fn pursue(
    p: Next,
    top: Top,
    depth: usize,
    next: &mut [u8; PLACES],
    tail: &mut [u8; PLACES],
    len: &mut [u16; PLACES],
    time: &mut [u64; PLACES],
    active: &mut [u16; MOST_ENTRIES],
)
    ensures { Rings (left_rings p.queued top.table p.before) next.old tail.old len.old
        next.new tail.new len.new
        × (active.new ≡ left_active p.queued depth active.old)
        × (time.new ≡ set time.old p.place top.clock) }
{
    leave(
        next, tail, len, active, p.queued, p.before, top.table, depth,
    );
    time[p.place as usize] = top.clock;
}

fn make_move(
    m: Move,
    p: Next,
    top: Top,
    depth: usize,
    clock: u64,
    next: &mut [u8; PLACES],
    tail: &mut [u8; PLACES],
    len: &mut [u16; PLACES],
    time: &mut [u64; PLACES],
    waits: &[u8; PLACES],
    entry_table: &mut [u8; MOST_ENTRIES],
    entry_clock: &mut [u64; MOST_ENTRIES],
    positive: &mut [u64; MOST_ENTRIES],
    negative: &mut [u64; MOST_ENTRIES],
    active: &mut [u16; MOST_ENTRIES],
) -> Numbered
    ensures { (tables : Tables) (strands : List Strand) (ambiguous variant wants : List ℕ) (used : ℕ) (answers : Answers)
        → numbered_by result.settled (lent_of tables
        (store strands time.new ambiguous variant waits.now wants
        (places next.new tail.new len.new used)) answers
        (stack_of result.depth entry_table.new entry_clock.new positive.new negative.new
        active.new) result.clock)
        ≡ moved p top m (lent_of tables
        (store strands time.old ambiguous variant waits.now wants
        (places next.old tail.old len.old used)) answers
        (stack_of depth entry_table.old entry_clock.old positive.old negative.old
        active.old) clock) }
{
    match m {
        Move::Nothing => Numbered {
            settled: false,
            depth,
            clock,
        },
        Move::Pushes(table) => {
            pursue(p, top, depth, next, tail, len, time, active);
            let r = push_table(
                entry_table,
                entry_clock,
                positive,
                negative,
                active,
                depth,
                p.place,
                table,
                clock,
            );
            Numbered {
                settled: true,
                depth: r.depth,
                clock: r.clock,
            }
        }
        Move::Cycles(height) => {
            pursue(p, top, depth, next, tail, len, time, active);
            let not = waits_on_not(waits[p.place as usize]);
            on_positive_cycle(
                next,
                tail,
                len,
                entry_clock,
                positive,
                negative,
                depth,
                height,
                not,
                top.table,
                p.place,
            );
            Numbered {
                settled: true,
                depth,
                clock,
            }
        }
        Move::Rejoins => {
            rejoin_cycle(
                next,
                tail,
                len,
                waits,
                entry_table,
                entry_clock,
                positive,
                negative,
                active,
                depth,
            );
            Numbered {
                settled: true,
                depth: pop(depth),
                clock,
            }
        }
    }
}

// One turn by numbers alone, where they settle it; `late` says that the clock is at its limit.
pub fn number_turn(
    depth: usize,
    clock: u64,
    late: bool,
    coinductive: &[u8; MOST_TABLES],
    floundered: &[u8; MOST_TABLES],
    complete: &[u8; MOST_TABLES],
    next: &mut [u8; PLACES],
    tail: &mut [u8; PLACES],
    len: &mut [u16; PLACES],
    time: &mut [u64; PLACES],
    ambiguous: &[u8; PLACES],
    waits: &[u8; PLACES],
    wants: &[u16; PLACES],
    answer_next: &[u8; PLACES],
    answer_tail: &[u8; PLACES],
    answer_len: &[u16; PLACES],
    entry_table: &mut [u8; MOST_ENTRIES],
    entry_clock: &mut [u64; MOST_ENTRIES],
    positive: &mut [u64; MOST_ENTRIES],
    negative: &mut [u64; MOST_ENTRIES],
    active: &mut [u16; MOST_ENTRIES],
) -> Numbered
    ensures { (count : ℕ) (goals : List ℕ) (strands : List Strand) (variant : List ℕ) (used : ℕ) (answers : List Answer)
        (variants keys flags : List ℕ) (held : ℕ)
        → numbered_by result.settled
        (lent_of (tables_of count goals coinductive.now floundered.now complete.now)
        (store strands time.new ambiguous.now variant waits.now wants.now
        (places next.new tail.new len.new used))
        (answers_of answers variants keys flags
        (places answer_next.now answer_tail.now answer_len.now held))
        (stack_of result.depth entry_table.new entry_clock.new positive.new negative.new
        active.new) result.clock)
        ≡ number_turn late
        (lent_of (tables_of count goals coinductive.now floundered.now complete.now)
        (store strands time.old ambiguous.now variant waits.now wants.now
        (places next.old tail.old len.old used))
        (answers_of answers variants keys flags
        (places answer_next.now answer_tail.now answer_len.now held))
        (stack_of depth entry_table.old entry_clock.old positive.old negative.old
        active.old) clock) }
{
    let top = top_of(entry_table, entry_clock, active, complete, depth);
    let p = next_strand(next, tail, len, time, ambiguous, top);
    let m = move_for(
        p,
        top,
        late,
        len,
        waits,
        wants,
        entry_table,
        positive,
        negative,
        active,
        coinductive,
        floundered,
        answer_next,
        answer_tail,
        answer_len,
    );
    make_move(
        m,
        p,
        top,
        depth,
        clock,
        next,
        tail,
        len,
        time,
        waits,
        entry_table,
        entry_clock,
        positive,
        negative,
        active,
    )
}
