// table.rs, the queue of strands: the strands stand at the places of a table's ring in the order in which they wait. `[Strand; PLACES]` is
// written by whoever owns it. What is read of a strand without the strand itself stands beside it in arrays of numbers, which can be lent.
ghost use Rattle.std.specs.Prelude.{◌≡◌, false, map, ◌<◌, take, get_or, set, ltb};
ghost use Rattle.std.proofs.Math.ListN.{get_elem?};
ghost use Rattle.book.specs.View.{meant};
ghost use Rattle.sizes.specs.Limits.{most_tables, most_places};
ghost use Rattle.rings.specs.Rings.{ring_of, place_number};
ghost use Rattle.stores.specs.Numbers.{flag_number};
ghost use Rattle.stores.specs.Places.{places, numbered, found_in};
ghost use Rattle.stores.specs.Queue.{is_not, waits_on, waits_of, wants_of, eligible_at, eligible, spot_from, TookStrand};
ghost use Rattle.stores.specs.Queue.{blank_strands, fresh_stored, clauses_from, fresh_each, store, Does};

use crate::numbers::{WAITS_FRESH, WAITS_NOT, WAITS_NOTHING, flag_of};
use crate::places::{Places, blank_places, find_number, take_place};
use book::Literal;
use rings::{ring_enqueue, ring_unlink};
use sizes::{MOST_CLAUSES, MOST_LITERALS, MOST_TABLES, PLACES, wide};
use strands::literals::is_negative;
use strands::making::blank;
use strands::{Selected, Strand};

// The strands by place, and the numbers beside them: `time` is when a strand was last pursued, which stands nowhere else, `waits` what it
// waits on and `wants` the answer index that it wants. A fresh place, whose strand is not written yet, has 254 in `waits` and the number of
// the strand's clause in `wants`.
#[derive(Clone, Copy)]
pub struct Strands {
    pub strands: [Strand; PLACES],
    pub time: [u64; PLACES],
    pub ambiguous: [u8; PLACES],
    pub variant: [u16; PLACES],
    pub waits: [u8; PLACES],
    pub wants: [u16; PLACES],
    pub places: Places,
}

// Every place is free, and what stands there is blank.
pub fn blank_strands() -> Strands
    ensures { result ≡ blank_strands }
{
    let b = blank();
    let p = blank_places();
    Strands {
        strands: [b; PLACES],
        time: [0; PLACES],
        ambiguous: [0; PLACES],
        variant: [0; PLACES],
        waits: [WAITS_NOTHING; PLACES],
        wants: [0; PLACES],
        places: p,
    }
}

// Whether the literal at an index of the first `count` is a "not".
fn is_not(literals: [Literal; MOST_LITERALS], count: u8, index: u8) -> bool
    ensures { result ≡ is_not (get_elem? (map meant (take count literals)) index) }
{
    if index >= count {
        return false;
    }
    let i = index as usize;
    if i >= MOST_LITERALS {
        return false;
    }
    is_negative(literals[i])
}

fn waits_on(table: u8, negative: bool) -> u8
    ensures { result ≡ waits_on (ltb table most_tables) negative table }
{
    let t = table as usize;
    if t >= MOST_TABLES {
        return WAITS_NOTHING;
    }
    if negative {
        return table + WAITS_NOT;
    }
    table
}

// What a strand waits on: the table that it has selected, 64 added where the selected literal is a "not"; 255 where nothing is selected.
pub fn waits_of(s: Strand) -> u8
    ensures { result ≡ waits_of s }
{
    let k = s.selected;
    match k {
        Selected::Nothing => WAITS_NOTHING,
        Selected::Subgoal {
            index,
            table,
            answer: _,
        } => {
            let l = s.literals;
            let negative = is_not(l, s.literal_count, index);
            waits_on(table, negative)
        }
    }
}

// The answer index that a strand has selected; 0 where nothing is.
pub fn wants_of(s: Strand) -> u16
    ensures { result ≡ wants_of s }
{
    let k = s.selected;
    match k {
        Selected::Nothing => 0,
        Selected::Subgoal {
            index: _,
            table: _,
            answer,
        } => answer,
    }
}

// The numbers beside the strand x, at its place: it was last pursued at the time `at`.
pub fn number_strand(
    time: &mut [u64; PLACES],
    ambiguous: &mut [u8; PLACES],
    variant: &mut [u16; PLACES],
    waits: &mut [u8; PLACES],
    wants: &mut [u16; PLACES],
    q: u8,
    at: u64,
    x: Strand,
)
    ensures { (time.new ≡ set time.old q at)
        × (ambiguous.new ≡ set ambiguous.old q (flag_number x.ambiguous))
        × (variant.new ≡ set variant.old q x.variant)
        × (waits.new ≡ set waits.old q (waits_of x))
        × (wants.new ≡ set wants.old q (wants_of x)) }
{
    let k = q as usize;
    time[k] = at;
    ambiguous[k] = flag_of(x.ambiguous);
    variant[k] = x.variant;
    waits[k] = waits_of(x);
    wants[k] = wants_of(x);
}

// A fresh place at the end of the table's queue, for the first strand of a clause: the clause's number stands for the strand, which nobody
// has pursued. Nothing is written where no place is free.
fn fresh_place(
    next: &mut [u8; PLACES],
    tail: &mut [u8; PLACES],
    len: &mut [u16; PLACES],
    top: &mut u16,
    time: &mut [u64; PLACES],
    ambiguous: &mut [u8; PLACES],
    variant: &mut [u16; PLACES],
    waits: &mut [u8; PLACES],
    wants: &mut [u16; PLACES],
    t: u8,
    c: u16,
    v: u16,
    flags: u8,
)
    ensures { Does (fresh_stored t c v flags)
        (λ strands. store strands time.old ambiguous.old variant.old waits.old
        wants.old (places next.old tail.old len.old top.old))
        (λ strands. store strands time.new ambiguous.new variant.new waits.new
        wants.new (places next.new tail.new len.new top.new)) }
{
    let Some(p) = take_place(next, tail, len, top) else {
        return;
    };
    let q = wide(p);
    time[q] = 0;
    ambiguous[q] = flag_of(flags % 2 == 1);
    variant[q] = v;
    waits[q] = WAITS_FRESH;
    wants[q] = c;
    ring_enqueue(next, tail, len, t, p);
}

fn clauses_from(first: usize, count: usize) -> usize
    ensures { result ≡ clauses_from first count }
{
    count.min(MOST_CLAUSES.saturating_sub(first))
}

// The places of a new table: one for each of its clauses, whose variants and flags (bit 0 "cannot prove") are lent. No strand is written:
// each is made from the book when its place is first taken.
pub fn fresh_places(
    next: &mut [u8; PLACES],
    tail: &mut [u8; PLACES],
    len: &mut [u16; PLACES],
    top: &mut u16,
    time: &mut [u64; PLACES],
    ambiguous: &mut [u8; PLACES],
    variant: &mut [u16; PLACES],
    waits: &mut [u8; PLACES],
    wants: &mut [u16; PLACES],
    clause_variant: &[u16; MOST_CLAUSES],
    clause_flags: &[u8; MOST_CLAUSES],
    t: u8,
    first: usize,
    count: usize,
)
    ensures { Does (fresh_each clause_variant.now clause_flags.now t (clauses_from first count) first)
        (λ strands. store strands time.old ambiguous.old variant.old waits.old
        wants.old (places next.old tail.old len.old top.old))
        (λ strands. store strands time.new ambiguous.new variant.new waits.new
        wants.new (places next.new tail.new len.new top.new)) }
{
    for c in first..first + clauses_from(first, count) {
        fresh_place(
            next,
            tail,
            len,
            top,
            time,
            ambiguous,
            variant,
            waits,
            wants,
            t,
            c as u16,
            clause_variant[c],
            clause_flags[c],
        );
    }
}

// Where looking along a queue came to: the place of a strand that is eligible, and the place before it in the ring. Where none is
// eligible, `before` is the last place looked at, or the table's `tail` where its queue is empty.
#[derive(Clone, Copy)]
pub struct Spot {
    pub before: u8,
    pub place: Option<u8>,
}

fn may_take(time: u64, ambiguous: u8, clock: u64, complete: bool) -> bool
    ensures { result ≡ eligible_at time ambiguous clock complete }
{
    time < clock && (!complete || ambiguous == 0)
}

// The search of `dequeue_next_strand_that`: the first strand of the table's queue that is eligible, one that was pursued before the
// clock's time and, where the table wants complete answers, isn't ambiguous (logic.rs `ensure_root_answer`). It only looks: `ring_unlink`
// takes what was found.
pub fn find_strand(
    next: &[u8; PLACES],
    tail: &[u8; PLACES],
    len: &[u16; PLACES],
    t: u8,
    time: &[u64; PLACES],
    ambiguous: &[u8; PLACES],
    clock: u64,
    complete: bool,
) -> Spot
    ensures { result ≡ spot_from (eligible time.now ambiguous.now clock complete)
        (get_or tail.now t 0) (ring_of next.now tail.now len.now t) }
{
    let mut prev = tail[t as usize];
    for _step in 0..len[t as usize] {
        let p = next[wide(prev)];
        let k = wide(p);
        if may_take(time[k], ambiguous[k], clock, complete) {
            return Spot {
                before: prev,
                place: Some(p),
            };
        }
        prev = p;
    }
    Spot {
        before: prev,
        place: None,
    }
}

// `dequeue_next_strand_that`: the place of the first eligible strand, which is in no queue from now on.
pub fn take_strand(
    next: &mut [u8; PLACES],
    tail: &mut [u8; PLACES],
    len: &mut [u16; PLACES],
    t: u8,
    time: &[u64; PLACES],
    ambiguous: &[u8; PLACES],
    clock: u64,
    complete: bool,
) -> Option<u8>
    ensures { TookStrand (eligible time.now ambiguous.now clock complete) t
        next.old tail.old len.old next.new tail.new len.new (place_number result) }
{
    let s = find_strand(next, tail, len, t, time, ambiguous, clock, complete);
    match s.place {
        Some(place) => {
            ring_unlink(next, tail, len, t, s.before);
            Some(place)
        }
        None => None,
    }
}

// The test of `any_future_answer` over the queue. No key is looked for, and the times stand in for keys.
pub fn any_strand<'a>(
    next: &'a [u8; PLACES],
    tail: &'a [u8; PLACES],
    len: &'a [u16; PLACES],
    t: u8,
    variant: &'a [u16; PLACES],
    v: u16,
    time: &'a [u64; PLACES],
) -> bool
    ensures { result ≡ ltb (found_in (numbered false variant.now v time.now 0)
        (ring_of next.now tail.now len.now t)) most_places }
{
    find_number(next, tail, len, t, 0, variant, v, time, 0, false).is_some()
}
