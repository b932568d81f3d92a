// Queues as rings of links, over arrays of numbers that the caller lends. Each queue holds places of a store: next[p] is the place behind
// p, tail[t] the last place of queue t, whose next is the first, and len[t] how many wait. To take one from the middle is to unlink it and
// to turn the ring, so that the one behind it comes first (table.rs `dequeue_next_strand_that`); a whole queue goes behind another in
// two writes, whatever their lengths. The free places of a store are such a queue too.
#![tactic(auto)]

ghost use Rattle.std.specs.Prelude.{◌≡◌, ◌-◌, ◌<◌, get_or, set, ltb};
ghost use Rattle.rings.specs.Lists.{grown};
ghost use Rattle.rings.specs.Rings.{ring_of, place_number, place_if, has_any, unlinked, shortened};
ghost use Rattle.rings.specs.Rings.{popped_next, linked, lengthened, joined, RingMove};

use sizes::{PLACES, wide};

// Takes the place behind `before` out of the table's queue, and turns the ring: what was behind it is first, and `before` last. Taking b
// from a, b, c leaves c, a. It is for whoever looked along the queue to find a place there; a place of no queue is unlinked all the same.
pub fn ring_unlink(
    next: &mut [u8; PLACES],
    tail: &mut [u8; PLACES],
    len: &mut [u16; PLACES],
    table: u8,
    before: u8,
) -> usize
    ensures { (result ≡ get_or next.old before 0)
        × (next.new ≡ unlinked next.old before)
        × (tail.new ≡ set tail.old table before)
        × (len.new ≡ shortened len.old table) }
{
    let t = table as usize;
    let a = before as usize;
    let p = wide(next[a]);
    let after = next[p];
    next[a] = after;
    tail[t] = before;
    len[t] = len[t].saturating_sub(1);
    p
}

// Takes the first place of the table's queue, if there is one: where the table is that of the free places, this finds one.
pub fn ring_pop(
    next: &mut [u8; PLACES],
    tail: &[u8; PLACES],
    len: &mut [u16; PLACES],
    table: u8,
) -> Option<u8>
    ensures { (place_number result ≡ place_if (has_any len.old table) (get_or next.old (get_or tail.now table 0) 0))
        × (next.new ≡ popped_next (has_any len.old table) next.old (get_or tail.now table 0))
        × (len.new ≡ shortened len.old table) }
{
    let t = table as usize;
    let m = len[t];
    if m == 0 {
        return None;
    }
    let a = wide(tail[t]);
    let p = next[a];
    let after = next[wide(p)];
    next[a] = after;
    len[t] = m - 1;
    Some(p)
}

fn more(m: u16) -> u16
    ensures { result ≡ grown (ltb m 256) m }
{
    if m < 256 { m + 1 } else { m }
}

// Puts a place at the end of the table's queue.
pub fn ring_enqueue(
    next: &mut [u8; PLACES],
    tail: &mut [u8; PLACES],
    len: &mut [u16; PLACES],
    table: u8,
    place: u8,
)
    ensures { (next.new ≡ linked next.old tail.old len.old table place)
        × (tail.new ≡ set tail.old table place)
        × (len.new ≡ lengthened len.old table) }
{
    let t = table as usize;
    let k = place as usize;
    let m = len[t];
    let last = tail[t];
    tail[t] = place;
    len[t] = more(m);
    if m == 0 {
        next[k] = place;
    } else {
        let l = wide(last);
        let first = next[l];
        next[k] = first;
        next[l] = place;
    }
}

fn added(k: u16, m: u16) -> u16
    ensures { result ≡ joined k m }
{
    if k > 256 {
        return 0;
    }
    if m > 256 {
        return 0;
    }
    k + m
}

// Moves the whole queue of one table behind that of another: two links change, whatever their lengths. Free places are such a queue.
pub fn ring_move(
    next: &mut [u8; PLACES],
    tail: &mut [u8; PLACES],
    len: &mut [u16; PLACES],
    from: u8,
    to: u8,
)
    ensures { RingMove next.old tail.old len.old from to
        next.new tail.new len.new }
{
    let f = from as usize;
    let g = to as usize;
    if f == g {
        return;
    }
    let m = len[f];
    let k = len[g];
    let a = tail[f];
    let b = tail[g];
    len[f] = 0;
    len[g] = added(k, m);
    if m == 0 {
        return;
    }
    tail[g] = a;
    if k == 0 {
        return;
    }
    let i = wide(a);
    let j = wide(b);
    let x = next[i];
    let y = next[j];
    next[i] = y;
    next[j] = x;
}

// The place at an index of the table's queue, counted from 0, unless the queue is shorter.
pub fn ring_at(
    next: &[u8; PLACES],
    tail: &[u8; PLACES],
    len: &[u16; PLACES],
    table: u8,
    index: u16,
) -> Option<u8>
    ensures { place_number result ≡ place_if (ltb index (get_or len.now table 0))
        (get_or (ring_of next.now tail.now len.now table) index 0) }
{
    let t = table as usize;
    if index >= len[t] {
        return None;
    }
    let mut prev = tail[t];
    for _step in 0..index {
        prev = next[wide(prev)];
    }
    Some(next[wide(prev)])
}
