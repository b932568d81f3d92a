// The strand store: a turned queue, 256 and 257 strands, places used again, and a new table's fresh places.
ghost use Rattle.std.specs.Prelude.{◌≡◌};
ghost use Rattle.stores.specs.Queue.{written, enqueued_strand, clauses_from, fresh_each};
ghost use Rattle.stores_run.specs.Owner.{Puts, Takes, Clears};

use crate::words::{line, number, one, place};
use rings::{ring_at, ring_enqueue, ring_move};
use sizes::{MOST_CLAUSES, PLACES};
use std::io::Stdout;
use stores::places::{Places, in_use, take_place};
use stores::queue::{Strands, blank_strands, fresh_places, number_strand, take_strand};
use strands::Strand;
use strands::making::blank;

#[derive(Clone, Copy)]
pub(crate) struct Placed {
    pub done: bool,
    pub strands: Strands,
}

#[derive(Clone, Copy)]
pub(crate) struct Took {
    pub place: Option<u8>,
    pub strands: Strands,
}

// A strand pursued at the time `at` stands at a place, with the numbers beside it.
fn write(s: Strands, q: u8, at: u64, x: Strand) -> Strands
    ensures { result ≡ written q at x s }
{
    let mut strands = s.strands;
    let mut time = s.time;
    let mut ambiguous = s.ambiguous;
    let mut variant = s.variant;
    let mut waits = s.waits;
    let mut wants = s.wants;
    strands[q as usize] = x;
    number_strand(
        &mut time,
        &mut ambiguous,
        &mut variant,
        &mut waits,
        &mut wants,
        q,
        at,
        x,
    );
    let places = s.places;
    Strands {
        strands,
        time,
        ambiguous,
        variant,
        waits,
        wants,
        places,
    }
}

// A new strand at the end of a table's queue: a place is taken, written and enqueued.
pub(crate) fn put(s: Strands, t: u8, at: u64, x: Strand) -> Placed
    ensures { Puts s t at x result }
{
    let p = s.places;
    let mut next = p.next;
    let mut tail = p.tail;
    let mut len = p.len;
    let mut top = p.top;
    let Some(q) = take_place(&mut next, &tail, &mut len, &mut top) else {
        return Placed {
            done: false,
            strands: s,
        };
    };
    ring_enqueue(&mut next, &mut tail, &mut len, t, q);
    let mut r = write(s, q, at, x);
    let places = Places {
        next,
        tail,
        len,
        top,
    };
    r.places = places;
    Placed {
        done: true,
        strands: r,
    }
}

// The first strand of a table's queue that was pursued before the time.
pub(crate) fn take(s: Strands, t: u8, clock: u64) -> Took
    ensures { Takes s t clock result }
{
    let p = s.places;
    let mut next = p.next;
    let mut tail = p.tail;
    let mut len = p.len;
    let time = s.time;
    let ambiguous = s.ambiguous;
    let q = take_strand(
        &mut next, &mut tail, &mut len, t, &time, &ambiguous, clock, false,
    );
    let places = Places {
        next,
        tail,
        len,
        top: p.top,
    };
    let mut r = s;
    r.places = places;
    Took {
        place: q,
        strands: r,
    }
}

// The queue's places are free.
fn clear(s: Strands, t: u8) -> Strands
    ensures { Clears s t result }
{
    let p = s.places;
    let mut next = p.next;
    let mut tail = p.tail;
    let mut len = p.len;
    ring_move(&mut next, &mut tail, &mut len, t, 64);
    let places = Places {
        next,
        tail,
        len,
        top: p.top,
    };
    let mut r = s;
    r.places = places;
    r
}

pub(crate) fn strand(variant: u16) -> Strand {
    let mut x = blank();
    x.variant = variant;
    x
}

fn used(s: Strands) -> usize {
    let p = s.places;
    let len = p.len;
    let n = in_use(&len, p.top);
    n as usize
}

// The variants along a queue, at most eight.
fn along(to: Stdout, s: Strands, t: u8) {
    let p = s.places;
    let next = p.next;
    let tail = p.tail;
    let len = p.len;
    let strands = s.strands;
    for i in 0..8 {
        if let Some(q) = ring_at(&next, &tail, &len, t, i) {
            let x = strands[q as usize];
            number(to, x.variant);
        }
    }
}

pub(crate) fn show(to: Stdout, s: Strands, t: u8) {
    let _ = print!(to; "queue ");
    along(to, s, t);
    let _ = println!(to;);
}

// Strands 1 2 3, of which 2 may be taken first: it leaves 3 1.
pub(crate) fn rotation(to: Stdout) {
    let a = put(blank_strands(), 5, 9, strand(1));
    let b = put(a.strands, 5, 1, strand(2));
    let c = put(b.strands, 5, 9, strand(3));
    show(to, c.strands, 5);
    let d = take(c.strands, 5, 2);
    line(to, b"taken at place", place(d.place));
    show(to, d.strands, 5);
    let e = take(d.strands, 5, 2);
    line(to, b"none: place", place(e.place));
    line(to, b"in use", used(e.strands));
}

#[derive(Clone, Copy)]
struct Filled {
    count: usize,
    strands: Strands,
}

// As many new strands as there is room for, of 300, in turn in three queues.
fn fill(s: Strands) -> Filled {
    let mut r = s;
    let mut n: usize = 0;
    for i in 0..300 {
        let t = i % 3;
        let p = put(r, t as u8, 0, strand(i));
        n = n + one(p.done);
        r = p.strands;
    }
    Filled {
        count: n,
        strands: r,
    }
}

// 256 strands and not 257; the places of a queue that is cleared are used again.
pub(crate) fn limit(to: Stdout) {
    let f = fill(blank_strands());
    line(to, b"strands of 300:", f.count);
    line(to, b"in use", used(f.strands));
    show(to, f.strands, 1);
    let s = clear(f.strands, 1);
    line(to, b"in use", used(s));
    let g = fill(s);
    line(to, b"strands of 300:", g.count);
    line(to, b"in use", used(g.strands));
    show(to, g.strands, 1);
}

// Fresh places at the end of a table's queue, for `count` clauses from `first` on: no strand is written.
fn begin(
    s: Strands,
    variants: [u16; MOST_CLAUSES],
    flags: [u8; MOST_CLAUSES],
    t: u8,
    first: usize,
    count: usize,
) -> Strands
    ensures { result ≡ fresh_each variants flags t (clauses_from first count) first s }
{
    let mut time = s.time;
    let mut ambiguous = s.ambiguous;
    let mut variant = s.variant;
    let mut waits = s.waits;
    let mut wants = s.wants;
    let p = s.places;
    let mut next = p.next;
    let mut tail = p.tail;
    let mut len = p.len;
    let mut top = p.top;
    fresh_places(
        &mut next,
        &mut tail,
        &mut len,
        &mut top,
        &mut time,
        &mut ambiguous,
        &mut variant,
        &mut waits,
        &mut wants,
        &variants,
        &flags,
        t,
        first,
        count,
    );
    let strands = s.strands;
    let places = Places {
        next,
        tail,
        len,
        top,
    };
    Strands {
        strands,
        time,
        ambiguous,
        variant,
        waits,
        wants,
        places,
    }
}

// A strand that was taken goes to the end of a table's queue.
fn enqueue(s: Strands, t: u8, q: u8) -> Strands
    ensures { result ≡ enqueued_strand t q s }
{
    let p = s.places;
    let mut next = p.next;
    let mut tail = p.tail;
    let mut len = p.len;
    ring_enqueue(&mut next, &mut tail, &mut len, t, q);
    let places = Places {
        next,
        tail,
        len,
        top: p.top,
    };
    let mut r = s;
    r.places = places;
    r
}

// The first strand that was pursued before the time is taken, written at this time, and enqueued again. A fresh place's is written there
// for the first time, with its clause's variant, which stands beside it.
fn pursue(s: Strands, t: u8, clock: u64) -> Strands {
    let d = take(s, t, clock);
    let r = d.strands;
    let Some(q) = d.place else {
        return r;
    };
    let variant = r.variant;
    let w = write(r, q, clock, strand(variant[q as usize]));
    enqueue(w, t, q)
}

// What the places along a queue wait on and want, and their variants: of at most four.
fn beside(to: Stdout, s: Strands, t: u8) {
    let p = s.places;
    let next = p.next;
    let tail = p.tail;
    let len = p.len;
    let waits = s.waits;
    let wants = s.wants;
    let variant = s.variant;
    for i in 0..4 {
        if let Some(place) = ring_at(&next, &tail, &len, t, i) {
            let q = place as usize;
            number(to, waits[q] as u16);
            number(to, wants[q]);
            number(to, variant[q]);
        }
    }
}

fn show_beside(to: Stdout, s: Strands, t: u8) {
    let _ = print!(to; "beside ");
    beside(to, s, t);
    let _ = println!(to;);
}

// A table of clauses 3 and 4: its places are fresh, and the strands are written one after the other as they are pursued.
pub(crate) fn first_strands(to: Stdout) {
    let mut variants = [0u16; MOST_CLAUSES];
    variants[3] = 30;
    variants[4] = 40;
    let s = begin(blank_strands(), variants, [0; PLACES], 2, 3, 2);
    show_beside(to, s, 2);
    let a = pursue(s, 2, 1);
    show_beside(to, a, 2);
    let b = pursue(a, 2, 1);
    show_beside(to, b, 2);
    show(to, b, 2);
    line(to, b"in use", used(b));
}
