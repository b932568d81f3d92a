// Places of a store: a free one is found here, and one by the numbers that stand beside it; the rings' own operations are in the crate
// `rings`.
ghost use Rattle.std.specs.Prelude.{◌≡◌, ◌&&◌, ◌-◌, ◌<◌, drop, get_or, eqb};
ghost use Rattle.rings.specs.Rings.{ring_of, place_number};
ghost use Rattle.stores.specs.Numbers.{free};
ghost use Rattle.stores.specs.Places.{TookPlace, numbered_by, numbered, found_in, blank_places};

use crate::numbers::{FREE, NO_PLACE};
use rings::ring_pop;
use sizes::{PLACES, wide};

// Rings of the places of a store: ring t is that of table t, ring 64 that of the places that were used and are free again. The places
// from `top` on were never used.
#[derive(Clone, Copy)]
pub struct Places {
    pub next: [u8; PLACES],
    pub tail: [u8; PLACES],
    pub len: [u16; PLACES],
    pub top: u16,
}

pub fn blank_places() -> Places
    ensures { result ≡ blank_places }
{
    Places {
        next: [0; PLACES],
        tail: [0; PLACES],
        len: [0; PLACES],
        top: 0,
    }
}

// A place that was used and is free again, else one that was never used; none where all are in use.
pub fn take_place(
    next: &mut [u8; PLACES],
    tail: &[u8; PLACES],
    len: &mut [u16; PLACES],
    top: &mut u16,
) -> Option<u8>
    ensures { TookPlace next.old tail.now len.old top.old
        next.new len.new top.new (place_number result) }
{
    if len[FREE as usize] > 0 {
        return ring_pop(next, tail, len, FREE);
    }
    let t = *top;
    if t < NO_PLACE {
        *top = t + 1;
        return Some(t as u8);
    }
    None
}

// How many places are in use: they wait in a table's ring, or are held.
pub fn in_use(len: &[u16; PLACES], top: u16) -> u16
    ensures { result ≡ top - get_or len.now free 0 }
{
    top.saturating_sub(len[FREE as usize])
}

// Whether the numbers beside a place are those looked for, once none is to be passed over.
fn hit(skip: usize, by_key: bool, variant: u16, v: u16, key: u64, k: u64) -> bool
    ensures { result ≡ eqb skip 0 && numbered_by by_key variant v key k }
{
    skip == 0 && variant == v && (!by_key || key == k)
}

// The first place of the table's ring, from an index on, whose variant is v and, where keys are looked for, whose key is k.
pub fn find_number(
    next: &[u8; PLACES],
    tail: &[u8; PLACES],
    len: &[u16; PLACES],
    t: u8,
    from: usize,
    variant: &[u16; PLACES],
    v: u16,
    key: &[u64; PLACES],
    k: u64,
    by_key: bool,
) -> Option<u8>
    ensures { place_number result ≡ found_in (numbered by_key variant.now v key.now k)
        (drop from (ring_of next.now tail.now len.now t)) }
{
    let mut prev = tail[t as usize];
    let mut skip = from;
    for _step in 0..len[t as usize] {
        let p = next[wide(prev)];
        let q = wide(p);
        if hit(skip, by_key, variant[q], v, key[q], k) {
            return Some(p);
        }
        skip = skip.saturating_sub(1);
        prev = p;
    }
    None
}
