// `clear_strands_after_cycle`: recursive over the waiting tables, as in the Rust. Each call that finds a strand takes it from the tables'
// queues, so that the strands that wait there are the measure.
ghost use Rattle.std.specs.Prelude.{◌≡◌, false};
ghost use Rattle.control.specs.ClearStrandsAfterCycle.{cleared, clear};

use rings::ring_move;
use sizes::{PLACES, wide};

// The rings as clearing leaves them; of no use where a strand with nothing selected was met (29).
#[derive(Clone, Copy)]
pub struct Cleared {
    pub met_29: bool,
    pub next: [u8; PLACES],
    pub tail: [u8; PLACES],
    pub len: [u16; PLACES],
}

// Takes the queue of the table that w names, then clears the table that each strand taken waits on. The links between the places taken
// stay as they are, since a queue that is moved changes only the links of last places: so the walk goes on along them. True where a
// strand has nothing selected (29).
fn clear(
    w: u8,
    next: &mut [u8; PLACES],
    tail: &mut [u8; PLACES],
    len: &mut [u16; PLACES],
    waits: &[u8; PLACES],
) -> bool
    ensures { cleared result next.new tail.new len.new
        ≡ clear waits.now w (cleared false next.old tail.old len.old) }
{
    let t = w % 64;
    let k = wide(t);
    let left = len[k];
    if left == 0 {
        return false;
    }
    let mut p = next[wide(tail[k])];
    ring_move(next, tail, len, t, 64);
    for _step in 0..left {
        let waiting = waits[wide(p)];
        if waiting >= 128 {
            return true;
        }
        if clear(waiting, next, tail, len, waits) {
            return true;
        }
        p = next[wide(p)];
    }
    false
}

// Clears the table t and those that its strands wait on, on copies: where it meets 29 nothing was written.
pub fn clear_strands_after_cycle(
    t: u8,
    next: [u8; PLACES],
    tail: [u8; PLACES],
    len: [u16; PLACES],
    waits: &[u8; PLACES],
) -> Cleared
    ensures { result ≡ clear waits.now t (cleared false next tail len) }
{
    let mut n = next;
    let mut l = tail;
    let mut m = len;
    let met_29 = clear(t, &mut n, &mut l, &mut m, waits);
    Cleared {
        met_29,
        next: n,
        tail: l,
        len: m,
    }
}
