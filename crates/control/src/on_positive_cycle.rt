// logic.rs `on_positive_cycle`: what a cycle means to the entry on top of the stack, whose minimums take those of the cycle.
ghost use Rattle.std.specs.Prelude.{◌≡◌};
ghost use Rattle.strands.specs.Times.{minimums};
ghost use Rattle.stores.specs.Places.{enqueued};
ghost use Rattle.control.specs.UnwindStack.{Rings};
ghost use Rattle.control.specs.OnPositiveCycle.{minimums_at, clock_at, met_at, cycle_by, top_cycled, Minimized};

use rings::ring_enqueue;
use sizes::{MOST_ENTRIES, PLACES};
use strands::times::{Minimums, TimeStamp};

pub fn minimums_of(positive: u64, negative: u64) -> Minimums
    ensures { minimums result ≡ minimums_at positive negative }
{
    let p = TimeStamp { clock: positive };
    let n = TimeStamp { clock: negative };
    Minimums {
        positive: p,
        negative: n,
    }
}

// The clock of the entry at a height.
pub fn clock_at(entry_clock: &[u64; MOST_ENTRIES], height: u8) -> u64
    ensures { result ≡ clock_at entry_clock.now height }
{
    if height >= 64 {
        return 0;
    }
    entry_clock[height as usize]
}

// What a cycle with these minimums, met through a literal, makes of the minimums of an entry. Through a "not" the entry depends on
// itself positively, and on the cycle negatively.
fn cycle_minimums(was: Minimums, m: Minimums, not: bool, clock: u64) -> Minimums
    ensures { minimums result ≡ cycle_by not (minimums was) (minimums m) clock }
{
    if not {
        let least = m.minimum_of_pos_and_neg();
        let own = TimeStamp { clock };
        let n = Minimums {
            positive: own,
            negative: least,
        };
        return was.take_minimums(n);
    }
    was.take_minimums(m)
}

// The entry on top meets such a cycle.
pub fn take_cycle(
    entry_clock: &[u64; MOST_ENTRIES],
    positive: &mut [u64; MOST_ENTRIES],
    negative: &mut [u64; MOST_ENTRIES],
    depth: usize,
    m: Minimums,
    not: bool,
)
    ensures { Minimized (top_cycled not (minimums m)
        entry_clock.now positive.old negative.old depth)
        depth positive.old negative.old positive.new negative.new }
{
    if depth == 0 {
        return;
    }
    if depth > MOST_ENTRIES {
        return;
    }
    let i = depth - 1;
    let was = minimums_of(positive[i], negative[i]);
    let r = cycle_minimums(was, m, not, entry_clock[i]);
    let p = r.positive;
    let n = r.negative;
    positive[i] = p.clock;
    negative[i] = n.clock;
}

// `on_positive_cycle`: the strand's literal leads to the entry at a height, and the strand goes back to its table's queue.
pub fn on_positive_cycle(
    next: &mut [u8; PLACES],
    tail: &mut [u8; PLACES],
    len: &mut [u16; PLACES],
    entry_clock: &[u64; MOST_ENTRIES],
    positive: &mut [u64; MOST_ENTRIES],
    negative: &mut [u64; MOST_ENTRIES],
    depth: usize,
    height: u8,
    not: bool,
    t: u8,
    place: u8,
)
    ensures { Minimized (top_cycled not (met_at entry_clock.now height)
        entry_clock.now positive.old negative.old depth)
        depth positive.old negative.old positive.new negative.new
        × Rings (enqueued t place) next.old tail.old len.old
        next.new tail.new len.new }
{
    let m = minimums_of(clock_at(entry_clock, height), TimeStamp::MAX.clock);
    take_cycle(entry_clock, positive, negative, depth, m, not);
    ring_enqueue(next, tail, len, t, place);
}
