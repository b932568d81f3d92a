// logic.rs: floundered literals. A strand sets one aside with its answer time, and takes it back once answer time has risen.
ghost use Rattle.std.specs.Prelude.{◌≡◌};
ghost use Rattle.strands.specs.Floundering.{flounder, reconsider_at, reconsider};

use crate::{Strand, within};
use sizes::MOST_LITERALS;

// `flounder_subgoal`, of the last literal.
pub fn flounder_subgoal(s: Strand) -> Strand
    ensures { result ≡ flounder s }
{
    let n = s.literal_count as usize;
    let m = s.floundered_count as usize;
    if n == 0 {
        return s;
    }
    if n > MOST_LITERALS {
        return s;
    }
    if m >= MOST_LITERALS {
        return s;
    }
    let last = n - 1;
    let l = s.literals[last];
    let time = s.answer_time;
    let mut t = s;
    t.floundered[m] = l;
    t.floundered_time[m] = time;
    t.floundered_count = (m + 1) as u8;
    t.literal_count = last as u8;
    t
}

// The loop's body in `reconsider_floundered_subgoals`: the floundered literal at i returns if answer time has risen, and the last
// floundered one takes its place (`swap_remove`).
fn reconsider_at(s: Strand, i: usize) -> Strand
    ensures { result ≡ reconsider_at i s }
{
    let n = s.literal_count as usize;
    let m = s.floundered_count as usize;
    if m > MOST_LITERALS {
        return s;
    }
    if i >= m {
        return s;
    }
    let time = s.floundered_time[i];
    if time >= s.answer_time {
        return s;
    }
    if n >= MOST_LITERALS {
        return s;
    }
    let last = m - 1;
    let moved = s.floundered[last];
    let moved_time = s.floundered_time[last];
    let l = s.floundered[i];
    let mut t = s;
    t.floundered[i] = moved;
    t.floundered_time[i] = moved_time;
    t.floundered_count = last as u8;
    t.literals[n] = l;
    t.literal_count = (n + 1) as u8;
    t
}

// `reconsider_floundered_subgoals`: from the end, so that what `swap_remove` moves has been seen.
pub fn reconsider_floundered_subgoals(s: Strand) -> Strand
    ensures { result ≡ reconsider s }
{
    let n = within(s.floundered_count);
    let mut t = s;
    for i in (0..n).rev() {
        t = reconsider_at(t, i);
    }
    t
}
