// tables.rs: the tables' own numbers, in arrays that are lent. A table that can't be (64 and above) has no goal.
ghost use Rattle.std.specs.Prelude.{◌≡◌, get_or, eqb};
ghost use Rattle.stores.specs.Numbers.{count_after, flag_number, written_at, first_at, within};
ghost use Rattle.stores.specs.Tables.{table_goal_at, blank_tables};

use crate::numbers::{first_of, flag_of, upto};
use sizes::MOST_TABLES;

// The tables' own numbers; a flag is 0 or 1. `complete` is the answer mode.
#[derive(Clone, Copy)]
pub struct Tables {
    pub count: usize,
    pub goal: [u8; MOST_TABLES],
    pub coinductive: [u8; MOST_TABLES],
    pub floundered: [u8; MOST_TABLES],
    pub complete: [u8; MOST_TABLES],
}

pub fn blank_tables() -> Tables
    ensures { result ≡ blank_tables }
{
    Tables {
        count: 0,
        goal: [0; MOST_TABLES],
        coinductive: [0; MOST_TABLES],
        floundered: [0; MOST_TABLES],
        complete: [0; MOST_TABLES],
    }
}

// `index_of`: the table of a goal; the count where it has none. It stays a number: `opens` of crate `batch` says what comes of a count
// above 64.
pub fn index_of(goal: &[u8; MOST_TABLES], count: usize, g: u8) -> usize
    ensures { result ≡ first_at (λ i. eqb (get_or goal.now i 0) g) 0 (within count) }
{
    first_of(goal, count, g).unwrap_or(upto(count))
}

// `insert`, with the flags of the new table, whose answer mode is complete: the count that it leaves; the same count where there are 64.
pub fn insert(
    goal: &mut [u8; MOST_TABLES],
    coinductive: &mut [u8; MOST_TABLES],
    floundered: &mut [u8; MOST_TABLES],
    complete: &mut [u8; MOST_TABLES],
    count: usize,
    g: u8,
    is_coinductive: bool,
    is_floundered: bool,
) -> usize
    ensures { (result ≡ count_after count)
        × (goal.new ≡ written_at count g goal.old)
        × (coinductive.new ≡ written_at count (flag_number is_coinductive) coinductive.old)
        × (floundered.new ≡ written_at count (flag_number is_floundered) floundered.old)
        × (complete.new ≡ written_at count 1 complete.old) }
{
    if count >= MOST_TABLES {
        return count;
    }
    goal[count] = g;
    coinductive[count] = flag_of(is_coinductive);
    floundered[count] = flag_of(is_floundered);
    complete[count] = 1;
    count + 1
}

// The goal of a table.
pub fn goal_at(goal: &[u8; MOST_TABLES], t: u8) -> u8
    ensures { result ≡ table_goal_at t goal.now }
{
    let i = t as usize;
    if i < MOST_TABLES { goal[i] } else { 0 }
}
