// What belongs to no store: flags as they are kept in arrays of numbers, and the first of some numbers that is the one looked for. A table
// or an entry that can't be (64 and above) has no flag, and nothing is written for it.
ghost use Rattle.std.specs.Prelude.{◌≡◌, get_or, eqb};
ghost use Rattle.stores.specs.Numbers.{flag_number, written_at, flag_at, first_at, found_below, within};

use sizes::MOST_TABLES;

// The ring of the free places: the first that is no table's.
pub const FREE: u8 = 64;
// What a strand waits on is a table, raised by this for a "not", or nothing.
pub const WAITS_NOT: u8 = 64;

pub const WAITS_NOTHING: u8 = 255;
// Or the place is fresh: its strand is not written yet.
pub const WAITS_FRESH: u8 = 254;
// No place, where a place is kept in two bytes.
pub const NO_PLACE: u16 = 256;

// A flag as it is kept in an array of numbers.
pub fn flag_of(b: bool) -> u8
    ensures { result ≡ flag_number b }
{
    u8::from(b)
}

// Whether a flag of a table is set: floundered, coinductive, or that it wants complete answers.
pub fn flag_at(flags: &[u8; MOST_TABLES], t: u8) -> bool
    ensures { result ≡ flag_at t flags.now }
{
    let i = t as usize;
    i < MOST_TABLES && flags[i] != 0
}

// A flag of a table is set: the answer mode, or floundered.
pub fn set_flag(flags: &mut [u8; MOST_TABLES], t: u8, flag: bool)
    ensures { flags.new ≡ written_at t (flag_number flag) flags.old }
{
    let i = t as usize;
    if i < MOST_TABLES {
        flags[i] = flag_of(flag);
    }
}

pub fn upto(n: usize) -> usize
    ensures { result ≡ within n }
{
    n.min(MOST_TABLES)
}

// Where x stands first among the first n (64 at most), if it does. `is_active` for the tables of the entries, `index_of` for
// the goals of the tables.
pub fn first_of(xs: &[u8; MOST_TABLES], n: usize, x: u8) -> Option<usize>
    ensures { result ≡ found_below (within n) (first_at (λ i. eqb (get_or xs.now i 0) x) 0 (within n)) }
{
    for i in 0..upto(n) {
        if xs[i] == x {
            return Some(i);
        }
    }
    None
}
