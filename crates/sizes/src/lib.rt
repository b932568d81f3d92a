// THE LIMITS, by which arrays are sized, each here and nowhere else; and numbers made wide. `specs/Limits.antt` says what each is of.
#![tactic(auto)]

ghost use Rattle.std.specs.Prelude.{◌≡◌, ◌<◌};
ghost use Rattle.sizes.specs.Limits.{the_limits};

pub const MOST_GOALS: usize = 64;

pub const MOST_CLAUSES: usize = 256;

pub const MOST_LITERALS: usize = 8;
// Of all clauses together: MOST_CLAUSES * MOST_LITERALS.
pub const BOOK_LITERALS: usize = MOST_CLAUSES * MOST_LITERALS;

pub const READ_AHEAD: usize = 20480;

pub const MOST_TABLES: usize = MOST_GOALS;

pub const MOST_ENTRIES: usize = MOST_TABLES;
// A store's places are named by a byte; this number, which is no place, stands for none.
pub const PLACES: usize = 256;

// All of them, so that they can be held to the definitions'.
#[derive(Clone, Copy)]
pub struct Sizes {
    pub goals: usize,
    pub clauses: usize,
    pub literals: usize,
    pub book_literals: usize,
    pub read_ahead: usize,
    pub tables: usize,
    pub entries: usize,
    pub places: usize,
}

pub fn limits() -> Sizes
    ensures { result ≡ the_limits }
{
    Sizes {
        goals: MOST_GOALS,
        clauses: MOST_CLAUSES,
        literals: MOST_LITERALS,
        book_literals: BOOK_LITERALS,
        read_ahead: READ_AHEAD,
        tables: MOST_TABLES,
        entries: MOST_ENTRIES,
        places: PLACES,
    }
}

pub fn wide(x: u8) -> usize
    ensures { (result ≡ x) × (result < 256) }
{
    x as usize
}

pub fn wide16(n: u16) -> usize
    ensures { (result ≡ n) × (result < 65536) }
{
    n as usize
}

pub fn wide64(x: u8) -> u64
    ensures { (result ≡ x) × (result < 256) }
{
    x as u64
}
