// A matrix of 64 by 64 numbers, row by row. It has a row and a column for each goal of a book, and is only ever written here.
ghost use Rattle.std.specs.Prelude.{◌≡◌, ◌<◌, length};
ghost use Rattle.paper_checks.specs.Reach.{Raised, Here};

use sizes::MOST_GOALS;

// A number for each pair of goals.
pub(crate) const CELLS: usize = MOST_GOALS * MOST_GOALS;

// Sees to it that at row i and column j there is v or more.
pub(crate) fn raise(m: &mut [u8; CELLS], i: usize, j: usize, v: u8)
    requires i_bound { i < 64 }
    requires j_bound { j < 64 }
    ensures { Raised (Here i j v) m.old m.new }
{
    let p = MOST_GOALS * i + j;
    if m[p] >= v {
        return;
    }
    m[p] = v;
}
