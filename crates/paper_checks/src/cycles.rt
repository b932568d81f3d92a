// The goals that are on a cycle through "not": each that leads to a "not", anywhere, from which the way leads back to it.
ghost use Rattle.std.specs.Prelude.{◌≡◌, ℕ, ◌/◌, ◌%◌, ◌≤◌, ◌<◌, false, length, get_or};
ghost use Rattle.book.specs.View.{view, Sound};
ghost use Rattle.paper_checks.specs.Profile.{Marks};
ghost use Rattle.paper_checks.specs.Reach.{Round, SomeRound, Tells};

use crate::closure::close;
use crate::edges::edges;
use crate::matrix::CELLS;
use book::Book;
use sizes::MOST_GOALS;

// Place p of the matrix is a "not" that goal t leads to and that leads back to t.
fn leads_round(m: &[u8; CELLS], t: usize, p: usize) -> bool
    requires t_bound { t < 64 }
    requires p_bound { p < 4096 }
    ensures { Tells (Round m.now t (p / 64) (p % 64)) result }
{
    m[p] >= 2
        && m[MOST_GOALS * t + p / MOST_GOALS] != 0
        && m[MOST_GOALS * (p % MOST_GOALS) + t] != 0
}

// One of the first n places is such a "not" of goal t.
fn is_on_cycle(m: &[u8; CELLS], n: usize, t: usize) -> bool
    requires n_bound { n ≤ 4096 }
    requires t_bound { t < 64 }
    ensures { Tells (SomeRound m.now n t) result }
{
    (0..n).any(|p| leads_round(m, t, p))
}

// Whether each goal has one.
fn marks(m: &[u8; CELLS], n: usize) -> [bool; MOST_GOALS]
    requires { n ≤ 4096 }
    ensures { (length result ≡ 64) × ((t : ℕ) → t < 64 → Tells (SomeRound m.now n t) (get_or result t false)) }
{
    let mut r = [false; MOST_GOALS];
    for t in 0..MOST_GOALS {
        r[t] = is_on_cycle(m, n, t);
    }
    r
}

pub(crate) fn cycles(b: &Book) -> [bool; MOST_GOALS]
    requires { Sound b.now }
    ensures { Marks (view b.now) result }
{
    let mut m = edges(b);
    close(&mut m);
    marks(&m, MOST_GOALS * b.goals)
}
