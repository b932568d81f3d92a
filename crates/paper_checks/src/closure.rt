// The closure of a matrix by Warshall's method, in place: whatever leads to k leads to all that k leads to, for one k after the other.
// Neither row k nor column k changes while it is k's turn.
ghost use Rattle.std.specs.Prelude.{◌≡◌, ◌≤◌, ◌<◌, length};
ghost use Rattle.paper_checks.specs.Reach.{Raised, Row, Rows, Closed};

use crate::matrix::{CELLS, raise};
use sizes::MOST_GOALS;

// An entry without what is known of "not": a way over others is no edge.
fn way_of(x: u8) -> u8
    ensures { (result ≤ 1) × (0 < x → 0 < result) × (0 < result → 0 < x) }
{
    if x > 0 { 1 } else { 0 }
}

// Row i with what row k has, if i leads to k.
fn join_row(m: &mut [u8; CELLS], k: usize, i: usize)
    requires k_bound { k < 64 }
    requires i_bound { i < 64 }
    ensures { Raised (Row m.old k i) m.old m.new }
{
    if m[MOST_GOALS * i + k] == 0 {
        return;
    }
    for j in 0..MOST_GOALS {
        let x = m[MOST_GOALS * k + j];
        raise(m, i, j, way_of(x));
    }
}

fn join_rows(m: &mut [u8; CELLS], k: usize)
    requires { k < 64 }
    ensures { Raised (Rows m.old k 64) m.old m.new }
{
    for i in 0..MOST_GOALS {
        join_row(m, k, i);
    }
}

pub(crate) fn close(m: &mut [u8; CELLS])
    ensures { Closed m.old m.new 64 }
{
    for k in 0..MOST_GOALS {
        join_rows(m, k);
    }
}
