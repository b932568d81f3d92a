// The same by value: each function makes the reference itself, so that whoever calls it needs no proof by hand to go through the functions
// that take one.
ghost use Rattle.std.specs.Prelude.{◌≡◌};
ghost use Rattle.search.specs.SolveState.{turn_of, cut_of};
ghost use Rattle.forest.specs.Open.{OpenSays};
ghost use Rattle.forest.specs.Searches.{SearchSays, PeekSays};
ghost use Rattle.in_place.specs.Joined.{turned, opened, searched, peeked};

use forest::Forest;
use forest::open::Opened;
use forest::searches::{Peeked, Searched};
use search::solve_state::{Search, Turned};

// One turn of a search.
pub fn turn(s: Search) -> Turned
    ensures { result ≡ turn_of s }
{
    let mut g = s;
    let flow = crate::solve_state::turn(&mut g);
    Turned { flow, search: g }
}

// A search put back.
pub fn cut(s: Search) -> Search
    ensures { result ≡ cut_of s }
{
    let mut g = s;
    crate::solve_state::cut(&mut g);
    g
}

// The table of a goal.
pub fn open(f: Forest, goal: u64) -> Opened
    ensures { OpenSays f goal result }
{
    let mut g = f;
    let opening = crate::calls::open(&mut g, goal);
    Opened { opening, forest: g }
}

// A search for the answer at an index of a table, by at most so many turns.
pub fn search(f: Forest, table: u64, index: u64, limit: u64) -> Searched
    ensures { SearchSays f table index limit result }
{
    let mut g = f;
    let s = crate::calls::search(&mut g, table, index, limit);
    Searched {
        outcome: s.outcome,
        turns: s.turns,
        forest: g,
    }
}

// A peek from an index of a table on, by at most so many rounds and so many turns for each search.
pub fn peek(f: Forest, table: u64, index: u64, rounds: u64, limit: u64) -> Peeked
    ensures { PeekSays f table index rounds limit result }
{
    let mut g = f;
    let p = crate::calls::peek(&mut g, table, index, rounds, limit);
    Peeked {
        outcome: p.outcome,
        index: p.index,
        turns: p.turns,
        exceeded: p.exceeded,
        forest: g,
    }
}
