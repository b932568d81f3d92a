// logic.rs `SolveState`, lent: one turn of a search, or the search put back, where it lies.
ghost use Rattle.std.specs.Prelude.{◌≡◌};
ghost use Rattle.search.specs.SolveState.{turn_of, cut_of};

use control::performed::Flow;
use search::solve_state::Search;

// One turn: how it ended. Where it stops, the search is what it was.
pub fn turn(s: &mut Search) -> Flow
    ensures { (result ≡ (turn_of s.old).flow) × (s.new ≡ (turn_of s.old).search) }
{
    let t = search::solve_state::turn(*s);
    *s = t.search;
    t.flow
}

// The search is put back, and nothing is on the stack.
pub fn cut(s: &mut Search)
    ensures { s.new ≡ cut_of s.old }
{
    *s = search::solve_state::cut(*s);
}
