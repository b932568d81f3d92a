// The least levels of a book (definitions, `levels`): passes in which every goal is raised to what its clauses ask for by the levels
// before, until one changes nothing. If that is none of the first passes, one more than there are goals, it is none at all.
ghost use Rattle.papers.specs.Levels.{levels as levelsOf};
ghost use Rattle.book.specs.View.{view, Sound};
ghost use Rattle.paper_checks.specs.Asks.{Low, PassGives, Settles};

use crate::asks::clauses_ask;
use book::Book;
use sizes::MOST_GOALS;

fn pass(levels: &[u8; MOST_GOALS], b: &Book) -> [u8; MOST_GOALS]
    requires low { Low levels.now }
    requires sound { Sound b.now }
    ensures { PassGives levels.now b.now result }
{
    let mut next = [0u8; MOST_GOALS];
    for g in 0..b.goals {
        next[g] = clauses_ask(levels, b, b.first_clause(g), b.clause_count(g));
    }
    next
}

pub(crate) fn settle(b: &Book) -> Option<[u8; MOST_GOALS]>
    requires { Sound b.now }
    ensures { Settles (levelsOf (view b.now)) b.now.goals result }
{
    let mut levels = [0u8; MOST_GOALS];
    for k in 0..=b.goals {
        let next = pass(&levels, b);
        if next == levels {
            return Some(levels);
        }
        levels = next;
    }
    None
}
