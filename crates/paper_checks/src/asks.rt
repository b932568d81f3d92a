// What the clauses of a goal ask of its level (definitions, `clauses_ask`): no lower a level than a goal that a literal names, a higher one
// than a goal that a "not" names.
ghost use Rattle.std.specs.Prelude.{◌≡◌, ◌+◌, ◌≤◌, get_or};
ghost use Rattle.papers.specs.Levels.{literal_asks, literals_ask};
ghost use Rattle.book.specs.View.{meant};
ghost use Rattle.book.specs.Repeats.{lent_by, clause_read};
ghost use Rattle.paper_checks.specs.Asks.{Low, asked_from};

use book::access::is_negative;
use book::{Book, Literal};
use sizes::MOST_GOALS;

// The level of a goal; of what is no goal's number, 0.
fn level_of(levels: &[u8; MOST_GOALS], goal: u8) -> u8
    ensures { result ≡ get_or levels.now goal 0 }
{
    levels.get(goal as usize).copied().unwrap_or(0)
}

// Levels are below 255, so that one more is a level too.
fn literal_asks(levels: &[u8; MOST_GOALS], l: Literal) -> u8
    requires { Low levels.now }
    ensures { result ≡ literal_asks levels.now (meant l) }
{
    let level = level_of(levels, l.goal);
    if is_negative(l) {
        return level + 1;
    }
    level
}

fn literals_ask(levels: &[u8; MOST_GOALS], b: &Book, c: usize) -> u8
    requires { Low levels.now }
    ensures { result ≡ literals_ask levels.now (clause_read (lent_by b.now) c).literals }
{
    let count = b.literal_count(c);
    let mut most: u8 = 0;
    for j in 0..count {
        most = most.max(literal_asks(levels, b.literal(c, j)));
    }
    most
}

// So many clauses from `first` on.
pub(crate) fn clauses_ask(levels: &[u8; MOST_GOALS], b: &Book, first: usize, count: usize) -> u8
    requires low { Low levels.now }
    requires count_bound { first + count ≤ 256 }
    ensures { result ≡ asked_from levels.now b.now first count }
{
    let mut most: u8 = 0;
    for k in 0..count {
        most = most.max(literals_ask(levels, b, first + k));
    }
    most
}
