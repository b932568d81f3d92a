// The edges of a book: in row g of the matrix, 1 for each goal that a literal of goal g names, 2 where a "not" does, and 1 for g itself.
ghost use Rattle.std.specs.Prelude.{◌≡◌, ℕ, suc, ◌+◌, ◌<◌, length};
ghost use Rattle.papers.specs.Levels.{is_not};
ghost use Rattle.book.specs.View.{meant, view, Sound};
ghost use Rattle.paper_checks.specs.Reach.{Raised, NamesFew, ClauseLeads, GoalLeads, Edges};

use crate::matrix::{CELLS, raise};
use book::access::is_negative;
use book::{Book, Literal};

fn edge_of(l: Literal) -> u8
    ensures { result ≡ suc (is_not (meant l)) }
{
    if is_negative(l) { 2 } else { 1 }
}

// Row g with the edges of clause c.
fn clause_edges(m: &mut [u8; CELLS], b: &Book, g: usize, c: usize)
    requires g_bound { g < 64 }
    requires names_few { NamesFew b.now c }
    ensures { Raised (λ v i j. (i ≡ g) × ClauseLeads b.now c v j) m.old m.new }
{
    let count = b.literal_count(c);
    for k in 0..count {
        let l = b.literal(c, k);
        raise(m, g, l.goal as usize, edge_of(l));
    }
}

// Row g with the edges of its clauses, so many from `first` on.
fn goal_edges(m: &mut [u8; CELLS], b: &Book, g: usize, first: usize, count: usize)
    requires g_bound { g < 64 }
    requires count_bound { first + count < 65536 }
    requires by_index { (d : ℕ) → d < count → NamesFew b.now (first + d) }
    ensures { Raised (λ v i j. (i ≡ g) × GoalLeads b.now first count v j) m.old m.new }
{
    for d in 0..count {
        clause_edges(m, b, g, first + d);
    }
}

pub(crate) fn edges(b: &Book) -> [u8; CELLS]
    requires { Sound b.now }
    ensures { Edges (view b.now) result }
{
    let mut m = [0u8; CELLS];
    for g in 0..b.goals {
        let first = b.first_clause(g);
        let count = b.clause_count(g);
        raise(&mut m, g, g, 1);
        goal_edges(&mut m, b, g, first, count);
    }
    m
}
