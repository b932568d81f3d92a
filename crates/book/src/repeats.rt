// The same clause twice in a goal (definitions, `first_repeat`): each clause of a goal is held against those before it.
ghost use Rattle.std.specs.Prelude.{◌≡◌, [], ◌+◌, ◌<◌, ◌≤◌};
ghost use Rattle.definitions.specs.Desk.{same_clause, repeat_behind, first_repeat};
ghost use Rattle.laws.specs.Spans.{span};
ghost use Rattle.book.specs.View.{view, Sound};
ghost use Rattle.book.specs.Repeats.{lent_by, clause_read, Keys, Earlier, repeat_seen};

use crate::{Book, Repeat};
use sizes::MOST_CLAUSES;

// The same clause, where the keys of all up to c are known.
fn is_same(b: &Book, keys: &[u32; MOST_CLAUSES], c: usize, d: usize) -> bool
    requires d_le_c { d ≤ c }
    requires c_bound { c < 256 }
    requires keys { Keys (lent_by b.now) keys.now (c + 1) }
    ensures { result ≡ same_clause (clause_read (lent_by b.now) c) (clause_read (lent_by b.now) d) }
{
    keys[c] == keys[d] && b.same_clause(c, d)
}

// The first clause from `first` on that is the same as clause c; c itself, where none before it is.
fn earlier(b: &Book, keys: &[u32; MOST_CLAUSES], first: usize, c: usize) -> usize
    requires first_le_c { first ≤ c }
    requires c_bound { c < 256 }
    requires keys { Keys (lent_by b.now) keys.now (c + 1) }
    ensures { Earlier (clause_read (lent_by b.now)) first c result }
{
    for d in first..c {
        if is_same(b, keys, c, d) {
            return d;
        }
    }
    c
}

// The first repeat of goal g, whose clauses are so many from `first` on.
fn goal_repeat(
    b: &Book,
    keys: &[u32; MOST_CLAUSES],
    g: usize,
    first: usize,
    count: usize,
) -> Option<Repeat>
    requires count_bound { first + count ≤ 256 }
    requires keys { Keys (lent_by b.now) keys.now (first + count) }
    ensures { repeat_seen result ≡ repeat_behind g [] (span (clause_read (lent_by b.now)) first count) }
{
    for k in 0..count {
        let c = first + k;
        let e = earlier(b, keys, first, c);
        if e < c {
            return Some(Repeat {
                goal: g,
                clause: k,
                earlier: e - first,
            });
        }
    }
    None
}

// The first repeat of a book.
pub(crate) fn book_repeat(b: &Book) -> Option<Repeat>
    requires { Sound b.now }
    ensures { repeat_seen result ≡ first_repeat (view b.now) }
{
    let keys = b.keys();
    for g in 0..b.goals {
        if let Some(r) = goal_repeat(b, &keys, g, b.first_clause(g), b.clause_count(g)) {
            return Some(r);
        }
    }
    None
}
