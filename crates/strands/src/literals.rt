// A strand's literals, which the Rust keeps in `ex_clause.subgoals`: how many there are, which stands at an index, and the strand
// without the last one, which is the one that is chosen (`next_subgoal_index`).
ghost use Rattle.std.specs.Prelude.{◌≡◌, length};
ghost use Rattle.definitions.specs.Book.{goal_of};
ghost use Rattle.definitions.specs.Lists.{is_empty};
ghost use Rattle.definitions.specs.Slg.{next_subgoal_index};
ghost use Rattle.book.specs.View.{meant};
ghost use Rattle.strands.specs.View.{clause, is_negative};
ghost use Rattle.strands.specs.Literals.{subgoal_at, last_removed, answered};

use crate::{Strand, within};
use book::Literal;

// What stands behind the literals that count.
pub const NO_LITERAL: Literal = Literal {
    goal: 0,
    kind: 0,
    want: 0,
    high: 0,
};

// A "not", and no positive literal.
pub fn is_negative(l: Literal) -> bool
    ensures { result ≡ is_negative (meant l) }
{
    l.kind / 2 % 2 == 1
}

pub fn goal_of(l: Literal) -> u8
    ensures { result ≡ goal_of (meant l) }
{
    l.goal
}

pub fn subgoal_count(s: Strand) -> usize
    ensures { result ≡ length (clause s).subgoals }
{
    within(s.literal_count)
}

pub fn no_subgoals(s: Strand) -> bool
    ensures { result ≡ is_empty (clause s).subgoals }
{
    s.literal_count == 0
}

pub fn no_floundered(s: Strand) -> bool
    ensures { result ≡ is_empty (clause s).floundered_subgoals }
{
    s.floundered_count == 0
}

// `next_subgoal_index`: the last literal is chosen.
pub fn next_subgoal_index(s: Strand) -> usize
    ensures { result ≡ next_subgoal_index (clause s) }
{
    let n = within(s.literal_count);
    if n == 0 { 0 } else { n - 1 }
}

// What stands at an index, if anything does.
pub fn subgoal_at(s: Strand, i: usize) -> Option<Literal>
    ensures { result ≡ subgoal_at s i }
{
    let n = within(s.literal_count);
    if i < n { Some(s.literals[i]) } else { None }
}

pub fn last_subgoal(s: Strand) -> Option<Literal>
    ensures { result ≡ subgoal_at s (next_subgoal_index (clause s)) }
{
    let i = next_subgoal_index(s);
    subgoal_at(s, i)
}

// The last literal is removed: it was answered, or is delayed.
pub fn without_last(s: Strand) -> Strand
    ensures { result ≡ last_removed s }
{
    let i = next_subgoal_index(s);
    let mut t = s;
    t.literal_count = i as u8;
    t
}

// The last literal is removed for an answer that it got, and answer time rises. The two go together: a literal less makes room for
// a time more.
pub fn answered(s: Strand) -> Strand
    ensures { result ≡ answered s }
{
    let n = s.literal_count;
    let time = s.answer_time;
    if n == 0 {
        return s;
    }
    if n > 8 {
        return s;
    }
    if time == 255 {
        return s;
    }
    let mut t = s;
    t.literal_count = n - 1;
    t.answer_time = time + 1;
    t
}
