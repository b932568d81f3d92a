// A book by goal, clause and literal. Each function takes only the arrays that it reads, so that they can be lent, and is right for
// any place: past an array's size there is nothing.
ghost use Rattle.std.specs.Prelude.{◌≡◌, ◌/◌, ◌%◌};
ghost use Rattle.definitions.specs.Book.{bit0, bit1};
ghost use Rattle.book.specs.Access.{entry, literal_read};
ghost use Rattle.book.specs.View.{bit2};

use crate::{Book, Literal};
use sizes::{BOOK_LITERALS, MOST_CLAUSES, MOST_GOALS, MOST_LITERALS};

fn goal_byte(a: &[u8; MOST_GOALS], goal: usize) -> u8
    ensures { result ≡ entry 64 a.now goal }
{
    a.get(goal).copied().unwrap_or(0)
}

pub fn goal_number(a: &[u16; MOST_GOALS], goal: usize) -> u16
    ensures { result ≡ entry 64 a.now goal }
{
    a.get(goal).copied().unwrap_or(0)
}

fn clause_byte(a: &[u8; MOST_CLAUSES], clause: usize) -> u8
    ensures { result ≡ entry 256 a.now clause }
{
    a.get(clause).copied().unwrap_or(0)
}

pub fn is_coinductive(flags: &[u8; MOST_GOALS], goal: usize) -> bool
    ensures { result ≡ bit0 (entry 64 flags.now goal) }
{
    goal_byte(flags, goal) % 2 == 1
}

pub fn is_floundered(flags: &[u8; MOST_GOALS], goal: usize) -> bool
    ensures { result ≡ bit1 (entry 64 flags.now goal) }
{
    goal_byte(flags, goal) / 2 % 2 == 1
}

// The place of a goal's first clause among the book's clauses.
pub fn first_clause(first: &[u16; MOST_GOALS], goal: usize) -> usize
    ensures { result ≡ entry 64 first.now goal }
{
    goal_number(first, goal) as usize
}

// How many clauses a goal has.
pub fn clause_count(len: &[u16; MOST_GOALS], goal: usize) -> usize
    ensures { result ≡ entry 64 len.now goal }
{
    goal_number(len, goal) as usize
}

// The ends of what a literal wants, out of the number that keeps both.
pub fn low_end(ends: u32) -> u16
    ensures { result ≡ ends % 65536 }
{
    (ends % 65536) as u16
}

pub fn high_end(ends: u32) -> u16
    ensures { result ≡ ends / 65536 }
{
    (ends / 65536) as u16
}

// Literal `at` of a clause.
pub fn literal_at(
    kind: &[u8; BOOK_LITERALS],
    goal: &[u16; BOOK_LITERALS],
    want: &[u32; BOOK_LITERALS],
    clause: usize,
    at: usize,
) -> Literal
    ensures { result ≡ literal_read kind.now goal.now want.now clause at }
{
    if clause >= MOST_CLAUSES || at >= MOST_LITERALS {
        return Literal::BLANK;
    }
    let place = MOST_LITERALS * clause + at;
    Literal {
        goal: (goal[place] % 256) as u8,
        kind: kind[place],
        want: low_end(want[place]),
        high: high_end(want[place]),
    }
}

// The literal is a "not".
pub fn is_negative(l: Literal) -> bool
    ensures { result ≡ bit1 l.kind }
{
    l.kind / 2 % 2 == 1
}

// The literal wants a range of variants.
pub fn is_ranged(l: Literal) -> bool
    ensures { result ≡ bit2 l.kind }
{
    l.kind / 4 % 2 == 1
}

// A book's own, by goal, clause and literal; past what an array holds there is nothing.
impl Book {
    pub fn is_coinductive(&self, goal: usize) -> bool
        ensures { result ≡ bit0 (entry 64 self.now.goal_flags goal) }
    {
        is_coinductive(&self.goal_flags, goal)
    }

    pub fn is_floundered(&self, goal: usize) -> bool
        ensures { result ≡ bit1 (entry 64 self.now.goal_flags goal) }
    {
        is_floundered(&self.goal_flags, goal)
    }

    // The place of a goal's first clause among the book's clauses.
    pub fn first_clause(&self, goal: usize) -> usize
        ensures { result ≡ entry 64 self.now.goal_first goal }
    {
        first_clause(&self.goal_first, goal)
    }

    // How many clauses a goal has.
    pub fn clause_count(&self, goal: usize) -> usize
        ensures { result ≡ entry 64 self.now.goal_len goal }
    {
        clause_count(&self.goal_len, goal)
    }

    pub fn variant(&self, clause: usize) -> u16
        ensures { result ≡ entry 256 self.now.clause_variant clause }
    {
        self.clause_variant.get(clause).copied().unwrap_or(0)
    }

    pub fn cannot_prove(&self, clause: usize) -> bool
        ensures { result ≡ bit0 (entry 256 self.now.clause_flags clause) }
    {
        clause_byte(&self.clause_flags, clause) % 2 == 1
    }

    // The clause's answer is too large to keep.
    pub fn gives_outsized(&self, clause: usize) -> bool
        ensures { result ≡ bit1 (entry 256 self.now.clause_flags clause) }
    {
        clause_byte(&self.clause_flags, clause) / 2 % 2 == 1
    }

    // How many literals a clause has.
    pub fn literal_count(&self, clause: usize) -> usize
        ensures { result ≡ entry 256 self.now.clause_len clause }
    {
        clause_byte(&self.clause_len, clause) as usize
    }

    // Literal `at` of a clause.
    pub fn literal(&self, clause: usize, at: usize) -> Literal
        ensures { result ≡ literal_read self.now.literal_kind self.now.literal_goal self.now.literal_want clause at }
    {
        literal_at(
            &self.literal_kind,
            &self.literal_goal,
            &self.literal_want,
            clause,
            at,
        )
    }
}
