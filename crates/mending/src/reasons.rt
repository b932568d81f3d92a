// Why a clause goes: a literal of it names no goal of the paper, or else an earlier clause of its goal is the same.
ghost use Rattle.std.specs.Prelude.{◌≡◌, get_or, ◌+◌, ◌<◌, ◌≤◌, replicate, None};
ghost use Rattle.book.specs.View.{Formed};
ghost use Rattle.book.specs.Repeats.{lent_by};
ghost use Rattle.mending.specs.Reasons.{number, all_below, goals_named, repeats_at, repeats as repeatsOf, reason_by, reasons_from};
ghost use Rattle.mending.specs.Reasons.{FewLiterals, Reasoned};

use book::Book;
use sizes::{MOST_CLAUSES, MOST_LITERALS};

#[derive(Clone, Copy)]
pub(crate) enum Reason {
    NamesNoGoal,
    RepeatedClause,
}

// The number of the desk's refusal.
impl From<Reason> for u8 {
    ghost from_gives = { λ reason n. n ≡ number reason };

    fn from(reason: Reason) -> u8 {
        match reason {
            Reason::NamesNoGoal => 6,
            Reason::RepeatedClause => 36,
        }
    }
}

// The literals of clause c name goals of the book.
fn names(b: &Book, c: usize) -> bool
    requires c_bound { c < 256 }
    requires few_literals { get_or b.now.clause_len c 0 ≤ 8 }
    ensures { result ≡ all_below b.now.goals (goals_named b.now.clause_len b.now.literal_goal c) }
{
    for j in 0..b.literal_count(c) {
        if b.literal_goal[MOST_LITERALS * c + j] as usize >= b.goals {
            return false;
        }
    }
    true
}

// Clause d is the same as clause c, and its literals name goals. Where they do not it is passed over: of a goal's number the accessors
// keep eight bits, so that goal 261 would pass for goal 5; and a clause all of whose goals are there is the same as none of them.
fn repeats_at(b: &Book, reasons: &[Option<Reason>; MOST_CLAUSES], c: usize, d: usize) -> bool
    requires { d < 256 }
    ensures { result ≡ repeats_at (lent_by b.now) reasons.now c d }
{
    match reasons[d] {
        Some(Reason::NamesNoGoal) => false,
        _ => b.same_clause(c, d),
    }
}

// Such a clause stands between `first` and c.
fn repeats(b: &Book, reasons: &[Option<Reason>; MOST_CLAUSES], first: usize, c: usize) -> bool
    requires first_le_c { first ≤ c }
    requires c_bound { c < 256 }
    ensures { result ≡ repeatsOf (lent_by b.now) reasons.now first c }
{
    for d in first..c {
        if repeats_at(b, reasons, c, d) {
            return true;
        }
    }
    false
}

// The reason of clause c, whose goal's clauses begin at `first`.
fn reason_of(
    b: &Book,
    reasons: &[Option<Reason>; MOST_CLAUSES],
    first: usize,
    c: usize,
) -> Option<Reason>
    requires first_le_c { first ≤ c }
    requires c_bound { c < 256 }
    requires few_literals { get_or b.now.clause_len c 0 ≤ 8 }
    ensures { result ≡ reason_by (lent_by b.now) reasons.now b.now.goals first c }
{
    if !names(b, c) {
        return Some(Reason::NamesNoGoal);
    }
    if repeats(b, reasons, first, c) {
        return Some(Reason::RepeatedClause);
    }
    None
}

// The reasons of a goal's clauses, so many from `first` on.
fn goal_reasons(b: &Book, reasons: &mut [Option<Reason>; MOST_CLAUSES], first: usize, count: usize)
    requires count_bound { first + count ≤ 256 }
    requires few_literals { FewLiterals b.now.clause_len }
    ensures { reasons.new ≡ reasons_from (lent_by b.now) b.now.goals first first count reasons.old }
{
    for k in 0..count {
        let c = first + k;
        reasons[c] = reason_of(b, reasons, first, c);
    }
}

fn none() -> [Option<Reason>; MOST_CLAUSES]
    ensures { result ≡ replicate 256 None }
{
    [None; MOST_CLAUSES]
}

// The reason of every clause of a book, by its place among the book's clauses; none where it stays.
pub(crate) fn reasons_of(b: &Book) -> [Option<Reason>; MOST_CLAUSES]
    requires { Formed b.now }
    ensures { Reasoned b.now result }
{
    let mut reasons = none();
    for g in 0..b.goals {
        goal_reasons(b, &mut reasons, b.first_clause(g), b.clause_count(g));
    }
    reasons
}
