// Plain (definitions, `is_plain`): every clause has variant 0, every literal wants any variant, by command 50, and every flag is clear. And
// where a book is not plain first (definitions, `first_not_plain`): a search through its goals, their clauses and the literals of these,
// which ends where it finds a fault.
ghost use Rattle.std.specs.Prelude.{◌≡◌, ◌+◌, ◌≤◌};
ghost use Rattle.laws.specs.Spans.{span};
ghost use Rattle.definitions.specs.Book.{bit0};
ghost use Rattle.papers.specs.Levels.{is_plain};
ghost use Rattle.papers.specs.NotPlain.{flag_fault, literal_fault, first_from, literal_place, clause_place, first_not_plain};
ghost use Rattle.book.specs.View.{meant, view, Sound};
ghost use Rattle.book.specs.Repeats.{lent_by, clause_read};
ghost use Rattle.paper_checks.specs.Places.{fault_told, head_read, goal_read, numbers};

use crate::{Fault, NotPlain};
use book::access::{is_negative, is_ranged};
use book::{Book, Literal};

fn flag_fault(kind: u8) -> Option<Fault>
    ensures { result ≡ fault_told (flag_fault (bit0 kind)) }
{
    if kind % 2 == 1 {
        return Some(Fault::Flag);
    }
    None
}

fn literal_fault(l: Literal) -> Option<Fault>
    ensures { result ≡ fault_told (literal_fault (meant l)) }
{
    if is_negative(l) {
        return flag_fault(l.kind);
    }
    if is_ranged(l) {
        return Some(Fault::Range);
    }
    if l.want != 0 {
        return Some(Fault::Want);
    }
    flag_fault(l.kind)
}

// Of clause c but for its literals.
fn head_fault(b: &Book, c: usize) -> Option<Fault>
    ensures { result ≡ fault_told (head_read b.now c) }
{
    if b.variant(c) != 0 {
        return Some(Fault::Variant);
    }
    if b.cannot_prove(c) {
        return Some(Fault::Flag);
    }
    if b.gives_outsized(c) {
        return Some(Fault::Flag);
    }
    None
}

// Of a goal but for its clauses.
fn goal_fault(b: &Book, g: usize) -> Option<Fault>
    ensures { result ≡ fault_told (goal_read b.now g) }
{
    if b.is_coinductive(g) {
        return Some(Fault::Flag);
    }
    if b.is_floundered(g) {
        return Some(Fault::Flag);
    }
    None
}

// Of the literals of clause c, which is clause k of goal g.
fn literals_place(b: &Book, g: usize, k: usize, c: usize) -> Option<NotPlain>
    ensures { result ≡ numbers (first_from (literal_place g k) 0 (clause_read (lent_by b.now) c).literals) }
{
    let count = b.literal_count(c);
    for j in 0..count {
        if let Some(fault) = literal_fault(b.literal(c, j)) {
            return Some(NotPlain::Literal {
                goal: g,
                clause: k,
                literal: j,
                fault,
            });
        }
    }
    None
}

fn clause_place(b: &Book, g: usize, k: usize, c: usize) -> Option<NotPlain>
    ensures { result ≡ numbers (clause_place g k (clause_read (lent_by b.now) c)) }
{
    if let Some(fault) = head_fault(b, c) {
        return Some(NotPlain::Clause {
            goal: g,
            clause: k,
            fault,
        });
    }
    literals_place(b, g, k, c)
}

// So many clauses of goal g, from `first` on.
fn clauses_place(b: &Book, g: usize, first: usize, count: usize) -> Option<NotPlain>
    requires { first + count ≤ 256 }
    ensures { result ≡ numbers (first_from (clause_place g) 0 (span (clause_read (lent_by b.now)) first count)) }
{
    for k in 0..count {
        if let Some(p) = clause_place(b, g, k, first + k) {
            return Some(p);
        }
    }
    None
}

pub(crate) fn book_place(b: &Book) -> Option<NotPlain>
    requires { Sound b.now }
    ensures { result ≡ numbers (first_not_plain (view b.now)) }
{
    for g in 0..b.goals {
        if let Some(fault) = goal_fault(b, g) {
            return Some(NotPlain::Goal { goal: g, fault });
        }
        if let Some(p) = clauses_place(b, g, b.first_clause(g), b.clause_count(g)) {
            return Some(p);
        }
    }
    None
}

pub(crate) fn is_plain(b: &Book) -> bool
    requires { Sound b.now }
    ensures { result ≡ is_plain (view b.now) }
{
    book_place(b).is_none()
}
