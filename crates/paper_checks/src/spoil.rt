// What a goal spoils by itself (definitions, `spoil`): that it is coinductive, or else its first "not".
ghost use Rattle.std.specs.Prelude.{◌≡◌, ◌+◌, ◌≤◌, ◌<◌};
ghost use Rattle.laws.specs.Spans.{span};
ghost use Rattle.papers.specs.NotPlain.{first_from};
ghost use Rattle.papers.specs.Spoilt.{not_in_clause};
ghost use Rattle.book.specs.Repeats.{lent_by, clause_read};
ghost use Rattle.paper_checks.specs.Spoilers.{own_told, spoil_read, itself};

use crate::OwnSpoil;
use book::Book;
use book::access::is_negative;

// The first "not" of clause c, which is clause k of its goal.
fn clause_not(b: &Book, k: usize, c: usize) -> Option<OwnSpoil>
    requires { k < 256 }
    ensures { result ≡ own_told (not_in_clause k (clause_read (lent_by b.now) c)) }
{
    let count = b.literal_count(c);
    for j in 0..count {
        if is_negative(b.literal(c, j)) {
            return Some(OwnSpoil::Negative {
                clause: k as u8,
                literal: j as u8,
            });
        }
    }
    None
}

// The first "not" of so many clauses from `first` on.
fn clauses_not(b: &Book, first: usize, count: usize) -> Option<OwnSpoil>
    requires { first + count ≤ 256 }
    ensures { result ≡ own_told (first_from not_in_clause 0 (span (clause_read (lent_by b.now)) first count)) }
{
    for k in 0..count {
        if let Some(s) = clause_not(b, k, first + k) {
            return Some(s);
        }
    }
    None
}

// Of goal g, which has so many clauses from `first` on.
pub(crate) fn own_spoil(b: &Book, g: usize, first: usize, count: usize) -> Option<OwnSpoil>
    requires { first + count ≤ 256 }
    ensures { result ≡ own_told (spoil_read b.now g first count) }
{
    if b.is_coinductive(g) {
        return Some(OwnSpoil::Coinductive);
    }
    clauses_not(b, first, count)
}

// By which goal it is spoilt before any pass: by itself, or by none.
pub(crate) fn by_itself(own: Option<OwnSpoil>, goal: usize) -> Option<u8>
    requires { goal < 64 }
    ensures { result ≡ itself own goal }
{
    match own {
        Some(_) => Some(goal as u8),
        None => None,
    }
}
