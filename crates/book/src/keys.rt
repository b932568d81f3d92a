// A number for each clause, the same for clauses that are the same: so that two of them are compared literal by literal only where their
// numbers agree. A largest goal has 32,640 pairs of clauses.
ghost use Rattle.std.specs.Prelude.{◌≡◌, ◌<◌, ◌≤◌};
ghost use Rattle.definitions.specs.Book.{flag};
ghost use Rattle.book.specs.View.{meant};
ghost use Rattle.book.specs.Repeats.{lent_by, clause_read, literal_number, want_number, mix, mix_literal, head_number, clause_key, Keys};

use crate::access::{is_negative, is_ranged};
use crate::decode::ends;
use crate::{Book, Literal};
use sizes::MOST_CLAUSES;

// A literal in two numbers: the goal with its sign and mark, and what is wanted of it.
fn literal_number(l: Literal) -> u32
    ensures { result ≡ literal_number (meant l) }
{
    let n = 4 * (l.goal as u32) + (l.kind % 2) as u32;
    if is_negative(l) {
        return n + 2;
    }
    n
}

fn want_number(l: Literal) -> u32
    ensures { result ≡ want_number (meant l) }
{
    if is_negative(l) {
        return 0;
    }
    if is_ranged(l) {
        return ends(l.want, l.high);
    }
    l.want as u32
}

// The factor is odd, so that two keys differ where just one number of one literal does.
fn mixed(key: u32, n: u32) -> u32
    ensures { result ≡ mix key n }
{
    (((key as u64) * 2654435769 + (n as u64)) % 4294967296) as u32
}

fn first_key(variant: u16, weak: bool, outsized: bool) -> u32
    ensures { result ≡ head_number variant weak outsized }
{
    4 * (variant as u32) + 2 * u32::from(weak) + u32::from(outsized)
}

fn with_literal(key: u32, l: Literal) -> u32
    ensures { result ≡ mix_literal key (meant l) }
{
    let k = mixed(key, want_number(l));
    mixed(k, literal_number(l))
}

impl Book {
    fn clause_key(&self, c: usize) -> u32
        ensures { result ≡ clause_key (clause_read (lent_by self.now) c) }
    {
        let mut key = first_key(
            self.variant(c),
            self.cannot_prove(c),
            self.gives_outsized(c),
        );
        let count = self.literal_count(c);
        for j in 0..count {
            key = with_literal(key, self.literal(c, j));
        }
        key
    }

    // The keys of all its clauses, by their places.
    pub(crate) fn keys(&self) -> [u32; MOST_CLAUSES]
        requires { self.now.clauses ≤ 256 }
        ensures { Keys (lent_by self.now) result self.now.clauses }
    {
        let mut keys = [0u32; MOST_CLAUSES];
        for c in 0..self.clauses {
            keys[c] = self.clause_key(c);
        }
        keys
    }
}
