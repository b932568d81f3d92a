// The same clause (definitions, `same_clause`): by variant, flags and literals in their order, each literal by its command and operands.
ghost use Rattle.std.specs.Prelude.{◌≡◌, ◌&&◌, eqb};
ghost use Rattle.definitions.specs.Book.{bit0};
ghost use Rattle.definitions.specs.Desk.{same_flag, same_want, same_literal, same_literals, same_clause};
ghost use Rattle.book.specs.View.{meant, wanted, bit2};
ghost use Rattle.book.specs.Repeats.{lent_by, literals_read, clause_read};

use crate::access::{is_negative, is_ranged};
use crate::{Book, Literal};

// What two positive literals want.
fn same_want(l: Literal, m: Literal) -> bool
    ensures { result ≡ same_want (wanted (bit2 l.kind) l.want l.high) (wanted (bit2 m.kind) m.want m.high) }
{
    if is_ranged(l) {
        return is_ranged(m) && l.want == m.want && l.high == m.high;
    }
    !is_ranged(m) && l.want == m.want
}

// The goals of two literals, and their marks.
fn same_goal(l: Literal, m: Literal) -> bool
    ensures { result ≡ (eqb l.goal m.goal && same_flag (bit0 l.kind) (bit0 m.kind)) }
{
    l.goal == m.goal && (l.kind % 2 == 1) == (m.kind % 2 == 1)
}

fn same_literal(l: Literal, m: Literal) -> bool
    ensures { result ≡ same_literal (meant l) (meant m) }
{
    if is_negative(l) {
        return is_negative(m) && same_goal(l, m);
    }
    !is_negative(m) && same_want(l, m) && same_goal(l, m)
}

impl Book {
    fn same_literals(&self, c: usize, d: usize) -> bool
        ensures { result ≡ same_literals (clause_read (lent_by self.now) c).literals (clause_read (lent_by self.now) d).literals }
    {
        let count = self.literal_count(c);
        if self.literal_count(d) != count {
            return false;
        }
        for j in 0..count {
            let l = self.literal(c, j);
            let m = self.literal(d, j);
            if !same_literal(l, m) {
                return false;
            }
        }
        true
    }

    pub fn same_clause(&self, c: usize, d: usize) -> bool
        ensures { result ≡ same_clause (clause_read (lent_by self.now) c) (clause_read (lent_by self.now) d) }
    {
        self.variant(c) == self.variant(d)
            && self.cannot_prove(c) == self.cannot_prove(d)
            && self.gives_outsized(c) == self.gives_outsized(d)
            && self.same_literals(c, d)
    }
}
