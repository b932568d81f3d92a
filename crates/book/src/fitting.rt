// The four questions that control asks about terms, each in one place: how a literal, a want and an answer fit together. In the Rust
// they are calls into chalk-ir and chalk-solve.
ghost use Rattle.std.specs.Prelude.{◌≡◌};
ghost use Rattle.definitions.specs.Book.{high as high_of};
ghost use Rattle.definitions.specs.Fitting.{gets_table, answer_fits, is_trivial, is_outsized};
ghost use Rattle.book.specs.View.{meant, wanted, bit2};
ghost use Rattle.book.specs.Fitting.{subst_of};

use crate::access::{is_negative, is_ranged};
use crate::{Literal, Subst};

// Does this literal get a table? (logic.rs `abstract_positive_literal`, `abstract_negative_literal`)
pub fn gets_table(l: Literal) -> bool
    ensures { result ≡ gets_table (meant l) }
{
    l.kind % 2 != 1
}

// The largest variant that a positive literal wants. The least is its `want`, whichever kind it has.
fn high(l: Literal) -> u16
    ensures { result ≡ high_of (wanted (bit2 l.kind) l.want l.high) }
{
    if is_ranged(l) {
        return l.high;
    }
    if l.want == 0 {
        return 65535;
    }
    l.want
}

// Does an answer of this variant fit the literal? (resolvent.rs `apply_answer_subst`)
pub fn answer_fits(l: Literal, variant: u16) -> bool
    ensures { result ≡ answer_fits (meant l) variant }
{
    if is_negative(l) {
        return true;
    }
    if variant == 0 {
        return true;
    }
    if variant < l.want {
        return false;
    }
    variant <= high(l)
}

// Is an answer of this variant trivial, so that no other is worth having? (`is_trivial_substitution`)
pub fn is_trivial(variant: u16) -> bool
    ensures { result ≡ is_trivial variant }
{
    variant == 0
}

// Is the answer too large to keep? (`needs_truncation` in logic.rs `pursue_answer`)
pub fn is_outsized(s: Subst) -> bool
    ensures { result ≡ is_outsized (subst_of s) }
{
    s.outsized
}
