//! Sums and products of polynomials, within the limits.

ghost use Rattle.std.specs.Prelude.{◌≡◌, ℕ, ◌+◌, ◌*◌, ◌%◌, ◌^◌, IfOk, IfErr};
ghost use Rattle.poly_terms.specs.Terms.{IsCanonical, IsTooWide, HasSum, HasProduct};
ghost use Rattle.poly_terms.specs.Terms.{SumIsTooWide, ProductIsTooWide, value_of};

use crate::error::TermError;
use crate::limit::is_too_wide;
use crate::merge::merge;
use crate::product::multiply;
use crate::term::Term;
use crate::terms::Terms;
use scev_base::Width;
use sqlite_items::Items;
use std::alloc::Global;

/// The sum of two polynomials modulo 2^w, given by their pairs: at each monomial the residue of the sum of both
/// coefficients. `TooWide` comes exactly where it is above the limits, and `OutOfMemory` only where no memory is
/// found. It is one merge of the pairs of both, and nothing is copied but what comes out.
pub fn sum_of(alloc: Global, w: Width, left: &[Term], right: &[Term]) -> Result<Terms, TermError>
    requires left { IsCanonical w.bits left.now }
    requires right { IsCanonical w.bits right.now }
    ensures width { IfOk result (λ terms. terms.bits ≡ w.bits) }
    ensures canonical { IfOk result (λ terms. IsCanonical w.bits terms.pairs) }
    ensures within { IfOk result (λ terms. IsTooWide terms.pairs → ⊥) }
    ensures sum { IfOk result (λ terms. HasSum w.bits left.now right.now terms.pairs) }
    ensures value { IfOk result (λ terms. (atoms : ℕ → ℕ) → value_of atoms terms.pairs % 2 ^ w.bits
        ≡ (value_of atoms left.now + value_of atoms right.now) % 2 ^ w.bits) }
    ensures too_wide { IfErr result (λ error. error ≡ TermError.TooWide
        → SumIsTooWide w.bits left.now right.now) }
{
    let pairs = merge(alloc, w, left, right)?;
    within_limits(w, pairs)
}

/// The product of two polynomials modulo 2^w, given by their pairs: at each monomial the residue of the sum of the
/// products of the coefficients of those monomials whose product it is. `TooWide` comes exactly where it is above
/// the limits, and `OutOfMemory` only where no memory is found.
pub fn product_of(
    alloc: Global,
    w: Width,
    left: &[Term],
    right: &[Term],
) -> Result<Terms, TermError>
    requires left { IsCanonical w.bits left.now }
    requires right { IsCanonical w.bits right.now }
    ensures width { IfOk result (λ terms. terms.bits ≡ w.bits) }
    ensures canonical { IfOk result (λ terms. IsCanonical w.bits terms.pairs) }
    ensures within { IfOk result (λ terms. IsTooWide terms.pairs → ⊥) }
    ensures product { IfOk result (λ terms. HasProduct w.bits left.now right.now terms.pairs) }
    ensures value { IfOk result (λ terms. (atoms : ℕ → ℕ) → value_of atoms terms.pairs % 2 ^ w.bits
        ≡ (value_of atoms left.now * value_of atoms right.now) % 2 ^ w.bits) }
    ensures too_wide { IfErr result (λ error. error ≡ TermError.TooWide
        → ProductIsTooWide w.bits left.now right.now) }
{
    let pairs = multiply(alloc, w, left, right)?;
    within_limits(w, pairs)
}

/// The polynomial of these pairs, unless it is above the limits.
fn within_limits(w: Width, pairs: Vec<Term>) -> Result<Terms, TermError>
    requires { IsCanonical w.bits pairs.items }
    ensures ok { IfOk result (λ terms. terms ≡ record { bits = w.bits; pairs = pairs.items }) }
    ensures within { IfOk result (λ _. IsTooWide pairs.items → ⊥) }
    ensures err { IfErr result (λ _. IsTooWide pairs.items) }
{
    if is_too_wide(pairs.as_slice()) {
        Err(TermError::TooWide)
    } else {
        Ok(Terms::from_pairs(w, Items::from_vec(pairs)))
    }
}
