//! Limits of polynomials.

ghost use Rattle.std.specs.Prelude.{◌↔◌, IsTrue};
ghost use Rattle.poly_terms.specs.Terms.{HasLongMonomial, IsTooWide};

use crate::term::Term;
use scev_base::limits::{FACTORS, MONOMIALS};

/// Whether a polynomial of these terms is above the limits.
pub(crate) fn is_too_wide(terms: &[Term]) -> bool
    ensures { IsTrue result ↔ IsTooWide terms.now }
{
    terms.len() > MONOMIALS || has_long_monomial(terms)
}

/// Whether some monomial has too many factors.
fn has_long_monomial(terms: &[Term]) -> bool
    ensures { IsTrue result ↔ HasLongMonomial terms.now }
{
    for term in terms {
        let factors = term.ids.len();
        if factors > FACTORS {
            return true;
        }
    }
    false
}
