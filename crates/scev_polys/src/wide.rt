//! Whether a polynomial is above the limits.

ghost use Rattle.std.specs.Prelude.{◌≡◌, List};
ghost use Rattle.scev_arena.specs.Meaning.{Meant, meanings, terms_at};
ghost use Rattle.scev_arena.specs.Limits as limits;

use poly_terms::Term;
use scev_arena::Arena;
use scev_base::limits::{FACTORS, MONOMIALS};

/// Whether a polynomial has more monomials than `MONOMIALS`, or one of more factors than `FACTORS`.
pub fn are_wide(arena: &Arena, terms: &[Term]) -> bool
    ensures { result ≡ limits.are_wide (terms_at (meanings arena.now) terms.now) }
{
    let _ = arena;
    terms.len() > MONOMIALS || has_long_monomial(terms)
}

/// Whether some monomial has too many factors. Which atoms they are doesn't count.
fn has_long_monomial(terms: &[Term]) -> bool
    ensures { (meant : List Meant) → result ≡ limits.has_long_monomial (terms_at meant terms.now) }
{
    for term in terms {
        let factors = term.ids.len();
        if factors > FACTORS {
            return true;
        }
    }
    false
}
