//! The product of two polynomials.

ghost use Rattle.std.specs.Prelude.{◌≡◌, ◌∷◌, [], IfOk};
ghost use Rattle.scev_arena.specs.Meaning.{meanings, factors_at, terms_at};
ghost use Rattle.scev_forms.specs.Polynomials.{terms_multiple, terms_product};
ghost use Rattle.scev_polys.specs.Polynomials.{IsPolynomial};

use crate::monomial::joined;
use crate::sums::sum;
use crate::terms::push_term;
use poly_terms::Term;
use scev_arena::Arena;
use scev_base::Width;
use sqlite_items::Items;
use std::alloc::{AllocError, Global};

/// The product of two polynomials modulo 2 to the width: monomials are joined and their coefficients multiplied, those
/// of one monomial are added, and those that become 0 go. It fails only where no memory is found.
///
/// Each half of the left one is multiplied on its own, so a term is copied about log2 of its length times.
pub fn product(
    alloc: Global,
    arena: &Arena,
    w: Width,
    left: &[Term],
    right: &[Term],
) -> Result<Items<Term>, AllocError>
    requires left { IsPolynomial arena.now w.bits left.now }
    requires right { IsPolynomial arena.now w.bits right.now }
    ensures product { IfOk result (λ terms. terms_at (meanings arena.now) terms
        ≡ terms_product w.bits (terms_at (meanings arena.now) left.now) (terms_at (meanings arena.now) right.now)) }
    ensures polynomial { IfOk result (λ terms. IsPolynomial arena.now w.bits terms) }
{
    match left {
        [] => Ok(Items::new(alloc)),
        [s] => row(alloc, arena, w, s, right),
        _ => {
            let (front, back) = left.split_at(left.len() / 2);
            let fronts = product(alloc, arena, w, front, right)?;
            let backs = product(alloc, arena, w, back, right)?;
            sum(alloc, arena, w, fronts.as_slice(), backs.as_slice())
        }
    }
}

/// The product of a term with a polynomial. A product of monomials with one monomial keeps their order, so none has to
/// be compared.
fn row(
    alloc: Global,
    arena: &Arena,
    w: Width,
    s: &Term,
    right: &[Term],
) -> Result<Items<Term>, AllocError>
    requires left { IsPolynomial arena.now w.bits (s.now ∷ []) }
    requires right { IsPolynomial arena.now w.bits right.now }
    ensures multiple { IfOk result (λ terms. terms_at (meanings arena.now) terms ≡ terms_multiple w.bits
        (factors_at (meanings arena.now) s.now.ids) s.now.coefficient (terms_at (meanings arena.now) right.now)) }
    ensures polynomial { IfOk result (λ terms. IsPolynomial arena.now w.bits terms) }
{
    let mut terms = Vec::with_capacity(alloc, right.len())?;
    for t in right {
        let ids = joined(alloc, arena, s.ids.as_slice(), t.ids.as_slice())?;
        let coefficient = s.coefficient.wrapping_mul(t.coefficient);
        push_term(&mut terms, w, ids.as_slice(), coefficient)?;
    }
    Ok(Items::from_vec(terms))
}
