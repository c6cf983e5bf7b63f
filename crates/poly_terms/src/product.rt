//! The product of two polynomials.

ghost use Rattle.std.specs.Prelude.{ℕ, List, IfOk, OnOk};
ghost use Rattle.scev_base.specs.declared.ids.ExprId.{ExprId};
ghost use Rattle.poly_terms.specs.Monomials.{IsMonomial};
ghost use Rattle.poly_terms.specs.Terms.{IsCanonical, AreReduced};
ghost use Rattle.poly_terms.specs.Weights.{weight, row_weight, product_weight, AreCongruent, IsMultiplied};

use crate::merge::merge;
use crate::monomial::union_of;
use crate::term::Term;
use scev_base::{Width, trunc};
use std::alloc::{AllocError, Global};

/// The terms of the product of two polynomials modulo 2^w, of whatever size. Each half of the left one is
/// multiplied on its own, so a term is copied about log2 of its length times.
pub(crate) fn multiply(
    alloc: Global,
    w: Width,
    left: &[Term],
    right: &[Term],
) -> Result<Vec<Term>, AllocError>
    requires left { AreReduced w.bits left.now }
    requires right { IsCanonical w.bits right.now }
    ensures canonical { IfOk result (λ terms. IsCanonical w.bits terms.items) }
    ensures weight { IfOk result (λ terms. (number : List ExprId → ℕ)
        → AreCongruent w.bits (weight number terms.items) (product_weight number left.now right.now)) }
{
    match left {
        [] => Ok(Vec::new(alloc)),
        [s] => multiply_row(alloc, w, s, right),
        _ => {
            let (front, back) = left.split_at(left.len() / 2);
            let fronts = multiply(alloc, w, front, right)?;
            let backs = multiply(alloc, w, back, right)?;
            merge(alloc, w, fronts.as_slice(), backs.as_slice())
        }
    }
}

/// The terms of the product of a term with a polynomial modulo 2^w. A product of monomials with one monomial
/// keeps their order.
fn multiply_row(alloc: Global, w: Width, s: &Term, right: &[Term]) -> Result<Vec<Term>, AllocError>
    requires monomial { IsMonomial s.now.ids }
    requires right { IsCanonical w.bits right.now }
    ensures canonical { IfOk result (λ terms. IsCanonical w.bits terms.items) }
    ensures weight { IfOk result (λ terms. (number : List ExprId → ℕ)
        → AreCongruent w.bits (weight number terms.items) (row_weight number s.now right.now)) }
{
    let mut terms = Vec::with_capacity(alloc, right.len())?;
    for t in right {
        push_product(&mut terms, w, s, t)?;
    }
    Ok(terms)
}

/// Adds the product of two terms to the end, unless it is 0.
fn push_product(terms: &mut Vec<Term>, w: Width, s: &Term, t: &Term) -> Result<(), AllocError>
    requires left { IsMonomial s.now.ids }
    requires right { IsMonomial t.now.ids }
    ensures { OnOk result (IsMultiplied w.bits terms.old.items s.now t.now terms.new.items) }
{
    let coefficient = trunc(s.coefficient.wrapping_mul(t.coefficient), w);
    if coefficient != 0 {
        let alloc = *terms.allocator();
        let ids = union_of(alloc, s.ids.as_slice(), t.ids.as_slice())?;
        terms.push(Term { ids, coefficient })?;
    }
    Ok(())
}
