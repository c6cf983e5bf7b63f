//! The sum of two polynomials, by a merge of their terms.

ghost use Rattle.std.specs.Prelude.{ℕ, ◌+◌, List, IfOk, OnOk};
ghost use Rattle.scev_base.specs.declared.ids.ExprId.{ExprId};
ghost use Rattle.poly_terms.specs.Terms.{IsCanonical};
ghost use Rattle.poly_terms.specs.Weights.{weight, AreCongruent, IsJoined};

use crate::monomial::compare;
use crate::term::{Term, extend};
use scev_base::{Width, trunc};
use std::alloc::{AllocError, Global};
use std::cmp::Ordering;

/// The terms of the sum of two polynomials modulo 2^w, of whatever size.
pub(crate) fn merge(
    alloc: Global,
    w: Width,
    left: &[Term],
    right: &[Term],
) -> Result<Vec<Term>, AllocError>
    requires left { IsCanonical w.bits left.now }
    requires right { IsCanonical w.bits right.now }
    ensures canonical { IfOk result (λ terms. IsCanonical w.bits terms.items) }
    ensures weight { IfOk result (λ terms. (number : List ExprId → ℕ)
        → AreCongruent w.bits (weight number terms.items) (weight number left.now + weight number right.now)) }
{
    let (mut lefts, mut rights) = (left, right);
    let mut merged = Vec::with_capacity(alloc, left.len().saturating_add(right.len()))?;
    while let (Some((s, ss)), Some((t, ts))) = (lefts.split_first(), rights.split_first()) {
        match compare(s.ids.as_slice(), t.ids.as_slice()) {
            Ordering::Less => {
                merged.push(s.copy(alloc)?)?;
                lefts = ss;
            }
            Ordering::Greater => {
                merged.push(t.copy(alloc)?)?;
                rights = ts;
            }
            Ordering::Equal => {
                push_sum(&mut merged, w, s, t)?;
                lefts = ss;
                rights = ts;
            }
        }
    }
    extend(&mut merged, lefts)?;
    extend(&mut merged, rights)?;
    Ok(merged)
}

/// Adds the sum of two terms of one monomial to the end, where their coefficients don't cancel.
fn push_sum(terms: &mut Vec<Term>, w: Width, s: &Term, t: &Term) -> Result<(), AllocError>
    ensures { OnOk result (IsJoined w.bits terms.old.items s.now t.now terms.new.items) }
{
    let sum = trunc(s.coefficient.wrapping_add(t.coefficient), w);
    if sum != 0 {
        let alloc = *terms.allocator();
        terms.push(Term::copied(alloc, s.ids.as_slice(), sum)?)?;
    }
    Ok(())
}
