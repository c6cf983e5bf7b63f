//! The sum of two polynomials.

ghost use Rattle.std.specs.Prelude.{◌≡◌, IfOk};
ghost use Rattle.scev_arena.specs.Meaning.{meanings, terms_at};
ghost use Rattle.scev_forms.specs.Polynomials.{terms_sum};
ghost use Rattle.scev_polys.specs.Polynomials.{IsPolynomial};

use crate::terms::{extend, push_term};
use poly_terms::Term;
use scev_arena::Arena;
use scev_base::Width;
use scev_walk::compare_monomials;
use sqlite_items::Items;
use std::alloc::{AllocError, Global};
use std::cmp::Ordering;

/// The sum of two polynomials modulo 2 to the width: coefficients of one monomial are added, and those that become 0
/// go. It is one merge of both, and fails only where no memory is found.
pub fn sum(
    alloc: Global,
    arena: &Arena,
    w: Width,
    left: &[Term],
    right: &[Term],
) -> Result<Items<Term>, AllocError>
    requires left { IsPolynomial arena.now w.bits left.now }
    requires right { IsPolynomial arena.now w.bits right.now }
    ensures sum { IfOk result (λ terms. terms_at (meanings arena.now) terms
        ≡ terms_sum w.bits (terms_at (meanings arena.now) left.now) (terms_at (meanings arena.now) right.now)) }
    ensures polynomial { IfOk result (λ terms. IsPolynomial arena.now w.bits terms) }
{
    let (mut lefts, mut rights) = (left, right);
    let mut merged = Vec::with_capacity(alloc, left.len().saturating_add(right.len()))?;
    while let (Some((s, ss)), Some((t, ts))) = (lefts.split_first(), rights.split_first()) {
        match compare_monomials(arena, s.ids.as_slice(), t.ids.as_slice()) {
            Ordering::Less => {
                merged.push(s.copy(alloc)?)?;
                lefts = ss;
            }
            Ordering::Greater => {
                merged.push(t.copy(alloc)?)?;
                rights = ts;
            }
            Ordering::Equal => {
                let coefficient = s.coefficient.wrapping_add(t.coefficient);
                push_term(&mut merged, w, s.ids.as_slice(), coefficient)?;
                lefts = ss;
                rights = ts;
            }
        }
    }
    extend(&mut merged, lefts)?;
    extend(&mut merged, rights)?;
    Ok(Items::from_vec(merged))
}
