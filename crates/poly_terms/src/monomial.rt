//! Monomials as lists of the ids of their factors.

ghost use Rattle.std.specs.Prelude.{◌≡◌, IfOk};
ghost use Rattle.std.specs.Ordering.{MatchOrdering};
ghost use Rattle.poly_terms.specs.Monomials.{IsMonomial, Precedes, union};

use crate::factors::{Factors, Ids};
use scev_base::ExprId;
use std::alloc::{AllocError, Global};
use std::cmp::Ordering;

/// Which monomial stands first: the one of fewer factors, and of as many the one whose ids are lower at the
/// first place at which they differ.
pub(crate) fn compare(left: &[ExprId], right: &[ExprId]) -> Ordering
    ensures { MatchOrdering result (Precedes left.now right.now) (left.now ≡ right.now)
        (Precedes right.now left.now) }
{
    match left.len().cmp(&right.len()) {
        Ordering::Equal => left.cmp(right),
        by_length => by_length,
    }
}

/// The product of two monomials: the factors of both, in ascending order.
pub(crate) fn union_of(
    alloc: Global,
    left: &[ExprId],
    right: &[ExprId],
) -> Result<Factors, AllocError>
    requires left { IsMonomial left.now }
    requires right { IsMonomial right.now }
    ensures { IfOk result (λ ids. ids ≡ union left.now right.now) }
{
    let (mut lefts, mut rights) = (left, right);
    let mut ids = Ids::with_capacity(alloc, left.len().saturating_add(right.len()))?;
    while let (Some((x, xs)), Some((y, ys))) = (lefts.split_first(), rights.split_first()) {
        if x.0 <= y.0 {
            ids.push(*x)?;
            lefts = xs;
        } else {
            ids.push(*y)?;
            rights = ys;
        }
    }
    ids.extend_from_slice(lefts)?;
    ids.extend_from_slice(rights)?;
    Ok(Factors::new(ids))
}
