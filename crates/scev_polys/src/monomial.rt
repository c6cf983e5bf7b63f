//! Products of monomials.

ghost use Rattle.std.specs.Prelude.{◌≡◌, ℕ, IfOk};
ghost use Rattle.scev_tree.specs.Order.{atom_precedes};
ghost use Rattle.scev_tree.specs.Canonical.{Ascend, joined_factors};
ghost use Rattle.scev_arena.specs.Meaning.{meanings, factors_at, atom_of};
ghost use Rattle.scev_arena.specs.Standing.{IsAtomAt, AreAtoms};
ghost use Rattle.scev_polys.specs.declared.monomial.TheConstants.{INLINE};

use scev_arena::Arena;
use scev_base::ExprId;
use scev_walk::compare_monomials;
use smallvec::SmallVec;
use std::alloc::{AllocError, Global};
use std::cmp::Ordering;
use std::slice::from_ref;

/// How many ids of a product take no memory: most monomials have few factors.
const INLINE: usize = 8;

/// Ids of factors, the first few of which take no memory.
pub(crate) type Ids = SmallVec<ExprId, INLINE>;

/// The product of two monomials: the factors of both, by one merge. It fails only where no memory is found.
pub(crate) fn joined(
    alloc: Global,
    arena: &Arena,
    left: &[ExprId],
    right: &[ExprId],
) -> Result<Ids, AllocError>
    requires atoms { (w : ℕ) × AreAtoms arena.now w left.now × AreAtoms arena.now w right.now }
    requires left { Ascend (factors_at (meanings arena.now) left.now) }
    requires right { Ascend (factors_at (meanings arena.now) right.now) }
    ensures product { IfOk result (λ ids. factors_at (meanings arena.now) ids.items ≡ joined_factors
        (factors_at (meanings arena.now) left.now) (factors_at (meanings arena.now) right.now)) }
    ensures atoms { IfOk result (λ ids. (w : ℕ)
        → AreAtoms arena.now w left.now
        → AreAtoms arena.now w right.now
        → AreAtoms arena.now w ids.items) }
{
    let (mut lefts, mut rights) = (left, right);
    let mut ids = Ids::with_capacity(alloc, left.len().saturating_add(right.len()))?;
    while let (Some((x, xs)), Some((y, ys))) = (lefts.split_first(), rights.split_first()) {
        if precedes(arena, y, x) {
            ids.push(*y)?;
            rights = ys;
        } else {
            ids.push(*x)?;
            lefts = xs;
        }
    }
    ids.extend_from_slice(lefts)?;
    ids.extend_from_slice(rights)?;
    Ok(ids)
}

/// Whether the first atom stands before the second: it does so as a monomial of its own.
fn precedes(arena: &Arena, x: &ExprId, y: &ExprId) -> bool
    requires left { (w : ℕ) × IsAtomAt arena.now w x.now }
    requires right { (w : ℕ) × IsAtomAt arena.now w y.now }
    ensures { result ≡ atom_precedes (atom_of arena.now x.now) (atom_of arena.now y.now) }
{
    match compare_monomials(arena, from_ref(x), from_ref(y)) {
        Ordering::Less => true,
        _ => false,
    }
}
