//! The factors of a monomial.

ghost use Rattle.std.specs.Prelude.{◌≡◌, ◌≤◌, length, nat_eq, IsOk, IfOk};
ghost use Rattle.std.specs.Cmp.{partial_equiv_from_equiv, on_equiv, nat_eq_equiv, unsigned_Decides};
ghost use Rattle.std.specs.Cmp.Lexicographic.{pointwise, lists_equiv};
ghost use Rattle.std.specs.Hash as fed;
ghost use Rattle.std.specs.Hash.{on_Alike, items_Alike, same_Alike};
ghost use Rattle.std.specs.Ordering.{on};
ghost use Rattle.poly_terms.specs.declared.factors.TheConstants.{INLINE};

use scev_base::ExprId;
use smallvec::SmallVec;
use std::alloc::{AllocError, Global};
use std::hash::{Hash, Hasher};
use std::marker::Model;

/// How many ids lie in the value itself: most monomials have one or two factors, so most need no allocation.
const INLINE: usize = 4;

/// Ids, the first few of which need no allocation.
pub(crate) type Ids = SmallVec<ExprId, INLINE>;

/// The ids of a monomial's factors, which contracts see as their list.
#[derive(Debug, Drop)]
pub struct Factors {
    ids: Ids,
}

impl Model for Factors {
    ghost use Rattle.std.specs.Prelude.{List};
    ghost use Rattle.scev_base.specs.declared.ids.ExprId.{ExprId};

    ghost Value = { List ExprId };

    ghost view = { λ f. f.ids.items };
}

impl Factors {
    /// These factors.
    pub(crate) fn new(ids: Ids) -> Factors
        ensures { result ≡ ids.items }
    {
        Factors { ids }
    }

    /// A copy of these factors. It takes memory only for more than `INLINE`.
    pub(crate) fn from_slice(alloc: Global, ids: &[ExprId]) -> Result<Factors, AllocError>
        ensures ok { IfOk result (λ factors. factors ≡ ids.now) }
        ensures succeeds { length ids.now ≤ INLINE → IsOk result }
    {
        Ok(Factors::new(SmallVec::from_slice(alloc, ids)?))
    }

    /// The ids.
    pub fn as_slice(&self) -> &[ExprId]
        ensures { result.now ≡ self.now }
    {
        self.ids.as_slice()
    }

    /// The number of factors.
    pub fn len(&self) -> usize
        ensures { result ≡ length self.now }
    {
        self.ids.len()
    }
}

impl PartialEq for Factors {
    ghost eq = { pointwise (on (λ id. id.0) nat_eq) };

    ghost laws = { partial_equiv_from_equiv (lists_equiv (on_equiv (λ id. id.0) nat_eq_equiv)) };

    fn eq(&self, other: &Factors) -> bool {
        self.as_slice() == other.as_slice()
    }
}

impl Eq for Factors {
    ghost laws = { lists_equiv (on_equiv (λ id. id.0) nat_eq_equiv) };
}

impl Hash for Factors {
    ghost hash_input = { fed.slice (λ id. fed.u64 id.0) };

    ghost respects_eq = { (items_Alike (on_Alike (λ id. id.0) (same_Alike fed.u64 unsigned_Decides))).fed };

    fn hash<H: Hasher>(&self, state: &mut H) {
        self.as_slice().hash(state);
    }
}
