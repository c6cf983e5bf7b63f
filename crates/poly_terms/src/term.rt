//! Terms of polynomials.

ghost use Rattle.std.specs.Prelude.{◌≡◌, ◌++◌, IfOk, OnOk};

use crate::factors::Factors;
use scev_base::ExprId;
use std::alloc::{AllocError, Global};

/// A monomial and its coefficient.
#[derive(Debug, Drop, PartialEq, Eq, Hash)]
pub struct Term {
    /// The ids of the monomial's factors in ascending order, each as often as it is a factor. None is the
    /// constant 1.
    pub ids: Factors,
    /// The coefficient.
    pub coefficient: u64,
}

impl Term {
    /// A term of its own with this monomial and coefficient. It fails only where no memory is found.
    pub fn copied(alloc: Global, ids: &[ExprId], coefficient: u64) -> Result<Term, AllocError>
        ensures ids { IfOk result (λ term. term.ids ≡ ids.now) }
        ensures coefficient { IfOk result (λ term. term.coefficient ≡ coefficient) }
    {
        Ok(Term {
            ids: Factors::from_slice(alloc, ids)?,
            coefficient,
        })
    }

    /// A term of its own that is the same. It fails only where no memory is found.
    pub fn copy(&self, alloc: Global) -> Result<Term, AllocError>
        ensures { IfOk result (λ term. term ≡ self.now) }
    {
        Term::copied(alloc, self.ids.as_slice(), self.coefficient)
    }
}

/// Adds copies of the terms to the end.
pub(crate) fn extend(terms: &mut Vec<Term>, more: &[Term]) -> Result<(), AllocError>
    ensures { OnOk result (terms.new.items ≡ terms.old.items ++ more.now) }
{
    let alloc = *terms.allocator();
    for term in more {
        terms.push(term.copy(alloc)?)?;
    }
    Ok(())
}
