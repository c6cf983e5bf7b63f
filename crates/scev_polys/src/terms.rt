//! Lists of terms that grow.

ghost use Rattle.std.specs.Prelude.{◌≡◌, ◌++◌, OnOk};
ghost use Rattle.scev_polys.specs.Polynomials.{term_or_none};

use poly_terms::Term;
use scev_base::{ExprId, Width, trunc};
use std::alloc::AllocError;

/// Adds a monomial with a coefficient modulo 2 to the width to the end, unless that is 0.
pub(crate) fn push_term(
    terms: &mut Vec<Term>,
    w: Width,
    ids: &[ExprId],
    coefficient: u64,
) -> Result<(), AllocError>
    ensures { OnOk result (terms.new.items ≡ terms.old.items ++ term_or_none w.bits ids.now coefficient) }
{
    let residue = trunc(coefficient, w);
    if residue != 0 {
        let alloc = *terms.allocator();
        terms.push(Term::copied(alloc, ids, residue)?)?;
    }
    Ok(())
}

/// Adds copies of the terms to the end.
pub(crate) fn extend(terms: &mut Vec<Term>, more: &[Term]) -> Result<(), AllocError>
    ensures { OnOk result (terms.new.items ≡ terms.old.items ++ more.now) }
{
    let alloc = *terms.allocator();
    for term in more {
        terms.push(term.copy(alloc)?)?;
    }
    Ok(())
}
