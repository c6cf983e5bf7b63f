//! Polynomials of one monomial.

ghost use Rattle.std.specs.Prelude.{◌≡◌, IfOk};
ghost use Rattle.scev_tree.specs.Tree as tree;
ghost use Rattle.scev_arena.specs.Meaning.{meanings, terms_at, atom_of};
ghost use Rattle.scev_arena.specs.Standing.{IsAtomAt};
ghost use Rattle.scev_polys.specs.Polynomials.{IsPolynomial};

use crate::terms::push_term;
use poly_terms::Term;
use scev_arena::Arena;
use scev_base::{ExprId, Width};
use sqlite_items::Items;
use std::alloc::{AllocError, Global};

/// The polynomial that is the residue of a number modulo 2 to the width. It fails only where no memory is found.
pub fn of_number(alloc: Global, arena: &Arena, n: u64, w: Width) -> Result<Items<Term>, AllocError>
    ensures number { IfOk result (λ terms.
        tree.polynomial w.bits (terms_at (meanings arena.now) terms) ≡ tree.constant w.bits n) }
    ensures polynomial { IfOk result (λ terms. IsPolynomial arena.now w.bits terms) }
{
    let _ = arena;
    let mut terms = Vec::new(alloc);
    push_term(&mut terms, w, &[], n)?;
    Ok(Items::from_vec(terms))
}

/// The polynomial that is one atom of this width. It fails only where no memory is found.
pub fn of_atom(
    alloc: Global,
    arena: &Arena,
    id: ExprId,
    w: Width,
) -> Result<Items<Term>, AllocError>
    requires { IsAtomAt arena.now w.bits id }
    ensures atom { IfOk result (λ terms.
        tree.polynomial w.bits (terms_at (meanings arena.now) terms) ≡ tree.of_atom w.bits (atom_of arena.now id)) }
    ensures polynomial { IfOk result (λ terms. IsPolynomial arena.now w.bits terms) }
{
    // An arena tells with its length that its atoms are canonical.
    let _ = arena.len();
    let mut terms = Vec::new(alloc);
    push_term(&mut terms, w, &[id], 1)?;
    Ok(Items::from_vec(terms))
}
