//! Trees and atoms put into an arena, and looked at: whether they are above a limit.

ghost use Rattle.std.specs.Prelude.{◌≡◌, ◌<◌, length, map, IfOk};
ghost use Rattle.scev_tree.specs.Tree as tree;
ghost use Rattle.scev_tree.specs.Canonical.{HasParts};
ghost use Rattle.scev_arena.specs.Meaning.{meanings, terms_at, tree_of, atom_of};
ghost use Rattle.scev_arena.specs.Standing.{IsTreeAt, IsAtomAt, AreTrees};
ghost use Rattle.scev_forms.specs.Atoms.{made as forms_made};
ghost use Rattle.scev_forms.specs.Outcome as forms;
ghost use Rattle.scev_polys.specs.Polynomials.{IsPolynomial};
ghost use Rattle.scev_sums.specs.Answers.{GoesOn, IsAt, Tells};

use crate::error::FoldError;
use poly_terms::Term;
use scev_arena::{Arena, Node};
use scev_base::{ExprId, Width};
use scev_polys::{of_atom, of_number};
use scev_tree::Kind;
use sqlite_items::Items;
use std::alloc::{AllocError, Global};

/// Looks whether the tree is above a limit.
pub(crate) fn tested(arena: &Arena, id: ExprId) -> Result<(), FoldError>
    requires { IsTreeAt arena.now id }
    ensures { Tells (λ _ tree. tree ≡ tree_of arena.now id) (forms.tested (tree_of arena.now id)) result }
{
    match arena.limit(id) {
        None => Ok(()),
        Some(limit) => Err(FoldError::of_limit(limit)),
    }
}

/// The place of the tree of a polynomial.
pub(crate) fn tree_of_terms(
    arena: &mut Arena,
    w: Width,
    terms: Items<Term>,
) -> Result<ExprId, AllocError>
    requires { IsPolynomial arena.old w.bits terms }
    ensures grows { GoesOn arena.old arena.new }
    ensures tree { IfOk result (λ id. IsAt arena.new w.bits id
        (tree.polynomial w.bits (terms_at (meanings arena.old) terms))) }
{
    arena.intern(Node::Tree { width: w, terms })
}

/// The tree of a polynomial, unless it is above a limit.
pub(crate) fn tested_terms(
    arena: &mut Arena,
    w: Width,
    terms: Items<Term>,
) -> Result<ExprId, FoldError>
    requires { IsPolynomial arena.old w.bits terms }
    ensures grows { GoesOn arena.old arena.new }
    ensures tree { Tells (IsAt arena.new w.bits)
        (forms.tested (tree.polynomial w.bits (terms_at (meanings arena.old) terms))) result }
{
    let id = tree_of_terms(arena, w, terms)?;
    tested(arena, id)?;
    Ok(id)
}

/// The place of the tree of an atom of its own, with these parts. It may be above a limit. The arena only goes on.
pub fn tree_of_atom(
    alloc: Global,
    arena: &mut Arena,
    kind: Kind,
    w: Width,
    parts: Items<ExprId>,
) -> Result<ExprId, AllocError>
    requires parts { AreTrees arena.old parts }
    requires kind { HasParts kind w.bits (tree.parts_of (map (tree_of arena.old) parts)) }
    ensures grows { GoesOn arena.old arena.new }
    ensures tree { IfOk result (λ id. IsAt arena.new w.bits id (tree.of_atom w.bits
        (tree.atom kind w.bits (tree.parts_of (map (tree_of arena.old) parts))))) }
{
    let atom = arena.intern(Node::Atom {
        kind,
        width: w,
        parts,
    })?;
    let terms = of_atom(alloc, arena, atom, w)?;
    tree_of_terms(arena, w, terms)
}

/// The tree of an atom of its own, with these parts, unless it is above a limit. The arena only goes on.
pub fn made(
    alloc: Global,
    arena: &mut Arena,
    kind: Kind,
    w: Width,
    parts: Items<ExprId>,
) -> Result<ExprId, FoldError>
    requires parts { AreTrees arena.old parts }
    requires kind { HasParts kind w.bits (tree.parts_of (map (tree_of arena.old) parts)) }
    ensures grows { GoesOn arena.old arena.new }
    ensures tree { Tells (IsAt arena.new w.bits) (forms_made kind w.bits (map (tree_of arena.old) parts)) result }
{
    let id = tree_of_atom(alloc, arena, kind, w, parts)?;
    tested(arena, id)?;
    Ok(id)
}

/// The place of a constant: the number modulo 2^w. The arena only goes on.
pub fn constant(alloc: Global, arena: &mut Arena, w: Width, n: u64) -> Result<ExprId, AllocError>
    ensures grows { GoesOn arena.old arena.new }
    ensures tree { IfOk result (λ id. IsAt arena.new w.bits id (tree.constant w.bits n)) }
{
    let terms = of_number(alloc, arena, n, w)?;
    tree_of_terms(arena, w, terms)
}
