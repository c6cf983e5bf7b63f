//! Which monomials of a polynomial become one recurrence of a loop.

ghost use Rattle.std.specs.Prelude.{◌≡◌, ℕ, [], ◌∷◌, map, IfOk};
ghost use Rattle.scev_arena.specs.Meaning.{meanings, terms_at, factors_at, tree_of, atom_of};
ghost use Rattle.scev_arena.specs.Standing.{IsTreeAt, AreAtoms, AreOverAtoms};
ghost use Rattle.scev_forms.specs.Gather as forms;
ghost use Rattle.scev_forms.specs.Sums as sums;
ghost use Rattle.scev_tree.specs.Tree as tree;
ghost use Rattle.scev_polys.specs.Polynomials.{IsPolynomial};
ghost use Rattle.scev_sums.specs.Answers.{AreAll, IsTreeOfAt, trees_at};
ghost use Rattle.scev_sums.specs.Levels.{IsRecurrence};

use poly_terms::Term;
use scev_arena::{Arena, Node};
use scev_base::{ExprId, LoopId, LoopNest, Width};
use scev_tree::Kind;
use scev_walk::moves;
use sqlite_items::Items;
use std::alloc::{AllocError, Global};

/// The terms of a tree.
pub(crate) fn terms_of(arena: &Arena, w: Width, id: ExprId) -> &[Term]
    requires { IsTreeOfAt arena.now w.bits id }
    ensures terms { tree_of arena.now id ≡ tree.polynomial w.bits (terms_at (meanings arena.now) result.now) }
    ensures polynomial { IsPolynomial arena.now w.bits result.now }
{
    let _ = w;
    match arena.node(id) {
        Node::Tree { terms, .. } => terms.as_slice(),
        Node::Atom { .. } => &[],
    }
}

/// Whether an atom is a recurrence of the loop.
pub(crate) fn is_rec_of(arena: &Arena, l: LoopId, id: ExprId) -> bool
    requires { (w : ℕ) × AreAtoms arena.now w (id ∷ []) }
    ensures { result ≡ forms.is_rec_of l.0 (atom_of arena.now id) }
{
    match arena.node(id) {
        Node::Atom {
            kind: Kind::Rec(other),
            ..
        } => *other == l,
        _ => false,
    }
}

/// Whether each factor is a recurrence of the loop, or invariant in it.
fn joins(arena: &Arena, nest: &LoopNest, l: LoopId, ids: &[ExprId]) -> bool
    requires { (w : ℕ) × AreAtoms arena.now w ids.now }
    ensures { result ≡ forms.joins nest.now l.0 (factors_at (meanings arena.now) ids.now) }
{
    for id in ids {
        if !is_rec_of(arena, l, *id) && moves(arena, nest, l, *id) {
            return false;
        }
    }
    true
}

/// The terms that become one recurrence of the loop, and those that stay beside it.
pub(crate) fn split(
    alloc: Global,
    arena: &Arena,
    nest: &LoopNest,
    l: LoopId,
    w: Width,
    terms: &[Term],
) -> Result<(Vec<Term>, Vec<Term>), AllocError>
    requires { IsPolynomial arena.now w.bits terms.now }
    ensures group { IfOk result (λ both. terms_at (meanings arena.now) both.0.items
        ≡ forms.joining nest.now l.0 (terms_at (meanings arena.now) terms.now)) }
    ensures others { IfOk result (λ both. terms_at (meanings arena.now) both.1.items
        ≡ forms.staying nest.now l.0 (terms_at (meanings arena.now) terms.now)) }
    ensures group_polynomial { IfOk result (λ both. IsPolynomial arena.now w.bits both.0.items) }
    ensures others_polynomial { IfOk result (λ both. IsPolynomial arena.now w.bits both.1.items) }
{
    let _ = w;
    let mut group = Vec::new(alloc);
    let mut others = Vec::new(alloc);
    for term in terms {
        if joins(arena, nest, l, term.ids.as_slice()) {
            group.push(term.copy(alloc)?)?;
        } else {
            others.push(term.copy(alloc)?)?;
        }
    }
    Ok((group, others))
}

/// Whether nothing is to be formed of a group: it is empty, or one recurrence of the loop with the coefficient 1.
pub(crate) fn is_settled(arena: &Arena, l: LoopId, group: &[Term]) -> bool
    requires { (w : ℕ) × AreOverAtoms arena.now w group.now }
    ensures { result ≡ sums.is_settled l.0 (terms_at (meanings arena.now) group.now) }
{
    match group {
        [] => true,
        [only] => match only.ids.as_slice() {
            [id] => only.coefficient == 1 && is_rec_of(arena, l, *id),
            _ => false,
        },
        _ => false,
    }
}

/// The factors that are no recurrences of the loop.
pub(crate) fn rest_of(
    alloc: Global,
    arena: &Arena,
    l: LoopId,
    ids: &[ExprId],
) -> Result<Vec<ExprId>, AllocError>
    requires { (w : ℕ) × AreAtoms arena.now w ids.now }
    ensures rest { IfOk result (λ rest. factors_at (meanings arena.now) rest.items
        ≡ forms.rest_of l.0 (factors_at (meanings arena.now) ids.now)) }
    ensures atoms { IfOk result (λ rest. (w : ℕ) → AreAtoms arena.now w ids.now → AreAtoms arena.now w rest.items) }
{
    let mut rest = Vec::new(alloc);
    for id in ids {
        if !is_rec_of(arena, l, *id) {
            rest.push(*id)?;
        }
    }
    Ok(rest)
}

/// The parts of the recurrences of the loop among the factors.
pub(crate) fn recs_of(
    alloc: Global,
    arena: &Arena,
    l: LoopId,
    w: Width,
    ids: &[ExprId],
) -> Result<Vec<Items<ExprId>>, AllocError>
    requires { AreAtoms arena.now w.bits ids.now }
    ensures recs { IfOk result (λ recs. map (trees_at arena.now) recs.items
        ≡ forms.recs_of l.0 (factors_at (meanings arena.now) ids.now)) }
    ensures trees { IfOk result (λ recs. AreAll (IsRecurrence arena.now w.bits) recs.items) }
{
    let _ = w;
    let mut recs = Vec::new(alloc);
    for id in ids {
        if let Node::Atom {
            kind: Kind::Rec(other),
            parts,
            ..
        } = arena.node(*id)
        {
            if *other == l {
                recs.push(Items::from_slice(alloc, parts.as_slice())?)?;
            }
        }
    }
    Ok(recs)
}

/// One monomial with its coefficient, as terms.
pub(crate) fn one_term(
    alloc: Global,
    ids: &[ExprId],
    coefficient: u64,
) -> Result<Items<Term>, AllocError>
    ensures { IfOk result (λ terms. terms ≡ record { ids = ids.now; coefficient = coefficient } ∷ []) }
{
    let mut terms = Vec::with_capacity(alloc, 1)?;
    terms.push(Term::copied(alloc, ids, coefficient)?)?;
    Ok(Items::from_vec(terms))
}
