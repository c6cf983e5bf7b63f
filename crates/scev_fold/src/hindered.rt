//! Whether a tree has a value at a count.

ghost use Rattle.std.specs.Prelude.{◌≡◌, ℕ, ◌∷◌, map};
ghost use Rattle.scev_tree.specs.Tree.{Parts, parts_of};
ghost use Rattle.scev_arena.specs.Meaning.{meanings, tree_of, atom_of, factors_at, terms_at};
ghost use Rattle.scev_arena.specs.Standing.{IsTreeAt, IsAtomAt, AreTrees, AreAtoms, AreOverAtoms};
ghost use Rattle.scev_forms.specs.Atoms as atoms;
ghost use Rattle.scev_forms.specs.Turns as forms;
ghost use Rattle.scev_walk.specs.Reading.{AreBelow, AreOverBelow};
ghost use Rattle.scev_fold.specs.Hindered.{tree_hindered, terms_hindered, factors_hindered, atom_hindered};
ghost use Rattle.scev_fold.specs.Hindered.{parts_hindered};

use poly_terms::Term;
use scev_arena::Arena;
use scev_base::{ExprId, LoopId, LoopNest};
use scev_tree::Kind;
use scev_walk::{atom_at, number_of, stands_in, tree_at};

/// Whether something in the tree keeps it from having a value at the count: a register that is defined in the loop, or
/// a recurrence of the loop that isn't of two parts with a number as the second, where the count is no number.
#[cycle(search)]
pub(crate) fn is_hindered(
    arena: &Arena,
    nest: &LoopNest,
    l: LoopId,
    count: ExprId,
    id: ExprId,
) -> bool
    requires tree { IsTreeAt arena.now id }
    requires count { IsTreeAt arena.now count }
    ensures { result ≡ tree_hindered nest.now l.0 (tree_of arena.now count) (tree_of arena.now id) }
{
    let (_, terms) = tree_at(arena, id);
    has_hindered_term(arena, nest, l, count, id.0, terms)
}

/// Whether it is so of a factor of the terms. They stand below a place.
#[cycle(search)]
fn has_hindered_term(
    arena: &Arena,
    nest: &LoopNest,
    l: LoopId,
    count: ExprId,
    below: u64,
    terms: &[Term],
) -> bool
    requires over { (w : ℕ) × AreOverAtoms arena.now w terms.now }
    requires below { AreOverBelow below terms.now }
    requires count { IsTreeAt arena.now count }
    ensures { result ≡ terms_hindered nest.now l.0 (tree_of arena.now count) (terms_at (meanings arena.now) terms.now) }
{
    for term in terms {
        if has_hindered_factor(arena, nest, l, count, below, term.ids.as_slice()) {
            return true;
        }
    }
    false
}

/// Whether it is so of one of the factors. They stand below a place.
#[cycle(search)]
fn has_hindered_factor(
    arena: &Arena,
    nest: &LoopNest,
    l: LoopId,
    count: ExprId,
    below: u64,
    ids: &[ExprId],
) -> bool
    requires atoms { (w : ℕ) × AreAtoms arena.now w ids.now }
    requires below { AreBelow below ids.now }
    requires count { IsTreeAt arena.now count }
    ensures { result ≡ factors_hindered nest.now l.0 (tree_of arena.now count)
        (factors_at (meanings arena.now) ids.now) }
{
    for id in ids {
        if is_hindered_atom(arena, nest, l, count, *id) {
            return true;
        }
    }
    false
}

/// Whether it is so of an atom, or of something in it.
#[cycle(search)]
fn is_hindered_atom(arena: &Arena, nest: &LoopNest, l: LoopId, count: ExprId, id: ExprId) -> bool
    requires atom { (w : ℕ) × IsAtomAt arena.now w id }
    requires count { IsTreeAt arena.now count }
    ensures { result ≡ atom_hindered nest.now l.0 (tree_of arena.now count) (atom_of arena.now id) }
{
    let (kind, _, parts) = atom_at(arena, id);
    hinders(arena, nest, l, count, kind, parts)
        || has_hindered_part(arena, nest, l, count, id.0, parts)
}

/// Whether it is so of one of the parts. They stand below a place.
#[cycle(search)]
fn has_hindered_part(
    arena: &Arena,
    nest: &LoopNest,
    l: LoopId,
    count: ExprId,
    below: u64,
    parts: &[ExprId],
) -> bool
    requires trees { AreTrees arena.now parts.now }
    requires below { AreBelow below parts.now }
    requires count { IsTreeAt arena.now count }
    ensures { result ≡ parts_hindered nest.now l.0 (tree_of arena.now count)
        (parts_of (map (tree_of arena.now) parts.now)) }
{
    for id in parts {
        if is_hindered(arena, nest, l, count, *id) {
            return true;
        }
    }
    false
}

/// Whether an atom itself keeps a tree from having a value at the count.
fn hinders(
    arena: &Arena,
    nest: &LoopNest,
    l: LoopId,
    count: ExprId,
    kind: Kind,
    parts: &[ExprId],
) -> bool
    requires trees { AreTrees arena.now parts.now }
    requires count { IsTreeAt arena.now count }
    ensures { result ≡ forms.hinders nest.now l.0 (tree_of arena.now count) kind
        (parts_of (map (tree_of arena.now) parts.now)) }
{
    match kind {
        Kind::Rec(home) => home == l && !is_countable(arena, count, parts),
        Kind::Leaf(_, Some(home)) => stands_in(nest, l, home),
        _ => false,
    }
}

/// Whether a recurrence with these parts has a value at the count: that is a number, or there are two parts, and the
/// second is a number.
fn is_countable(arena: &Arena, count: ExprId, parts: &[ExprId]) -> bool
    requires trees { AreTrees arena.now parts.now }
    requires count { IsTreeAt arena.now count }
    ensures { result ≡ forms.is_countable (atoms.number_of (tree_of arena.now count))
        (parts_of (map (tree_of arena.now) parts.now)) }
{
    if number_of(arena, count).is_some() {
        return true;
    }
    match parts {
        [_, step] => number_of(arena, *step).is_some(),
        _ => false,
    }
}
