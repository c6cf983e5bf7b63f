//! What changes while a loop runs.

ghost use Rattle.std.specs.Prelude.{◌≡◌, ℕ, map};
ghost use Rattle.scev_tree.specs.Tree.{Parts, parts_of};
ghost use Rattle.scev_arena.specs.Meaning.{meanings, tree_of, atom_of, factors_at, terms_at};
ghost use Rattle.scev_arena.specs.Standing.{IsTreeAt, IsAtomAt, AreTrees, AreAtoms, AreOverAtoms};
ghost use Rattle.scev_forms.specs.Gather as forms;
ghost use Rattle.scev_walk.specs.Reading.{AreBelow, AreOverBelow, tree_moves, term_moves, factor_moves, part_moves};

use crate::loops::stands_in;
use crate::nodes::{atom_at, tree_at};
use poly_terms::Term;
use scev_arena::Arena;
use scev_base::{ExprId, LoopId, LoopNest};
use scev_tree::Kind;

/// Whether an atom changes while the loop runs: it has in it a recurrence of the loop or of one in it, or a register
/// that is defined in it. It reads the atom as a plain tree.
#[cycle(walk)]
pub fn moves(arena: &Arena, nest: &LoopNest, l: LoopId, id: ExprId) -> bool
    requires { (w : ℕ) × IsAtomAt arena.now w id }
    ensures { result ≡ forms.atom_moves nest.now l.0 (atom_of arena.now id) }
{
    let (kind, _, parts) = atom_at(arena, id);
    kind_moves(nest, l, kind) || part_moves(arena, nest, l, id.0, parts)
}

/// Whether an atom of the kind changes while the loop runs, whatever its parts are.
fn kind_moves(nest: &LoopNest, l: LoopId, kind: Kind) -> bool
    ensures { (parts : Parts) → result ≡ forms.moves nest.now l.0 kind parts }
{
    match kind {
        Kind::Rec(home) => stands_in(nest, l, home),
        Kind::Leaf(_, Some(home)) => stands_in(nest, l, home),
        _ => false,
    }
}

/// Whether one of the parts changes while the loop runs. They stand below a place.
#[cycle(walk)]
fn part_moves(arena: &Arena, nest: &LoopNest, l: LoopId, below: u64, parts: &[ExprId]) -> bool
    requires trees { AreTrees arena.now parts.now }
    requires below { AreBelow below parts.now }
    ensures { result ≡ part_moves nest.now l.0 (parts_of (map (tree_of arena.now) parts.now)) }
{
    for id in parts {
        if tree_moves(arena, nest, l, *id) {
            return true;
        }
    }
    false
}

/// Whether an atom of the tree changes while the loop runs.
#[cycle(walk)]
fn tree_moves(arena: &Arena, nest: &LoopNest, l: LoopId, id: ExprId) -> bool
    requires { IsTreeAt arena.now id }
    ensures { result ≡ tree_moves nest.now l.0 (tree_of arena.now id) }
{
    let (_, terms) = tree_at(arena, id);
    term_moves(arena, nest, l, id.0, terms)
}

/// Whether a factor of the terms changes while the loop runs. They stand below a place.
#[cycle(walk)]
fn term_moves(arena: &Arena, nest: &LoopNest, l: LoopId, below: u64, terms: &[Term]) -> bool
    requires over { (w : ℕ) × AreOverAtoms arena.now w terms.now }
    requires below { AreOverBelow below terms.now }
    ensures { result ≡ term_moves nest.now l.0 (terms_at (meanings arena.now) terms.now) }
{
    for t in terms {
        if factor_moves(arena, nest, l, below, t.ids.as_slice()) {
            return true;
        }
    }
    false
}

/// Whether one of the factors changes while the loop runs. They stand below a place.
#[cycle(walk)]
fn factor_moves(arena: &Arena, nest: &LoopNest, l: LoopId, below: u64, ids: &[ExprId]) -> bool
    requires atoms { (w : ℕ) × AreAtoms arena.now w ids.now }
    requires below { AreBelow below ids.now }
    ensures { result ≡ factor_moves nest.now l.0 (factors_at (meanings arena.now) ids.now) }
{
    for id in ids {
        if moves(arena, nest, l, *id) {
            return true;
        }
    }
    false
}
