//! Nodes of an arena, read.

ghost use Rattle.std.specs.Prelude.{◌≡◌, map};
ghost use Rattle.scev_tree.specs.Tree.{polynomial, atom, parts_of, width_of};
ghost use Rattle.scev_tree.specs.Canonical.{HasParts, AreCanonicalTerms};
ghost use Rattle.scev_arena.specs.Meaning.{meanings, tree_of, atom_of, terms_at};
ghost use Rattle.scev_arena.specs.Standing.{IsTreeAt, IsAtomAt, AreTrees, AreOverAtoms, IsArena};
ghost use Rattle.scev_walk.specs.Reading.{IsSomeAtomAt, AreBelow, AreOverBelow};

use poly_terms::Term;
use scev_arena::{Arena, Node};
use scev_base::{ExprId, Width};
use scev_tree::Kind;

/// The width of the tree at a place and its terms, whose atoms stand at lower places.
pub fn tree_at(arena: &Arena, id: ExprId) -> (Width, &[Term])
    requires { IsTreeAt arena.now id }
    ensures tree { tree_of arena.now id ≡ polynomial result.0.bits (terms_at (meanings arena.now) result.1.now) }
    ensures over { AreOverAtoms arena.now result.0.bits result.1.now }
    ensures canonical { AreCanonicalTerms result.0.bits (terms_at (meanings arena.now) result.1.now) }
    ensures below { AreOverBelow id.0 result.1.now }
{
    match arena.node(id) {
        Node::Tree { width, terms } => (*width, terms.as_slice()),
        Node::Atom { width, .. } => (*width, &[]),
    }
}

/// The width of the tree at a place.
pub fn width(arena: &Arena, id: ExprId) -> Width
    requires { IsTreeAt arena.now id }
    ensures width { result.bits ≡ width_of (tree_of arena.now id) }
    ensures arena { IsArena arena.now }
{
    let _ = arena.len();
    tree_at(arena, id).0
}

/// The kind and the width of the atom at a place and its parts, which stand at lower places.
pub fn atom_at(arena: &Arena, id: ExprId) -> (Kind, Width, &[ExprId])
    requires { IsSomeAtomAt arena.now id }
    ensures is { atom_of arena.now id ≡ atom result.0 result.1.bits (parts_of (map (tree_of arena.now) result.2.now)) }
    ensures width { IsAtomAt arena.now result.1.bits id }
    ensures trees { AreTrees arena.now result.2.now }
    ensures parts { HasParts result.0 result.1.bits (parts_of (map (tree_of arena.now) result.2.now)) }
    ensures below { AreBelow id.0 result.2.now }
{
    match arena.node(id) {
        Node::Atom { kind, width, parts } => (*kind, *width, parts.as_slice()),
        Node::Tree { width, .. } => (Kind::Trunc, *width, &[]),
    }
}
