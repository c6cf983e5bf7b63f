//! Laws of arenas: facts about any lists of nodes, proved once.

ghost use Rattle.std.specs.Prelude.{◌≡◌, ℕ, ◌<◌, List, ◌++◌, length, take, Some, slice_get};
ghost use Rattle.scev_base.specs.declared.ids.ExprId.{ExprId};
ghost use Rattle.scev_tree.specs.Tree.{Tree};
ghost use Rattle.scev_tree.specs.Canonical.{IsCanonical, IsCanonicalAtom};
ghost use Rattle.scev_arena.specs.declared.node.Node.{Node};
ghost use Rattle.scev_arena.specs.Meaning.{Meant, meanings, tree_of, atom_of};
ghost use Rattle.scev_arena.specs.Standing.{IsTreeAt, IsAtomAt, IsArena};
ghost use Rattle.scev_arena.specs.Limits.{first_limit, IsFirstLimit};

/// What a place holds stays as the arena grows.
pub fn places_stay()
    ensures front { (nodes more : List Node) → take (length nodes) (meanings (nodes ++ more)) ≡ meanings nodes }
    ensures tree { (nodes more : List Node) (id : ExprId)
        → id.0 < length nodes
        → tree_of (nodes ++ more) id ≡ tree_of nodes id }
    ensures atom { (nodes more : List Node) (id : ExprId)
        → id.0 < length nodes
        → atom_of (nodes ++ more) id ≡ atom_of nodes id }
{}

/// Each tree and each atom of an arena is canonical.
pub fn trees_are_canonical()
    ensures trees { (nodes : List Node) (id : ExprId)
        → IsArena nodes
        → IsTreeAt nodes id
        → IsCanonical (tree_of nodes id) }
    ensures atoms { (nodes : List Node) (w : ℕ) (id : ExprId)
        → IsArena nodes
        → IsAtomAt nodes w id
        → IsCanonicalAtom w (atom_of nodes id) }
{}

/// Two places of an arena that hold one thing are one.
pub fn one_place()
    ensures { (nodes : List Node) (i j : ℕ) (held : Meant)
        → IsArena nodes
        → slice_get (meanings nodes) i ≡ Some held
        → slice_get (meanings nodes) j ≡ Some held
        → i ≡ j }
{}

/// The first limit that is told of a tree is one that it is above, and it is above none before that; none is told where
/// it is within all of them.
pub fn limits_are_told()
    ensures { (tree : Tree) → IsFirstLimit tree (first_limit tree) }
{}
