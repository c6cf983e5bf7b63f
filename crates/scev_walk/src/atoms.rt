//! Trees that are numbers, or one atom.

ghost use Rattle.std.specs.Prelude.{◌≡◌, option_map, IfSome};
ghost use Rattle.scev_arena.specs.Meaning.{tree_of, atom_of};
ghost use Rattle.scev_arena.specs.Standing.{IsTreeAt, IsAtomAt};
ghost use Rattle.scev_tree.specs.Tree.{width_of};
ghost use Rattle.scev_forms.specs.Atoms as forms;

use scev_arena::{Arena, Node};
use scev_base::ExprId;

/// The number that a tree is, below 2 to its width. None where it isn't a constant.
pub fn number_of(arena: &Arena, id: ExprId) -> Option<u64>
    requires { IsTreeAt arena.now id }
    ensures { result ≡ forms.number_of (tree_of arena.now id) }
{
    match arena.node(id) {
        Node::Tree { terms, .. } => match terms.as_slice() {
            [] => Some(0),
            [t] if t.ids.as_slice().is_empty() => Some(t.coefficient),
            _ => None,
        },
        Node::Atom { .. } => None,
    }
}

/// The place of the atom that a tree is alone, once and with no other. None where it isn't one.
pub fn alone(arena: &Arena, id: ExprId) -> Option<ExprId>
    requires { IsTreeAt arena.now id }
    ensures atom { option_map (atom_of arena.now) result ≡ forms.alone (tree_of arena.now id) }
    ensures place { IfSome result (λ atom. IsAtomAt arena.now (width_of (tree_of arena.now id)) atom) }
{
    match arena.node(id) {
        Node::Tree { terms, .. } => match terms.as_slice() {
            [t] if t.coefficient == 1 => match t.ids.as_slice() {
                [atom] => Some(*atom),
                _ => None,
            },
            _ => None,
        },
        Node::Atom { .. } => None,
    }
}
