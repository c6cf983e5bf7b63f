//! The conditions of calls, tested.

ghost use Rattle.std.specs.Prelude.{◌≡◌, ◌≤◌, OnOk};
ghost use Rattle.scev_tree.specs.Tree.{width_of};
ghost use Rattle.scev_arena.specs.Meaning.{tree_of};
ghost use Rattle.scev_arena.specs.Standing.{IsTreeAt};
ghost use Rattle.scev_sums.specs.Answers.{AreTreesOfAt};

use crate::error::CalculatorError;
use scev_arena::{Arena, Node};
use scev_base::{ExprId, Width};
use scev_walk::width;

/// Looks whether a tree is at the place.
pub(crate) fn tree(arena: &Arena, id: ExprId) -> Result<(), CalculatorError>
    ensures { OnOk result (IsTreeAt arena.now id) }
{
    if id.0 >= arena.len() as u64 {
        return Err(CalculatorError::Unfit);
    }
    match arena.node(id) {
        Node::Tree { .. } => Ok(()),
        Node::Atom { .. } => Err(CalculatorError::Unfit),
    }
}

/// Looks whether a tree of this width is at the place.
pub(crate) fn tree_at(arena: &Arena, id: ExprId, w: Width) -> Result<(), CalculatorError>
    ensures tree { OnOk result (IsTreeAt arena.now id) }
    ensures width { OnOk result (width_of (tree_of arena.now id) ≡ w.bits) }
{
    tree(arena, id)?;
    if width(arena, id).get() == w.get() {
        Ok(())
    } else {
        Err(CalculatorError::Unfit)
    }
}

/// Looks whether trees of one width are at both places.
pub(crate) fn alike(arena: &Arena, left: ExprId, right: ExprId) -> Result<(), CalculatorError>
    ensures left { OnOk result (IsTreeAt arena.now left) }
    ensures right { OnOk result (IsTreeAt arena.now right) }
    ensures width { OnOk result (width_of (tree_of arena.now right) ≡ width_of (tree_of arena.now left)) }
{
    tree(arena, left)?;
    tree_at(arena, right, width(arena, left))
}

/// Looks whether a tree that isn't wider is at the place.
pub(crate) fn at_most(arena: &Arena, id: ExprId, w: Width) -> Result<(), CalculatorError>
    ensures tree { OnOk result (IsTreeAt arena.now id) }
    ensures width { OnOk result (width_of (tree_of arena.now id) ≤ w.bits) }
{
    tree(arena, id)?;
    if width(arena, id).get() <= w.get() {
        Ok(())
    } else {
        Err(CalculatorError::Unfit)
    }
}

/// Looks whether a tree that isn't narrower is at the place.
pub(crate) fn at_least(arena: &Arena, id: ExprId, w: Width) -> Result<(), CalculatorError>
    ensures tree { OnOk result (IsTreeAt arena.now id) }
    ensures width { OnOk result (w.bits ≤ width_of (tree_of arena.now id)) }
{
    tree(arena, id)?;
    if w.get() <= width(arena, id).get() {
        Ok(())
    } else {
        Err(CalculatorError::Unfit)
    }
}

/// Looks whether trees of this width are at all places.
pub(crate) fn trees_of(arena: &Arena, ids: &[ExprId], w: Width) -> Result<(), CalculatorError>
    ensures { OnOk result (AreTreesOfAt arena.now w.bits ids.now) }
{
    match ids {
        [] => Ok(()),
        [first, others @ ..] => {
            tree_at(arena, *first, w)?;
            trees_of(arena, others, w)
        }
    }
}
