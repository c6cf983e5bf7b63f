//! The parts of recurrences.

ghost use Rattle.std.specs.Prelude.{◌≡◌, ℕ, ◌<◌, ◌≤◌, List, [], ◌∷◌, ◌++◌, length, map, All, IfOk, OnOk};
ghost use Rattle.scev_tree.specs.Tree as tree;
ghost use Rattle.scev_arena.specs.declared.node.Node as declared;
ghost use Rattle.scev_arena.specs.Meaning.{tree_of};
ghost use Rattle.scev_arena.specs.Standing.{IsTreeAt};
ghost use Rattle.scev_forms.specs.Gather as gather;
ghost use Rattle.scev_forms.specs.Sums as sums;
ghost use Rattle.scev_sums.specs.Answers.{GoesOn, IsAt, AreAt, IsTreeOfAt, AreTreesOfAt, trees_at, Tells};

use crate::error::FoldError;
use crate::tested::{tested, tree_of_atom, tree_of_terms};
use scev_arena::{Arena, Node};
use scev_base::{ExprId, LoopId, Width};
use scev_tree::Kind;
use sqlite_items::Items;
use std::alloc::{AllocError, Global};

/// Whether the tree is the constant 0.
pub(crate) fn is_zero(arena: &Arena, id: ExprId) -> bool
    requires { IsTreeAt arena.now id }
    ensures { result ≡ gather.is_zero (tree_of arena.now id) }
{
    match arena.node(id) {
        Node::Tree { terms, .. } => terms.as_slice().is_empty(),
        Node::Atom { .. } => false,
    }
}

/// The parts without those at the end that are 0; the first one stays.
pub(crate) fn trimmed(arena: &Arena, w: Width, parts: Vec<ExprId>) -> Vec<ExprId>
    requires { AreTreesOfAt arena.now w.bits parts.items }
    ensures parts { AreAt arena.now w.bits result.items (gather.trimmed (map (tree_of arena.now) parts.items)) }
    ensures some { 1 ≤ length parts.items → 1 ≤ length result.items }
{
    let _ = w;
    let mut parts = parts;
    while parts.len() > 1 && is_zero(arena, parts[parts.len() - 1]) {
        parts.pop();
    }
    parts
}

/// The recurrence of a loop with these parts: one part is itself, and no part is 0.
pub(crate) fn recurrence(
    alloc: Global,
    arena: &mut Arena,
    w: Width,
    l: LoopId,
    parts: &[ExprId],
) -> Result<ExprId, AllocError>
    requires { AreTreesOfAt arena.old w.bits parts.now }
    ensures grows { GoesOn arena.old arena.new }
    ensures tree { IfOk result (λ id. IsAt arena.new w.bits id
        (sums.recurrence w.bits l.0 (map (tree_of arena.old) parts.now))) }
{
    match parts {
        [] => tree_of_terms(arena, w, Items::new(alloc)),
        [only] => Ok(*only),
        _ => {
            let parts = Items::from_slice(alloc, parts)?;
            tree_of_atom(alloc, arena, Kind::Rec(l), w, parts)
        }
    }
}

/// The parts, unless the recurrence that they are is above a limit.
pub(crate) fn tested_parts(
    alloc: Global,
    arena: &mut Arena,
    w: Width,
    l: LoopId,
    parts: Vec<ExprId>,
) -> Result<Vec<ExprId>, FoldError>
    requires { AreTreesOfAt arena.old w.bits parts.items }
    ensures grows { GoesOn arena.old arena.new }
    ensures parts { Tells (λ ids. AreAt arena.new w.bits ids.items)
        (sums.tested_parts w.bits l.0 (map (tree_of arena.old) parts.items)) result }
    ensures same { IfOk result (λ ids. ids.items ≡ parts.items) }
{
    let id = recurrence(alloc, arena, w, l, &parts)?;
    tested(arena, id)?;
    Ok(parts)
}

/// Whether the tree is the constant 1.
pub(crate) fn is_one(arena: &Arena, w: Width, id: ExprId) -> bool
    requires { IsTreeOfAt arena.now w.bits id }
    ensures { result ≡ sums.same_tree (tree_of arena.now id) (tree.constant w.bits 1) }
{
    let _ = w;
    match arena.node(id) {
        Node::Tree { terms, .. } => match terms.as_slice() {
            [only] => only.coefficient == 1 && only.ids.as_slice().is_empty(),
            _ => false,
        },
        Node::Atom { .. } => false,
    }
}

/// What stands at some places of a plan.
pub(crate) fn results_of(
    alloc: Global,
    results: &[u64],
    places: &[ExprId],
) -> Result<Vec<ExprId>, AllocError>
    requires { All (λ k. k < length places.now) results.now }
    ensures trees { IfOk result (λ ids. (nodes : List declared.Node) (w : ℕ) → AreTreesOfAt nodes w places.now
        → AreTreesOfAt nodes w ids.items) }
    ensures count { IfOk result (λ ids. length ids.items ≡ length results.now) }
    ensures results { IfOk result (λ ids. (nodes : List declared.Node) (w : ℕ) → trees_at nodes ids.items
        ≡ map (sums.at_place w (trees_at nodes places.now)) results.now) }
{
    let mut ids = Vec::with_capacity(alloc, results.len())?;
    for place in results {
        ids.push(places[*place as usize])?;
    }
    Ok(ids)
}

/// Adds a place to the end. It fails only where no memory is found, and then nothing is added.
pub fn push(places: &mut Vec<ExprId>, id: ExprId) -> Result<(), AllocError>
    ensures { OnOk result (places.new.items ≡ places.old.items ++ id ∷ []) }
{
    Ok(places.push(id)?)
}
