//! Minima and maxima of expressions.

ghost use Rattle.std.specs.Prelude.{◌≡◌, ◌<◌, ◌^◌, [], IfOk, IfSome};
ghost use Rattle.scev_tree.specs.Tree as tree;
ghost use Rattle.scev_tree.specs.Value as value;
ghost use Rattle.scev_arena.specs.Meaning.{tree_of};
ghost use Rattle.scev_arena.specs.Standing.{IsTreeAt};
ghost use Rattle.scev_forms.specs.Minima as forms;
ghost use Rattle.scev_sums.specs.Answers.{GoesOn, IsAt, AreAt, IsTreeOfAt, AreTreesOfAt, trees_at, Tells};
ghost use Rattle.scev_sums.specs.Values.{HasValue, value_at};
ghost use Rattle.scev_minima.specs.Kinds.{kind_of, IsFlattened};

use crate::flat::flattened;
use crate::kinds::MinKind;
use scev_arena::Arena;
use scev_base::{ExprId, LoopNest, Width};
use scev_sums::{FoldError, constant, made};
use scev_tree::Kind;
use scev_walk::{compare, number_of, width};
use sqlite_items::Items;
use std::alloc::{AllocError, Global};
use std::cmp::Ordering;

/// The minimum or maximum of two expressions of one width. Those of the same kind are taken in; numbers are joined, the
/// one that is never chosen goes, and the one that is always chosen is the answer; parts stand in the order of
/// expressions, each once; one part is itself. `TooHigh` and `TooDeep` come exactly where the tree is above a limit, and
/// `OutOfMemory` only where no memory is found. The arena only goes on, also where an error comes.
pub fn make_min(
    alloc: Global,
    arena: &mut Arena,
    nest: &LoopNest,
    kind: MinKind,
    left: ExprId,
    right: ExprId,
) -> Result<ExprId, FoldError>
    requires left { IsTreeAt arena.old left }
    requires right { IsTreeAt arena.old right }
    requires width { tree.width_of (tree_of arena.old right) ≡ tree.width_of (tree_of arena.old left) }
    ensures grows { GoesOn arena.old arena.new }
    ensures tree { let w = tree.width_of (tree_of arena.old left) in Tells (IsAt arena.new w)
        (forms.tree_minimum (kind_of kind) w (tree_of arena.old left) (tree_of arena.old right)) result }
    ensures value { IfOk result (HasValue arena.new (λ held turns.
        value.lifted (forms.chosen (kind_of kind) (tree.width_of (tree_of arena.old left)))
        (value_at arena.old left held turns) (value_at arena.old right held turns))) }
{
    let _ = nest;
    let w = width(arena, left);
    let mut parts = flattened(alloc, arena, kind.kind(), w, left)?;
    parts.extend_from_slice(&flattened(alloc, arena, kind.kind(), w, right)?)?;
    let number = numbers_joined(arena, kind, w, &parts);
    let others = no_numbers(alloc, arena, w, &parts)?;
    let parts = min_parts(alloc, arena, kind, w, number, others)?;
    of_parts(alloc, arena, kind.kind(), w, parts)
}

/// The one of all numbers among trees that the kind chooses, if there is a number.
fn numbers_joined(arena: &Arena, kind: MinKind, w: Width, ids: &[ExprId]) -> Option<u64>
    requires { AreTreesOfAt arena.now w.bits ids.now }
    ensures joined { result ≡ forms.numbers_joined (kind_of kind) w.bits (trees_at arena.now ids.now) }
    ensures fits { IfSome result (λ n. n < 2 ^ w.bits) }
{
    let _ = arena.len();
    let mut found = None;
    for i in (0..ids.len()).rev() {
        found = with_number(kind, w, number_of(arena, ids[i]), found);
    }
    found
}

/// A number, joined with the one that was found.
fn with_number(kind: MinKind, w: Width, number: Option<u64>, found: Option<u64>) -> Option<u64>
    requires number { IfSome number (λ n. n < 2 ^ w.bits) }
    requires found { IfSome found (λ n. n < 2 ^ w.bits) }
    ensures { result ≡ forms.with_number (kind_of kind) w.bits number found }
{
    match (number, found) {
        (None, _) => found,
        (Some(n), None) => Some(n),
        (Some(n), Some(m)) => Some(kind.chosen(w, n, m)),
    }
}

/// The trees that are no numbers, each once and in order.
fn no_numbers(
    alloc: Global,
    arena: &Arena,
    w: Width,
    ids: &[ExprId],
) -> Result<Vec<ExprId>, AllocError>
    requires { AreTreesOfAt arena.now w.bits ids.now }
    ensures { IfOk result (λ found. AreAt arena.now w.bits found.items (forms.no_numbers (trees_at arena.now ids.now))) }
{
    let mut found = Vec::new(alloc);
    for i in (0..ids.len()).rev() {
        if number_of(arena, ids[i]).is_none() {
            found = with_tree(alloc, arena, w, ids[i], &found)?;
        }
    }
    Ok(found)
}

/// The trees with one more, each once and in order.
fn with_tree(
    alloc: Global,
    arena: &Arena,
    w: Width,
    id: ExprId,
    ids: &[ExprId],
) -> Result<Vec<ExprId>, AllocError>
    requires tree { IsTreeOfAt arena.now w.bits id }
    requires trees { AreTreesOfAt arena.now w.bits ids.now }
    ensures { IfOk result (λ found. AreAt arena.now w.bits found.items
        (forms.with_tree (tree_of arena.now id) (trees_at arena.now ids.now))) }
{
    let _ = w;
    let mut before = Vec::with_capacity(alloc, ids.len())?;
    for i in 0..ids.len() {
        match compare(arena, id, ids[i]) {
            Ordering::Greater => before.push(ids[i])?,
            Ordering::Equal => {
                before.extend_from_slice(&ids[i..])?;
                return Ok(before);
            }
            Ordering::Less => {
                before.push(id)?;
                before.extend_from_slice(&ids[i..])?;
                return Ok(before);
            }
        }
    }
    before.push(id)?;
    Ok(before)
}

/// The parts of a minimum or maximum, of the number among them, if there is one, and the others.
fn min_parts(
    alloc: Global,
    arena: &mut Arena,
    kind: MinKind,
    w: Width,
    number: Option<u64>,
    others: Vec<ExprId>,
) -> Result<Vec<ExprId>, AllocError>
    requires { AreTreesOfAt arena.old w.bits others.items }
    ensures grows { GoesOn arena.old arena.new }
    ensures parts { IfOk result (λ ids. AreAt arena.new w.bits ids.items
        (forms.min_parts_of (kind_of kind) w.bits number (trees_at arena.old others.items))) }
{
    let n = match number {
        Some(n) => n,
        None => return Ok(others),
    };
    if n == kind.neutral(w) && n != kind.absorbing(w) && !others.is_empty() {
        return Ok(others);
    }
    let id = constant(alloc, arena, w, n)?;
    if others.is_empty() || n == kind.absorbing(w) {
        Ok(Vec::from_slice(alloc, &[id])?)
    } else {
        with_tree(alloc, arena, w, id, &others)
    }
}

/// An atom of these parts, unless it is one part, which is itself.
pub(crate) fn of_parts(
    alloc: Global,
    arena: &mut Arena,
    kind: Kind,
    w: Width,
    parts: Vec<ExprId>,
) -> Result<ExprId, FoldError>
    requires kind { IsFlattened kind }
    requires trees { AreTreesOfAt arena.old w.bits parts.items }
    requires some { parts.items ≡ [] → ⊥ }
    ensures grows { GoesOn arena.old arena.new }
    ensures tree { Tells (IsAt arena.new w.bits)
        (forms.of_parts kind w.bits (trees_at arena.old parts.items)) result }
{
    if parts.len() == 1 {
        Ok(parts[0])
    } else {
        made(alloc, arena, kind, w, Items::from_vec(parts))
    }
}
