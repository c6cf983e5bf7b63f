//! Quotients of expressions.

ghost use Rattle.std.specs.Prelude.{◌≡◌, ◌<◌, ◌^◌, ◌∷◌, [], IfOk, IfSome, option_map};
ghost use Rattle.scev_tree.specs.Tree as tree;
ghost use Rattle.scev_tree.specs.Value as value;
ghost use Rattle.scev_tree.specs.declared.kind.Kind.TheVariants as kind;
ghost use Rattle.scev_arena.specs.Meaning.{tree_of};
ghost use Rattle.scev_arena.specs.Standing.{IsTreeAt};
ghost use Rattle.scev_forms.specs.Atoms as atoms;
ghost use Rattle.scev_forms.specs.Quotients as forms;
ghost use Rattle.scev_sums.specs.Answers.{GoesOn, IsAt, IsTreeOfAt, Tells};
ghost use Rattle.scev_sums.specs.Values.{HasValue, value_at};
ghost use Rattle.scev_minima.specs.Quotients.{quotient_parts};

use scev_arena::Arena;
use scev_base::{ExprId, LoopNest, Width, trunc};
use scev_sums::{FoldError, constant, made};
use scev_tree::Kind;
use scev_walk::{alone, atom_at, number_of, width};
use sqlite_items::Items;
use std::alloc::Global;

/// The unsigned quotient of two expressions of one width, rounded down; by 0 it has no value. Numbers are divided by one
/// that isn't 0, anything by 1 is itself, and a quotient by a number, by a number, is one quotient. `TooHigh` and
/// `TooDeep` come exactly where the tree is above a limit, and `OutOfMemory` only where no memory is found. The arena
/// only goes on, also where an error comes.
pub fn make_udiv(
    alloc: Global,
    arena: &mut Arena,
    nest: &LoopNest,
    left: ExprId,
    right: ExprId,
) -> Result<ExprId, FoldError>
    requires left { IsTreeAt arena.old left }
    requires right { IsTreeAt arena.old right }
    requires width { tree.width_of (tree_of arena.old right) ≡ tree.width_of (tree_of arena.old left) }
    ensures grows { GoesOn arena.old arena.new }
    ensures tree { let w = tree.width_of (tree_of arena.old left) in Tells (IsAt arena.new w)
        (forms.tree_quotient w (tree_of arena.old left) (tree_of arena.old right)) result }
    ensures value { IfOk result (HasValue arena.new (λ held turns.
        value.quotient (value_at arena.old left held turns) (value_at arena.old right held turns))) }
{
    let _ = nest;
    let w = width(arena, left);
    match (number_of(arena, left), number_of(arena, right)) {
        (_, None) => quotient_atom(alloc, arena, w, left, right),
        (Some(m), Some(n)) => match m.checked_div(n) {
            Some(quotient) => Ok(constant(alloc, arena, w, quotient)?),
            None => quotient_atom(alloc, arena, w, left, right),
        },
        (None, Some(1)) => Ok(left),
        (None, Some(n)) => by_number(alloc, arena, w, left, right, n),
    }
}

/// The atom of a quotient.
fn quotient_atom(
    alloc: Global,
    arena: &mut Arena,
    w: Width,
    left: ExprId,
    right: ExprId,
) -> Result<ExprId, FoldError>
    requires left { IsTreeOfAt arena.old w.bits left }
    requires right { IsTreeOfAt arena.old w.bits right }
    ensures grows { GoesOn arena.old arena.new }
    ensures tree { Tells (IsAt arena.new w.bits) (atoms.made kind.Udiv w.bits
        (tree_of arena.old left ∷ tree_of arena.old right ∷ [])) result }
{
    let parts = Items::from_slice(alloc, &[left, right])?;
    made(alloc, arena, Kind::Udiv, w, parts)
}

/// The quotient of what is no number by a number, which the right one is.
fn by_number(
    alloc: Global,
    arena: &mut Arena,
    w: Width,
    left: ExprId,
    right: ExprId,
    n: u64,
) -> Result<ExprId, FoldError>
    requires left { IsTreeOfAt arena.old w.bits left }
    requires right { IsTreeOfAt arena.old w.bits right }
    ensures grows { GoesOn arena.old arena.new }
    ensures tree { Tells (IsAt arena.new w.bits) (forms.atom_quotient w.bits (tree_of arena.old left)
        (tree_of arena.old right) n (atoms.alone (tree_of arena.old left))) result }
{
    match quotient(arena, left) {
        Some((x, Some(m))) => by_both(alloc, arena, w, x, m, n),
        _ => quotient_atom(alloc, arena, w, left, right),
    }
}

/// The first part of a quotient that a tree is alone, and the number that its divisor is, if it is one.
fn quotient(arena: &Arena, id: ExprId) -> Option<(ExprId, Option<u64>)>
    requires { IsTreeAt arena.now id }
    ensures parts { option_map (λ both. (tree_of arena.now both.0, both.1)) result
        ≡ quotient_parts (atoms.alone (tree_of arena.now id)) }
    ensures tree { IfSome result (λ both. IsTreeOfAt arena.now (tree.width_of (tree_of arena.now id)) both.0) }
{
    let (kind, _, parts) = atom_at(arena, alone(arena, id)?);
    match (kind, parts) {
        (Kind::Udiv, [x, by]) => Some((*x, number_of(arena, *by))),
        _ => None,
    }
}

/// The quotient by two numbers, one after the other: by their product, and 0 where that is 2^w or more.
fn by_both(
    alloc: Global,
    arena: &mut Arena,
    w: Width,
    x: ExprId,
    m: u64,
    n: u64,
) -> Result<ExprId, FoldError>
    requires { IsTreeOfAt arena.old w.bits x }
    ensures grows { GoesOn arena.old arena.new }
    ensures tree { Tells (IsAt arena.new w.bits) (forms.by_both w.bits (tree_of arena.old x) m n) result }
{
    match m.checked_mul(n) {
        Some(both) if trunc(both, w) == both => {
            let by = constant(alloc, arena, w, both)?;
            quotient_atom(alloc, arena, w, x, by)
        }
        _ => Ok(constant(alloc, arena, w, 0)?),
    }
}
