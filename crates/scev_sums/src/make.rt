//! Sums, products and recurrences of expressions.

ghost use Rattle.std.specs.Prelude.{◌≡◌, ◌≤◌, length, IfOk};
ghost use Rattle.scev_tree.specs.Tree.{width_of};
ghost use Rattle.scev_tree.specs.Value as value;
ghost use Rattle.scev_arena.specs.Meaning.{tree_of};
ghost use Rattle.scev_arena.specs.Standing.{IsTreeAt};
ghost use Rattle.scev_forms.specs.Sums as forms;
ghost use Rattle.scev_sums.specs.Answers.{GoesOn, IsAt, AreTreesOfAt, trees_at, Tells};
ghost use Rattle.scev_sums.specs.Values.{Value, HasValue, value_at, iterated_parts};

use crate::error::FoldError;
use crate::parts::{recurrence, trimmed};
use crate::sums::{Level, product_by, sum_by};
use crate::tested::tested;
use scev_arena::Arena;
use scev_base::{ExprId, LoopId, LoopNest, Width};
use scev_walk::width;
use std::alloc::Global;

/// The sum of two expressions of one width, modulo 2^w, in the normal form. `TooWide`, `TooHigh` and `TooDeep` come
/// exactly where the first tree that is above a limit is, on the way or in the end, and `OutOfMemory` only where no
/// memory is found. The arena only goes on, also where an error comes.
pub fn make_sum(
    alloc: Global,
    arena: &mut Arena,
    nest: &LoopNest,
    left: ExprId,
    right: ExprId,
) -> Result<ExprId, FoldError>
    requires left { IsTreeAt arena.old left }
    requires right { IsTreeAt arena.old right }
    requires width { width_of (tree_of arena.old right) ≡ width_of (tree_of arena.old left) }
    ensures grows { GoesOn arena.old arena.new }
    ensures tree { let w = width_of (tree_of arena.old left) in Tells (IsAt arena.new w)
        (forms.tree_sum nest.now w (tree_of arena.old left) (tree_of arena.old right)) result }
    ensures value { IfOk result (HasValue arena.new (λ held turns. value.sum (width_of (tree_of arena.old left))
        (value_at arena.old left held turns) (value_at arena.old right held turns))) }
{
    let at = Level {
        width: width(arena, left),
        loops: nest.loop_count(),
    };
    sum_by(alloc, arena, nest, at, left, right)
}

/// The product of two expressions of one width, modulo 2^w, in the normal form. The errors come as those of
/// `make_sum`. The arena only goes on.
pub fn make_product(
    alloc: Global,
    arena: &mut Arena,
    nest: &LoopNest,
    left: ExprId,
    right: ExprId,
) -> Result<ExprId, FoldError>
    requires left { IsTreeAt arena.old left }
    requires right { IsTreeAt arena.old right }
    requires width { width_of (tree_of arena.old right) ≡ width_of (tree_of arena.old left) }
    ensures grows { GoesOn arena.old arena.new }
    ensures tree { let w = width_of (tree_of arena.old left) in Tells (IsAt arena.new w)
        (forms.tree_product nest.now w (tree_of arena.old left) (tree_of arena.old right)) result }
    ensures value { IfOk result (HasValue arena.new (λ held turns. value.product (width_of (tree_of arena.old left))
        (value_at arena.old left held turns) (value_at arena.old right held turns))) }
{
    let at = Level {
        width: width(arena, left),
        loops: nest.loop_count(),
    };
    product_by(alloc, arena, nest, at, left, right)
}

/// The recurrence of a loop with these parts, one or more of one width, w bits (Bachmann, Wang, Zima 1994): at turn 0
/// it is the first part, and at each further turn it has grown by the recurrence of the others. Parts at its end that
/// are 0 go, and one part is itself. It is meant for parts that are invariant in the loop. The errors come as those
/// of `make_sum`. The arena only goes on.
pub fn make_rec(
    alloc: Global,
    arena: &mut Arena,
    w: Width,
    l: LoopId,
    parts: &[ExprId],
) -> Result<ExprId, FoldError>
    requires parts { AreTreesOfAt arena.old w.bits parts.now }
    requires some { 1 ≤ length parts.now }
    ensures grows { GoesOn arena.old arena.new }
    ensures tree { Tells (IsAt arena.new w.bits)
        (forms.recurrence_of w.bits l.0 (trees_at arena.old parts.now)) result }
    ensures value { IfOk result (HasValue arena.new (iterated_parts arena.old w.bits l.0 parts.now)) }
{
    // An arena tells with its length that its trees are canonical.
    let _ = arena.len();
    rec_of(alloc, arena, w, l, parts)
}

/// The recurrence, unless it is above a limit.
fn rec_of(
    alloc: Global,
    arena: &mut Arena,
    w: Width,
    l: LoopId,
    parts: &[ExprId],
) -> Result<ExprId, FoldError>
    requires { AreTreesOfAt arena.old w.bits parts.now }
    ensures grows { GoesOn arena.old arena.new }
    ensures tree { Tells (IsAt arena.new w.bits)
        (forms.recurrence_of w.bits l.0 (trees_at arena.old parts.now)) result }
{
    let parts = trimmed(arena, w, Vec::from_slice(alloc, parts)?);
    let id = recurrence(alloc, arena, w, l, &parts)?;
    tested(arena, id)?;
    Ok(id)
}
