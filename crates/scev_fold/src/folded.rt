//! Minima of several expressions.

ghost use Rattle.std.specs.Prelude.{◌≡◌};
ghost use Rattle.scev_arena.specs.Meaning.{tree_of};
ghost use Rattle.scev_forms.specs.Turns as forms;
ghost use Rattle.scev_minima.specs.Kinds.{kind_of};
ghost use Rattle.scev_sums.specs.Answers.{GoesOn, IsAt, IsTreeOfAt, AreTreesOfAt, trees_at, Tells};

use scev_arena::Arena;
use scev_base::{ExprId, LoopNest, Width};
use scev_minima::{MinKind, make_min, make_umin_seq};
use scev_sums::FoldError;
use std::alloc::Global;

/// The minimum or maximum of an expression and further ones, from the left.
pub(crate) fn minimum_of_all(
    alloc: Global,
    arena: &mut Arena,
    nest: &LoopNest,
    kind: MinKind,
    w: Width,
    first: ExprId,
    others: &[ExprId],
) -> Result<ExprId, FoldError>
    requires first { IsTreeOfAt arena.old w.bits first }
    requires others { AreTreesOfAt arena.old w.bits others.now }
    ensures grows { GoesOn arena.old arena.new }
    ensures tree { Tells (IsAt arena.new w.bits) (forms.minimum_of_all (kind_of kind) w.bits
        (tree_of arena.old first) (trees_at arena.old others.now)) result }
{
    let mut least = first;
    for other in others {
        least = make_min(alloc, arena, nest, kind, least, *other)?;
    }
    Ok(least)
}

/// The sequential minimum of an expression and further ones, from the left.
pub(crate) fn sequence_of_all(
    alloc: Global,
    arena: &mut Arena,
    nest: &LoopNest,
    w: Width,
    first: ExprId,
    others: &[ExprId],
) -> Result<ExprId, FoldError>
    requires first { IsTreeOfAt arena.old w.bits first }
    requires others { AreTreesOfAt arena.old w.bits others.now }
    ensures grows { GoesOn arena.old arena.new }
    ensures tree { Tells (IsAt arena.new w.bits) (forms.sequence_of_all w.bits
        (tree_of arena.old first) (trees_at arena.old others.now)) result }
{
    let mut least = first;
    for other in others {
        least = make_umin_seq(alloc, arena, nest, least, *other)?;
    }
    Ok(least)
}
