//! The value of a recurrence at a count.

ghost use Rattle.std.specs.Prelude.{◌≡◌, ℕ, ◌≤◌, ◌∷◌, [], suc, length, map, IfOk};
ghost use Rattle.scev_tree.specs.Tree as tree;
ghost use Rattle.scev_arena.specs.Meaning.{tree_of};
ghost use Rattle.scev_arena.specs.Standing.{IsTreeAt};
ghost use Rattle.scev_forms.specs.Atoms as atoms;
ghost use Rattle.scev_forms.specs.Turns as forms;
ghost use Rattle.binomial_eval.specs.Choose.{choose};
ghost use Rattle.scev_sums.specs.Answers.{GoesOn, IsAt, IsTreeOfAt, AreTreesOfAt, trees_at, Tells};

use crate::binomials::Binomial;
use scev_arena::Arena;
use scev_base::{ExprId, LoopNest, Width};
use scev_casts::{make_trunc, make_zext};
use scev_sums::{FoldError, constant, make_product, make_sum};
use scev_walk::{number_of, width};
use std::alloc::Global;

/// The value of a recurrence with these parts at the count: where that is a number, the sum of its parts, each times a
/// binomial coefficient, and else its start and its step times the count.
pub(crate) fn counted(
    alloc: Global,
    arena: &mut Arena,
    nest: &LoopNest,
    w: Width,
    count: ExprId,
    parts: &[ExprId],
) -> Result<ExprId, FoldError>
    requires count { IsTreeAt arena.old count }
    requires parts { AreTreesOfAt arena.old w.bits parts.now }
    ensures grows { GoesOn arena.old arena.new }
    ensures tree { Tells (IsAt arena.new w.bits) (forms.counted nest.now w.bits (tree_of arena.old count)
        (trees_at arena.old parts.now)) result }
{
    let (first, others) = match parts.split_first() {
        Some(both) => both,
        None => return Ok(constant(alloc, arena, w, 0)?),
    };
    match (number_of(arena, count), others) {
        (Some(n), _) => counted_parts(alloc, arena, nest, w, n, *first, others),
        (None, [step]) => counted_affine(alloc, arena, nest, w, count, *first, *step),
        (None, _) => Ok(*first),
    }
}

/// A start, and further parts up to the n-th, each times the binomial coefficient of n at its place.
fn counted_parts(
    alloc: Global,
    arena: &mut Arena,
    nest: &LoopNest,
    w: Width,
    n: u64,
    first: ExprId,
    others: &[ExprId],
) -> Result<ExprId, FoldError>
    requires first { IsTreeOfAt arena.old w.bits first }
    requires others { AreTreesOfAt arena.old w.bits others.now }
    ensures grows { GoesOn arena.old arena.new }
    ensures tree { Tells (IsAt arena.new w.bits) (forms.counted_parts nest.now w.bits n 1
        (trees_at arena.old others.now) (tree_of arena.old first)) result }
{
    let mut sum = first;
    let mut binomial = Binomial::first(n);
    for i in 0..others.len() {
        let k = i as u64;
        if n <= k {
            return Ok(sum);
        }
        binomial = binomial.next(n, k);
        let times = constant(alloc, arena, w, binomial.residue(n, k + 1, w))?;
        let product = make_product(alloc, arena, nest, others[i], times)?;
        sum = make_sum(alloc, arena, nest, sum, product)?;
    }
    Ok(sum)
}

/// The start, and the step times the count at w bits: its lowest ones, or extended without sign.
fn counted_affine(
    alloc: Global,
    arena: &mut Arena,
    nest: &LoopNest,
    w: Width,
    count: ExprId,
    first: ExprId,
    step: ExprId,
) -> Result<ExprId, FoldError>
    requires count { IsTreeAt arena.old count }
    requires first { IsTreeOfAt arena.old w.bits first }
    requires step { IsTreeOfAt arena.old w.bits step }
    ensures grows { GoesOn arena.old arena.new }
    ensures tree { Tells (IsAt arena.new w.bits) (forms.counted_affine nest.now w.bits (tree_of arena.old count)
        (tree_of arena.old first) (tree_of arena.old step ∷ [])) result }
{
    let turns = fitted(alloc, arena, nest, w, count)?;
    let product = make_product(alloc, arena, nest, step, turns)?;
    make_sum(alloc, arena, nest, first, product)
}

/// The count at w bits.
fn fitted(
    alloc: Global,
    arena: &mut Arena,
    nest: &LoopNest,
    w: Width,
    count: ExprId,
) -> Result<ExprId, FoldError>
    requires { IsTreeAt arena.old count }
    ensures grows { GoesOn arena.old arena.new }
    ensures tree { Tells (IsAt arena.new w.bits) (forms.fitted nest.now w.bits (tree_of arena.old count)) result }
{
    if width(arena, count).get() < w.get() {
        make_zext(alloc, arena, nest, count, w, false)
    } else {
        make_trunc(alloc, arena, nest, count, w)
    }
}
