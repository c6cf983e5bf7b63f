//! The value of an expression at a turn of a loop.

ghost use Rattle.std.specs.Prelude.{◌≡◌, map, IfOk, IfSome};
ghost use Rattle.scev_tree.specs.Tree as tree;
ghost use Rattle.scev_arena.specs.Meaning.{meanings, tree_of, atom_of, factors_at, terms_at};
ghost use Rattle.scev_arena.specs.Standing.{IsTreeAt, IsAtomAt, AreTrees, AreAtoms, AreOverAtoms};
ghost use Rattle.scev_walk.specs.Reading.{AreBelow, AreOverBelow};
ghost use Rattle.scev_forms.specs.Turns as forms;
ghost use Rattle.scev_sums.specs.Answers.{GoesOn, IsAt, AreAt, IsTreeOfAt, trees_at, Tells};
ghost use Rattle.scev_fold.specs.Turns.{TellsIfAny, HasValueAtTurn, monomial_at_turn};

use crate::counted::counted;
use crate::hindered::is_hindered;
use crate::reformed::reformed;
use poly_terms::Term;
use scev_arena::Arena;
use scev_base::{ExprId, LoopId, LoopNest, Width};
use scev_sums::{FoldError, constant, copied_terms, make_product, make_sum, push};
use scev_tree::Kind;
use scev_walk::atom_at;
use sqlite_items::Items;
use std::alloc::Global;

/// The expression once the loop is at the turn that the count is, a number that is read as unsigned. Each recurrence
/// of the loop becomes its value there: at a number n the sum of part i times C(n, i) for i up to n, and at any other
/// count, where there are two parts and the second is a number, start + step · count, with the count truncated or
/// extended without sign to the width; and the expression is formed anew. None where a recurrence of the loop is of
/// neither sort, or a register in it is defined in the loop. `TooWide`, `TooHigh` and `TooDeep` come exactly where the
/// first tree that is above a limit is, on the way or in the end, and `OutOfMemory` only where no memory is found. The
/// arena only goes on, also where an error comes.
pub fn at_turn(
    alloc: Global,
    arena: &mut Arena,
    nest: &LoopNest,
    id: ExprId,
    l: LoopId,
    count: ExprId,
) -> Result<Option<ExprId>, FoldError>
    requires tree { IsTreeAt arena.old id }
    requires count { IsTreeAt arena.old count }
    ensures grows { GoesOn arena.old arena.new }
    ensures tree { TellsIfAny (IsAt arena.new (tree.width_of (tree_of arena.old id)))
        (forms.at_turn nest.now l.0 (tree_of arena.old count) (tree_of arena.old id)) result }
    ensures value { IfOk result (λ found. IfSome found (HasValueAtTurn arena.old arena.new l.0 count id)) }
{
    // An arena tells with its length that its trees are canonical.
    let _ = arena.len();
    if is_hindered(arena, nest, l, count, id) {
        return Ok(None);
    }
    let found = tree_at_turn(alloc, arena, nest, l, count, id)?;
    Ok(Some(found))
}

/// The tree at the turn.
#[cycle(turning)]
fn tree_at_turn(
    alloc: Global,
    arena: &mut Arena,
    nest: &LoopNest,
    l: LoopId,
    count: ExprId,
    id: ExprId,
) -> Result<ExprId, FoldError>
    requires tree { IsTreeAt arena.old id }
    requires count { IsTreeAt arena.old count }
    ensures grows { GoesOn arena.old arena.new }
    ensures tree { Tells (IsAt arena.new (tree.width_of (tree_of arena.old id)))
        (forms.tree_at_turn nest.now l.0 (tree_of arena.old count) (tree_of arena.old id)) result }
{
    let (w, terms) = copied_terms(alloc, arena, id)?;
    terms_at_turn(alloc, arena, nest, l, count, w, id.0, terms.as_slice())
}

/// The sum of terms at the turn, from 0 on. Their atoms stand below a place.
#[cycle(turning)]
fn terms_at_turn(
    alloc: Global,
    arena: &mut Arena,
    nest: &LoopNest,
    l: LoopId,
    count: ExprId,
    w: Width,
    below: u64,
    terms: &[Term],
) -> Result<ExprId, FoldError>
    requires count { IsTreeAt arena.old count }
    requires over { AreOverAtoms arena.old w.bits terms.now }
    requires below { AreOverBelow below terms.now }
    ensures grows { GoesOn arena.old arena.new }
    ensures tree { Tells (IsAt arena.new w.bits) (forms.terms_at_turn nest.now l.0 (tree_of arena.old count) w.bits
        (terms_at (meanings arena.old) terms.now) (tree.constant w.bits 0)) result }
{
    let mut sum = constant(alloc, arena, w, 0)?;
    for term in terms {
        sum = with_monomial(alloc, arena, nest, l, count, w, below, term, sum)?;
    }
    Ok(sum)
}

/// The sum so far, with one more monomial at the turn.
#[cycle(turning)]
fn with_monomial(
    alloc: Global,
    arena: &mut Arena,
    nest: &LoopNest,
    l: LoopId,
    count: ExprId,
    w: Width,
    below: u64,
    term: &Term,
    sum: ExprId,
) -> Result<ExprId, FoldError>
    requires count { IsTreeAt arena.old count }
    requires atoms { AreAtoms arena.old w.bits term.now.ids }
    requires below { AreBelow below term.now.ids }
    requires sum { IsTreeOfAt arena.old w.bits sum }
    ensures grows { GoesOn arena.old arena.new }
    ensures tree { Tells (IsAt arena.new w.bits) (monomial_at_turn nest.now l.0 (tree_of arena.old count) w.bits
        (factors_at (meanings arena.old) term.now.ids) term.now.coefficient (tree_of arena.old sum)) result }
{
    let start = constant(alloc, arena, w, term.coefficient)?;
    let ids = term.ids.as_slice();
    let product = factors_at_turn(alloc, arena, nest, l, count, w, below, ids, start)?;
    make_sum(alloc, arena, nest, sum, product)
}

/// The product so far, by further factors at the turn. They stand below a place.
#[cycle(turning)]
fn factors_at_turn(
    alloc: Global,
    arena: &mut Arena,
    nest: &LoopNest,
    l: LoopId,
    count: ExprId,
    w: Width,
    below: u64,
    ids: &[ExprId],
    start: ExprId,
) -> Result<ExprId, FoldError>
    requires count { IsTreeAt arena.old count }
    requires atoms { AreAtoms arena.old w.bits ids.now }
    requires below { AreBelow below ids.now }
    requires start { IsTreeOfAt arena.old w.bits start }
    ensures grows { GoesOn arena.old arena.new }
    ensures tree { Tells (IsAt arena.new w.bits) (forms.factors_at_turn nest.now l.0 (tree_of arena.old count) w.bits
        (factors_at (meanings arena.old) ids.now) (tree_of arena.old start)) result }
{
    let mut product = start;
    for id in ids {
        let factor = atom_at_turn(alloc, arena, nest, l, count, w, *id)?;
        product = make_product(alloc, arena, nest, product, factor)?;
    }
    Ok(product)
}

/// An atom at the turn: a recurrence of the loop becomes its value there, and any other atom is formed anew of its
/// parts there.
#[cycle(turning)]
fn atom_at_turn(
    alloc: Global,
    arena: &mut Arena,
    nest: &LoopNest,
    l: LoopId,
    count: ExprId,
    w: Width,
    id: ExprId,
) -> Result<ExprId, FoldError>
    requires count { IsTreeAt arena.old count }
    requires atom { IsAtomAt arena.old w.bits id }
    ensures grows { GoesOn arena.old arena.new }
    ensures tree { Tells (IsAt arena.new w.bits)
        (forms.atom_at_turn nest.now l.0 (tree_of arena.old count) (atom_of arena.old id)) result }
{
    let (kind, _, parts) = atom_at(arena, id);
    let parts = Items::from_slice(alloc, parts)?;
    let ids = parts.as_slice();
    if kind == Kind::Rec(l) {
        return counted(alloc, arena, nest, w, count, ids);
    }
    let formed = parts_at_turn(alloc, arena, nest, l, count, id.0, ids)?;
    reformed(alloc, arena, nest, w, kind, Items::from_vec(formed))
}

/// Parts at the turn. They stand below a place.
#[cycle(turning)]
fn parts_at_turn(
    alloc: Global,
    arena: &mut Arena,
    nest: &LoopNest,
    l: LoopId,
    count: ExprId,
    below: u64,
    parts: &[ExprId],
) -> Result<Vec<ExprId>, FoldError>
    requires count { IsTreeAt arena.old count }
    requires trees { AreTrees arena.old parts.now }
    requires below { AreBelow below parts.now }
    ensures grows { GoesOn arena.old arena.new }
    ensures parts { Tells (λ ids trees. AreTrees arena.new ids.items × (trees_at arena.new ids.items ≡ trees))
        (forms.parts_at_turn nest.now l.0 (tree_of arena.old count)
        (tree.parts_of (map (tree_of arena.old) parts.now))) result }
    ensures widths { IfOk result (λ ids. map tree.width_of (trees_at arena.new ids.items)
        ≡ map tree.width_of (trees_at arena.old parts.now)) }
{
    let mut found = Vec::with_capacity(alloc, parts.len())?;
    for id in parts {
        let part = tree_at_turn(alloc, arena, nest, l, count, *id)?;
        push(&mut found, part)?;
    }
    Ok(found)
}
