//! The lowest bits of expressions. They go into coefficients, factors and the parts of recurrences.

ghost use Rattle.std.specs.Prelude.{◌≡◌, ℕ, ◌<◌, ◌≤◌, ◌%◌, ◌^◌, [], ◌∷◌, map, IfOk, option_map};
ghost use Rattle.scev_tree.specs.declared.kind.Kind.TheVariants as kinds;
ghost use Rattle.scev_tree.specs.Tree as tree;
ghost use Rattle.scev_tree.specs.Canonical.{HasParts};
ghost use Rattle.scev_arena.specs.Meaning.{meanings, terms_at, factors_at, tree_of, atom_of};
ghost use Rattle.scev_arena.specs.Standing.{IsTreeAt, IsAtomAt, AreTrees, AreAtoms, AreOverAtoms};
ghost use Rattle.scev_walk.specs.Reading.{AreBelow, AreOverBelow};
ghost use Rattle.scev_forms.specs.Atoms.{made as forms_made};
ghost use Rattle.scev_forms.specs.Casts as forms;
ghost use Rattle.scev_sums.specs.Answers.{GoesOn, IsAt, AreAt, IsTreeOfAt, AreTreesOfAt, Tells};
ghost use Rattle.scev_sums.specs.Values.{HasValue, value_at};
ghost use Rattle.scev_casts.specs.Steps.{monomial_cut};

use poly_terms::Term;
use scev_arena::Arena;
use scev_base::{ExprId, LoopNest, Width, trunc};
use scev_sums::{
    FoldError, constant, copied_terms, made, make_product, make_rec, make_sum, push, tree_of_atom,
};
use scev_tree::Kind;
use scev_walk::{atom_at, width};
use sqlite_items::Items;
use std::alloc::Global;

/// The expression modulo 2^w, where w isn't above its width. Of the same width it is itself. `TooWide`, `TooHigh` and
/// `TooDeep` come exactly where the first tree that is above a limit is, on the way or in the end, and `OutOfMemory`
/// only where no memory is found. The arena only goes on, also where an error comes.
pub fn make_trunc(
    alloc: Global,
    arena: &mut Arena,
    nest: &LoopNest,
    id: ExprId,
    to: Width,
) -> Result<ExprId, FoldError>
    requires tree { IsTreeAt arena.old id }
    requires width { to.bits ≤ tree.width_of (tree_of arena.old id) }
    ensures grows { GoesOn arena.old arena.new }
    ensures tree { Tells (IsAt arena.new to.bits)
        (forms.truncated nest.now to.bits (tree_of arena.old id)) result }
    ensures value { IfOk result (HasValue arena.new (λ held turns.
        option_map (λ n. n % 2 ^ to.bits) (value_at arena.old id held turns))) }
{
    // An arena tells with its length that its trees are canonical.
    let _ = arena.len();
    truncated(alloc, arena, nest, to, id)
}

/// The lowest bits of a tree.
#[cycle(cutting)]
fn truncated(
    alloc: Global,
    arena: &mut Arena,
    nest: &LoopNest,
    w: Width,
    id: ExprId,
) -> Result<ExprId, FoldError>
    requires tree { IsTreeAt arena.old id }
    requires width { w.bits ≤ tree.width_of (tree_of arena.old id) }
    ensures grows { GoesOn arena.old arena.new }
    ensures tree { Tells (IsAt arena.new w.bits) (forms.truncated nest.now w.bits (tree_of arena.old id)) result }
{
    if width(arena, id) == w {
        return Ok(id);
    }
    let (from, terms) = copied_terms(alloc, arena, id)?;
    truncated_terms(alloc, arena, nest, from, w, id.0, terms.as_slice())
}

/// The sum of the lowest bits of terms of wider trees, from 0 on. The atoms of the terms stand below a place.
#[cycle(cutting)]
fn truncated_terms(
    alloc: Global,
    arena: &mut Arena,
    nest: &LoopNest,
    from: Width,
    w: Width,
    below: u64,
    terms: &[Term],
) -> Result<ExprId, FoldError>
    requires width { w.bits < from.bits }
    requires over { AreOverAtoms arena.old from.bits terms.now }
    requires below { AreOverBelow below terms.now }
    ensures grows { GoesOn arena.old arena.new }
    ensures tree { Tells (IsAt arena.new w.bits) (forms.truncated_terms nest.now w.bits
        (terms_at (meanings arena.old) terms.now) (tree.constant w.bits 0)) result }
{
    let mut sum = constant(alloc, arena, w, 0)?;
    for term in terms {
        sum = with_monomial(alloc, arena, nest, from, w, below, term, sum)?;
    }
    Ok(sum)
}

/// The sum so far, with the lowest bits of one more monomial: nothing where its coefficient becomes 0.
#[cycle(cutting)]
fn with_monomial(
    alloc: Global,
    arena: &mut Arena,
    nest: &LoopNest,
    from: Width,
    w: Width,
    below: u64,
    term: &Term,
    sum: ExprId,
) -> Result<ExprId, FoldError>
    requires width { w.bits < from.bits }
    requires atoms { AreAtoms arena.old from.bits term.now.ids }
    requires below { AreBelow below term.now.ids }
    requires sum { IsTreeOfAt arena.old w.bits sum }
    ensures grows { GoesOn arena.old arena.new }
    ensures tree { Tells (IsAt arena.new w.bits) (monomial_cut nest.now w.bits
        (factors_at (meanings arena.old) term.now.ids) term.now.coefficient (tree_of arena.old sum)) result }
{
    if trunc(term.coefficient, w) == 0 {
        return Ok(sum);
    }
    let start = constant(alloc, arena, w, term.coefficient)?;
    let ids = term.ids.as_slice();
    let product = truncated_factors(alloc, arena, nest, from, w, below, ids, start)?;
    make_sum(alloc, arena, nest, sum, product)
}

/// The product so far, by the lowest bits of further factors, which stand below a place.
#[cycle(cutting)]
fn truncated_factors(
    alloc: Global,
    arena: &mut Arena,
    nest: &LoopNest,
    from: Width,
    w: Width,
    below: u64,
    ids: &[ExprId],
    start: ExprId,
) -> Result<ExprId, FoldError>
    requires width { w.bits < from.bits }
    requires atoms { AreAtoms arena.old from.bits ids.now }
    requires below { AreBelow below ids.now }
    requires start { IsTreeOfAt arena.old w.bits start }
    ensures grows { GoesOn arena.old arena.new }
    ensures tree { Tells (IsAt arena.new w.bits) (forms.truncated_factors nest.now w.bits
        (factors_at (meanings arena.old) ids.now) (tree_of arena.old start)) result }
{
    let mut product = start;
    for id in ids {
        let factor = truncated_atom(alloc, arena, nest, from, w, *id)?;
        product = make_product(alloc, arena, nest, product, factor)?;
    }
    Ok(product)
}

/// The lowest bits of an atom of a wider tree.
#[cycle(cutting)]
fn truncated_atom(
    alloc: Global,
    arena: &mut Arena,
    nest: &LoopNest,
    from: Width,
    w: Width,
    id: ExprId,
) -> Result<ExprId, FoldError>
    requires width { w.bits < from.bits }
    requires atom { IsAtomAt arena.old from.bits id }
    ensures grows { GoesOn arena.old arena.new }
    ensures tree { Tells (IsAt arena.new w.bits)
        (forms.truncated_atom nest.now w.bits (atom_of arena.old id)) result }
{
    let (kind, _, parts) = atom_at(arena, id);
    let parts = Items::from_slice(alloc, parts)?;
    match kind {
        Kind::Trunc => made(alloc, arena, Kind::Trunc, w, parts),
        Kind::Zext => {
            let only = parts.as_slice()[0];
            of_extended(alloc, arena, nest, w, Kind::Zext, only, parts)
        }
        Kind::Sext => {
            let only = parts.as_slice()[0];
            of_extended(alloc, arena, nest, w, Kind::Sext, only, parts)
        }
        Kind::Rec(l) => {
            let ids = parts.as_slice();
            let parts = truncated_parts(alloc, arena, nest, from, w, id.0, ids)?;
            make_rec(alloc, arena, w, l, &parts)
        }
        _ => of_whole(alloc, arena, kind, from, w, parts),
    }
}

/// The lowest bits of an atom as a whole, given its kind, its width and its parts.
fn of_whole(
    alloc: Global,
    arena: &mut Arena,
    kind: Kind,
    from: Width,
    w: Width,
    parts: Items<ExprId>,
) -> Result<ExprId, FoldError>
    requires width { w.bits < from.bits }
    requires parts { AreTrees arena.old parts }
    requires kind { HasParts kind from.bits (tree.parts_of (map (tree_of arena.old) parts)) }
    ensures grows { GoesOn arena.old arena.new }
    ensures tree { Tells (IsAt arena.new w.bits) (forms_made kinds.Trunc w.bits (tree.of_atom from.bits
        (tree.atom kind from.bits (tree.parts_of (map (tree_of arena.old) parts))) ∷ [])) result }
{
    let whole = tree_of_atom(alloc, arena, kind, from, parts)?;
    let parts = Items::from_slice(alloc, &[whole])?;
    made(alloc, arena, Kind::Trunc, w, parts)
}

/// The lowest bits of a tree that is extended, of its parts: it alone.
#[cycle(cutting)]
fn of_extended(
    alloc: Global,
    arena: &mut Arena,
    nest: &LoopNest,
    w: Width,
    kind: Kind,
    id: ExprId,
    parts: Items<ExprId>,
) -> Result<ExprId, FoldError>
    requires tree { IsTreeAt arena.old id }
    requires kind { (v : ℕ) → tree.width_of (tree_of arena.old id) < v
        → HasParts kind v (tree.part (tree_of arena.old id) tree.no_parts) }
    requires parts { parts ≡ id ∷ [] }
    ensures grows { GoesOn arena.old arena.new }
    ensures tree { Tells (IsAt arena.new w.bits) (forms.of_extended kind w.bits (tree_of arena.old id)
        (forms.truncated nest.now w.bits (tree_of arena.old id))) result }
{
    if width(arena, id).get() < w.get() {
        made(alloc, arena, kind, w, parts)
    } else {
        truncated(alloc, arena, nest, w, id)
    }
}

/// The lowest bits of the parts of a recurrence, which stand below a place.
#[cycle(cutting)]
fn truncated_parts(
    alloc: Global,
    arena: &mut Arena,
    nest: &LoopNest,
    from: Width,
    w: Width,
    below: u64,
    parts: &[ExprId],
) -> Result<Vec<ExprId>, FoldError>
    requires width { w.bits < from.bits }
    requires trees { AreTreesOfAt arena.old from.bits parts.now }
    requires below { AreBelow below parts.now }
    ensures grows { GoesOn arena.old arena.new }
    ensures parts { Tells (λ ids. AreAt arena.new w.bits ids.items) (forms.truncated_parts nest.now w.bits
        (tree.parts_of (map (tree_of arena.old) parts.now))) result }
{
    let mut cut = Vec::with_capacity(alloc, parts.len())?;
    for id in parts {
        let part = truncated(alloc, arena, nest, w, *id)?;
        push(&mut cut, part)?;
    }
    Ok(cut)
}
