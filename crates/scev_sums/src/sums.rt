//! Sums, products and recurrences as they are formed. A call forms trees that it needs by calls at the level below,
//! where one loop less has recurrences; so all of them end.

ghost use Rattle.std.specs.Prelude.{◌≡◌, ℕ, suc, ◌+◌, ◌≤◌, length, map, IfOk};
ghost use Rattle.scev_tree.specs.Tree as tree;
ghost use Rattle.scev_arena.specs.Meaning.{meanings, terms_at, factors_at, tree_of};
ghost use Rattle.scev_forms.specs.Sums as forms;
ghost use Rattle.scev_forms.specs.Polynomials.{terms_sum};
ghost use Rattle.scev_polys.specs.Polynomials.{IsPolynomial};
ghost use Rattle.scev_sums.specs.Answers.{GoesOn, IsAt, AreAt, AreAll, IsTreeOfAt, AreTreesOfAt, trees_at, Tells};
ghost use Rattle.scev_sums.specs.Levels.{former, IsGathering, IsMonomialOf, IsRecurrence, NamePlaces};
ghost use Rattle.scev_forms.specs.Gather as gather;
ghost use Rattle.rec_algebra.specs.Forming.{product_plan};
ghost use Rattle.rec_algebra.specs.Plans.{IsPlan, NamesEarlier, IsStepBelow};

use crate::error::FoldError;
use crate::gather::{is_settled, one_term, recs_of, rest_of, split, terms_of};
use crate::parts::{is_one, push, results_of, tested_parts, trimmed};
use crate::tested::{tested, tested_terms, tree_of_terms};
use poly_terms::Term;
use rec_algebra::{Plan, PlanStep, add_plan, mul_plan, scale_plan};
use scev_arena::{Arena, Node};
use scev_base::{ExprId, LoopId, LoopNest, Width};
use scev_polys::{are_wide, of_atom, product, sum};
use scev_tree::Kind;
use scev_walk::deepest;
use sqlite_items::Items;
use std::alloc::{AllocError, Global};

/// The width of the trees that are formed, and in how many loops recurrences are formed for it.
#[derive(Clone, Copy, Debug, PartialEq, Eq)]
pub(crate) struct Level {
    pub width: Width,
    pub loops: u64,
}

/// What a step of gathering gives: nothing new, one tree, or a polynomial whose recurrences are gathered again.
#[derive(Debug, Drop)]
enum Gathering {
    Unchanged,
    Whole(ExprId),
    Again(Items<Term>),
}

/// The tree of a polynomial.
#[cycle(forming)]
pub(crate) fn formed(
    alloc: Global,
    arena: &mut Arena,
    nest: &LoopNest,
    at: Level,
    terms: Items<Term>,
) -> Result<ExprId, FoldError>
    requires { IsPolynomial arena.old at.width.bits terms }
    ensures grows { GoesOn arena.old arena.new }
    ensures tree { Tells (IsAt arena.new at.width.bits)
        (former nest.now at (terms_at (meanings arena.old) terms)) result }
{
    if at.loops == 0 {
        return tested_terms(arena, at.width, terms);
    }
    let below = Level {
        width: at.width,
        loops: at.loops - 1,
    };
    gathered(alloc, arena, nest, below, terms)
}

/// The tree of a polynomial, over trees that are formed at a level.
#[cycle(forming)]
fn gathered(
    alloc: Global,
    arena: &mut Arena,
    nest: &LoopNest,
    at: Level,
    terms: Items<Term>,
) -> Result<ExprId, FoldError>
    requires { IsPolynomial arena.old at.width.bits terms }
    ensures grows { GoesOn arena.old arena.new }
    ensures tree { Tells (IsAt arena.new at.width.bits)
        (forms.gathered (former nest.now at) nest.now at.width.bits (suc (length nest.now))
        (terms_at (meanings arena.old) terms)) result }
{
    let mut terms = terms;
    let mut left = nest.loop_count();
    loop {
        match gather_once(alloc, arena, nest, at, terms.as_slice())? {
            Gathering::Unchanged => return tested_terms(arena, at.width, terms),
            Gathering::Whole(id) => {
                tested(arena, id)?;
                return Ok(id);
            }
            Gathering::Again(more) => {
                if are_same(arena, at.width, more.as_slice(), terms.as_slice()) {
                    return tested_terms(arena, at.width, terms);
                }
                if left == 0 {
                    return tested_terms(arena, at.width, more);
                }
                terms = more;
                left -= 1;
            }
        }
    }
}

/// Whether two polynomials are one tree. Places of one thing are one, so only places are compared.
fn are_same(arena: &Arena, w: Width, left: &[Term], right: &[Term]) -> bool
    requires left { IsPolynomial arena.now w.bits left.now }
    requires right { IsPolynomial arena.now w.bits right.now }
    ensures { result ≡ forms.same_tree (tree.polynomial w.bits (terms_at (meanings arena.now) left.now))
        (tree.polynomial w.bits (terms_at (meanings arena.now) right.now)) }
{
    let _ = (arena.len(), w);
    left == right
}

/// One step of gathering, at the deepest loop of a factor.
#[cycle(forming)]
fn gather_once(
    alloc: Global,
    arena: &mut Arena,
    nest: &LoopNest,
    at: Level,
    terms: &[Term],
) -> Result<Gathering, FoldError>
    requires { IsPolynomial arena.old at.width.bits terms.now }
    ensures grows { GoesOn arena.old arena.new }
    ensures gathering { Tells (IsGathering arena.new at.width.bits (terms_at (meanings arena.old) terms.now))
        (forms.gathering_at (former nest.now at) nest.now at.width.bits (terms_at (meanings arena.old) terms.now)
        (gather.deepest nest.now (gather.loops_of_terms (terms_at (meanings arena.old) terms.now)))) result }
{
    let l = match deepest(arena, nest, terms) {
        Some(l) => l,
        None => return Ok(Gathering::Unchanged),
    };
    let (group, others) = split(alloc, arena, nest, l, at.width, terms)?;
    if is_settled(arena, l, &group) {
        return Ok(Gathering::Unchanged);
    }
    let parts = group_parts(alloc, arena, nest, at, l, &group)?;
    Ok(beside(alloc, arena, at.width, l, &parts, &others)?)
}

/// The tree of the sum of two polynomials.
fn whole_of(
    alloc: Global,
    arena: &mut Arena,
    w: Width,
    terms: &[Term],
    others: &[Term],
) -> Result<Gathering, AllocError>
    requires terms { IsPolynomial arena.old w.bits terms.now }
    requires others { IsPolynomial arena.old w.bits others.now }
    ensures grows { GoesOn arena.old arena.new }
    ensures whole { IfOk result (λ gathering. (first : tree.Terms) → IsGathering arena.new w.bits first gathering
        (forms.Whole (tree.polynomial w.bits (terms_sum w.bits (terms_at (meanings arena.old) terms.now)
        (terms_at (meanings arena.old) others.now))))) }
{
    let whole = sum(alloc, arena, w, terms, others)?;
    Ok(Gathering::Whole(tree_of_terms(arena, w, whole)?))
}

/// The recurrence with these parts, beside other terms. One part alone joins them.
fn beside(
    alloc: Global,
    arena: &mut Arena,
    w: Width,
    l: LoopId,
    parts: &[ExprId],
    others: &[Term],
) -> Result<Gathering, AllocError>
    requires parts { AreTreesOfAt arena.old w.bits parts.now }
    requires others { IsPolynomial arena.old w.bits others.now }
    ensures grows { GoesOn arena.old arena.new }
    ensures gathering { IfOk result (λ gathering. (terms : tree.Terms) → IsGathering arena.new w.bits terms gathering
        (forms.beside w.bits l.0 (trees_at arena.old parts.now) (terms_at (meanings arena.old) others.now))) }
{
    match parts {
        [] => whole_of(alloc, arena, w, &[], others),
        [only] if others.is_empty() => Ok(Gathering::Whole(*only)),
        [only] => {
            let more = sum(alloc, arena, w, terms_of(arena, w, *only), others)?;
            Ok(Gathering::Again(more))
        }
        _ => {
            let atom = arena.intern(Node::Atom {
                kind: Kind::Rec(l),
                width: w,
                parts: Items::from_slice(alloc, parts)?,
            })?;
            let rec = of_atom(alloc, arena, atom, w)?;
            whole_of(alloc, arena, w, rec.as_slice(), others)
        }
    }
}

/// The parts of the recurrence that a group of monomials becomes: each becomes one, and they are added from the left.
#[cycle(forming)]
fn group_parts(
    alloc: Global,
    arena: &mut Arena,
    nest: &LoopNest,
    at: Level,
    l: LoopId,
    group: &[Term],
) -> Result<Vec<ExprId>, FoldError>
    requires { IsPolynomial arena.old at.width.bits group.now }
    ensures grows { GoesOn arena.old arena.new }
    ensures parts { Tells (λ ids. AreAt arena.new at.width.bits ids.items)
        (forms.group_parts (former nest.now at) at.width.bits l.0 (terms_at (meanings arena.old) group.now)) result }
{
    let (first, others) = match group.split_first() {
        Some(both) => both,
        None => return Ok(Vec::new(alloc)),
    };
    let mut parts = monomial_parts(alloc, arena, nest, at, l, first)?;
    for term in others {
        let more = monomial_parts(alloc, arena, nest, at, l, term)?;
        parts = parts_sum(alloc, arena, nest, at, l, &parts, &more)?;
    }
    Ok(parts)
}

/// The parts of the recurrence that one monomial becomes.
#[cycle(forming)]
fn monomial_parts(
    alloc: Global,
    arena: &mut Arena,
    nest: &LoopNest,
    at: Level,
    l: LoopId,
    term: &Term,
) -> Result<Vec<ExprId>, FoldError>
    requires { IsMonomialOf arena.old at.width.bits term.now }
    ensures grows { GoesOn arena.old arena.new }
    ensures parts { Tells (λ ids. AreAt arena.new at.width.bits ids.items)
        (forms.monomial_parts (former nest.now at) at.width.bits l.0
        (factors_at (meanings arena.old) term.now.ids) term.now.coefficient) result }
{
    let recs = recs_of(alloc, arena, l, at.width, term.ids.as_slice())?;
    let rest = rest_of(alloc, arena, l, term.ids.as_slice())?;
    let terms = one_term(alloc, &rest, term.coefficient)?;
    let tree = formed(alloc, arena, nest, at, terms)?;
    parts_with(alloc, arena, nest, at, l, tree, &recs)
}

/// A tree, times recurrences of the loop.
#[cycle(forming)]
fn parts_with(
    alloc: Global,
    arena: &mut Arena,
    nest: &LoopNest,
    at: Level,
    l: LoopId,
    tree: ExprId,
    recs: &[Items<ExprId>],
) -> Result<Vec<ExprId>, FoldError>
    requires tree { IsTreeOfAt arena.old at.width.bits tree }
    requires recs { AreAll (IsRecurrence arena.old at.width.bits) recs.now }
    ensures grows { GoesOn arena.old arena.new }
    ensures parts { Tells (λ ids. AreAt arena.new at.width.bits ids.items)
        (forms.parts_with (former nest.now at) at.width.bits l.0 (tree_of arena.old tree)
        (map (trees_at arena.old) recs.now)) result }
{
    match recs.split_first() {
        None => {
            let mut parts = Vec::new(alloc);
            push(&mut parts, tree)?;
            Ok(parts)
        }
        Some((first, others)) => {
            let parts = parts_times(alloc, arena, nest, at, l, first.as_slice(), others)?;
            parts_multiple(alloc, arena, nest, at, l, tree, parts)
        }
    }
}

/// The parts of a recurrence of the loop, times further ones from the left.
#[cycle(forming)]
fn parts_times(
    alloc: Global,
    arena: &mut Arena,
    nest: &LoopNest,
    at: Level,
    l: LoopId,
    first: &[ExprId],
    recs: &[Items<ExprId>],
) -> Result<Vec<ExprId>, FoldError>
    requires first { AreTreesOfAt arena.old at.width.bits first.now }
    requires some { 1 ≤ length first.now }
    requires recs { AreAll (IsRecurrence arena.old at.width.bits) recs.now }
    ensures grows { GoesOn arena.old arena.new }
    ensures parts { Tells (λ ids. AreAt arena.new at.width.bits ids.items)
        (forms.parts_times (former nest.now at) at.width.bits l.0 (trees_at arena.old first.now)
        (map (trees_at arena.old) recs.now)) result }
{
    let mut parts = Vec::from_slice(alloc, first)?;
    for rec in recs {
        let rec = rec.as_slice();
        let plan = plan_of_product(alloc, &parts, rec)?;
        parts.extend_from_slice(rec)?;
        parts = carried(alloc, arena, nest, at, l, &plan, parts)?;
    }
    Ok(parts)
}

/// The plan of the product of two recurrences of a loop, by their parts.
fn plan_of_product(alloc: Global, left: &[ExprId], right: &[ExprId]) -> Result<Plan, AllocError>
    requires left { 1 ≤ length left.now }
    requires right { 1 ≤ length right.now }
    ensures plan { IfOk result (λ plan. plan ≡ product_plan (length left.now) (length right.now)) }
    ensures operands { IfOk result (λ plan. plan.parts ≡ length left.now + length right.now) }
    ensures count { IfOk result (λ plan. length plan.results + 1 ≡ length left.now + length right.now) }
    ensures places { IfOk result IsPlan }
{
    mul_plan(alloc, left.len() as u64, right.len() as u64)
}

/// The parts of a recurrence of the loop, times a tree; nothing is multiplied by 1.
#[cycle(forming)]
fn parts_multiple(
    alloc: Global,
    arena: &mut Arena,
    nest: &LoopNest,
    at: Level,
    l: LoopId,
    tree: ExprId,
    parts: Vec<ExprId>,
) -> Result<Vec<ExprId>, FoldError>
    requires tree { IsTreeOfAt arena.old at.width.bits tree }
    requires parts { AreTreesOfAt arena.old at.width.bits parts.items }
    ensures grows { GoesOn arena.old arena.new }
    ensures parts { Tells (λ ids. AreAt arena.new at.width.bits ids.items)
        (forms.parts_multiple (former nest.now at) at.width.bits l.0 (tree_of arena.old tree)
        (trees_at arena.old parts.items)) result }
{
    if is_one(arena, at.width, tree) {
        return Ok(parts);
    }
    let plan = scale_plan(alloc, parts.len() as u64)?;
    let mut operands = Vec::with_capacity(alloc, 1)?;
    push(&mut operands, tree)?;
    operands.extend_from_slice(&parts)?;
    carried(alloc, arena, nest, at, l, &plan, operands)
}

/// The parts of the sum of two recurrences of the loop.
#[cycle(forming)]
fn parts_sum(
    alloc: Global,
    arena: &mut Arena,
    nest: &LoopNest,
    at: Level,
    l: LoopId,
    left: &[ExprId],
    right: &[ExprId],
) -> Result<Vec<ExprId>, FoldError>
    requires left { AreTreesOfAt arena.old at.width.bits left.now }
    requires right { AreTreesOfAt arena.old at.width.bits right.now }
    ensures grows { GoesOn arena.old arena.new }
    ensures parts { Tells (λ ids. AreAt arena.new at.width.bits ids.items)
        (forms.parts_sum (former nest.now at) at.width.bits l.0 (trees_at arena.old left.now)
        (trees_at arena.old right.now)) result }
{
    let plan = add_plan(alloc, left.len() as u64, right.len() as u64)?;
    let mut operands = Vec::from_slice(alloc, left)?;
    operands.extend_from_slice(right)?;
    carried(alloc, arena, nest, at, l, &plan, operands)
}

/// The parts that a plan gives of its operands' parts, without those at the end that are 0.
#[cycle(forming)]
fn carried(
    alloc: Global,
    arena: &mut Arena,
    nest: &LoopNest,
    at: Level,
    l: LoopId,
    plan: &Plan,
    operands: Vec<ExprId>,
) -> Result<Vec<ExprId>, FoldError>
    requires plan { NamePlaces plan.now (length operands.items) }
    requires operands { AreTreesOfAt arena.old at.width.bits operands.items }
    ensures grows { GoesOn arena.old arena.new }
    ensures parts { Tells (λ ids. AreAt arena.new at.width.bits ids.items)
        (forms.carried_by (former nest.now at) at.width.bits l.0 plan.now (trees_at arena.old operands.items))
        result }
    ensures some { IfOk result (λ ids. 1 ≤ length plan.now.results → 1 ≤ length ids.items) }
{
    let places = places_of(alloc, arena, nest, at, plan.steps(), operands)?;
    let parts = results_of(alloc, plan.result(), &places)?;
    let parts = trimmed(arena, at.width, parts);
    tested_parts(alloc, arena, at.width, l, parts)
}

/// All places of a plan: those of its operands, and what each step forms of those before it.
#[cycle(forming)]
fn places_of(
    alloc: Global,
    arena: &mut Arena,
    nest: &LoopNest,
    at: Level,
    steps: &[PlanStep],
    operands: Vec<ExprId>,
) -> Result<Vec<ExprId>, FoldError>
    requires steps { NamesEarlier (length operands.items) steps.now }
    requires operands { AreTreesOfAt arena.old at.width.bits operands.items }
    ensures grows { GoesOn arena.old arena.new }
    ensures places { Tells (λ ids. AreAt arena.new at.width.bits ids.items)
        (forms.places_by (former nest.now at) at.width.bits steps.now (trees_at arena.old operands.items))
        result }
    ensures count { IfOk result (λ ids. length ids.items ≡ length operands.items + length steps.now) }
{
    let mut places = operands;
    for step in steps {
        let id = stepped(alloc, arena, nest, at, &places, *step)?;
        push(&mut places, id)?;
    }
    Ok(places)
}

/// What a step of a plan forms of the places so far.
#[cycle(forming)]
fn stepped(
    alloc: Global,
    arena: &mut Arena,
    nest: &LoopNest,
    at: Level,
    places: &[ExprId],
    step: PlanStep,
) -> Result<ExprId, FoldError>
    requires step { IsStepBelow (length places.now) step }
    requires places { AreTreesOfAt arena.old at.width.bits places.now }
    ensures grows { GoesOn arena.old arena.new }
    ensures tree { Tells (IsAt arena.new at.width.bits)
        (forms.step_by (former nest.now at) at.width.bits (trees_at arena.old places.now) step) result }
{
    match step {
        PlanStep::Add(i, j) => sum_by(
            alloc,
            arena,
            nest,
            at,
            places[i as usize],
            places[j as usize],
        ),
        PlanStep::Mul(i, j) => product_by(
            alloc,
            arena,
            nest,
            at,
            places[i as usize],
            places[j as usize],
        ),
    }
}

/// The sum of two trees, formed at a level.
#[cycle(forming)]
pub(crate) fn sum_by(
    alloc: Global,
    arena: &mut Arena,
    nest: &LoopNest,
    at: Level,
    left: ExprId,
    right: ExprId,
) -> Result<ExprId, FoldError>
    requires left { IsTreeOfAt arena.old at.width.bits left }
    requires right { IsTreeOfAt arena.old at.width.bits right }
    ensures grows { GoesOn arena.old arena.new }
    ensures tree { Tells (IsAt arena.new at.width.bits)
        (forms.sum_by (former nest.now at) at.width.bits (tree_of arena.old left) (tree_of arena.old right)) result }
{
    let (lefts, rights) = (
        terms_of(arena, at.width, left),
        terms_of(arena, at.width, right),
    );
    let terms = sum(alloc, arena, at.width, lefts, rights)?;
    formed_within(alloc, arena, nest, at, terms)
}

/// The product of two trees, formed at a level.
#[cycle(forming)]
pub(crate) fn product_by(
    alloc: Global,
    arena: &mut Arena,
    nest: &LoopNest,
    at: Level,
    left: ExprId,
    right: ExprId,
) -> Result<ExprId, FoldError>
    requires left { IsTreeOfAt arena.old at.width.bits left }
    requires right { IsTreeOfAt arena.old at.width.bits right }
    ensures grows { GoesOn arena.old arena.new }
    ensures tree { Tells (IsAt arena.new at.width.bits)
        (forms.product_by (former nest.now at) at.width.bits (tree_of arena.old left) (tree_of arena.old right))
        result }
{
    let (lefts, rights) = (
        terms_of(arena, at.width, left),
        terms_of(arena, at.width, right),
    );
    let terms = product(alloc, arena, at.width, lefts, rights)?;
    formed_within(alloc, arena, nest, at, terms)
}

/// The tree of a polynomial that isn't above the limits.
#[cycle(forming)]
fn formed_within(
    alloc: Global,
    arena: &mut Arena,
    nest: &LoopNest,
    at: Level,
    terms: Items<Term>,
) -> Result<ExprId, FoldError>
    requires { IsPolynomial arena.old at.width.bits terms }
    ensures grows { GoesOn arena.old arena.new }
    ensures tree { Tells (IsAt arena.new at.width.bits)
        (forms.formed_within (former nest.now at) (terms_at (meanings arena.old) terms)) result }
{
    if are_wide(arena, terms.as_slice()) {
        return Err(FoldError::TooWide);
    }
    formed(alloc, arena, nest, at, terms)
}
