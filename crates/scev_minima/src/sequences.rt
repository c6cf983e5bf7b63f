//! Sequential minima: the parts behind the first one that is 0 don't count.

ghost use Rattle.std.specs.Prelude.{◌≡◌, ℕ, ◌<◌, ◌^◌, ◌++◌, ◌∷◌, [], List, IfOk, IfSome, IsTrue};
ghost use Rattle.scev_tree.specs.Tree as tree;
ghost use Rattle.scev_tree.specs.Value as value;
ghost use Rattle.scev_tree.specs.declared.kind.Kind.TheVariants as kind;
ghost use Rattle.scev_arena.specs.Meaning.{tree_of};
ghost use Rattle.scev_arena.specs.Standing.{IsTreeAt};
ghost use Rattle.scev_forms.specs.Atoms as atoms;
ghost use Rattle.scev_forms.specs.Minima as forms;
ghost use Rattle.scev_sums.specs.Answers.{GoesOn, IsAt, AreAt, IsTreeOfAt, AreTreesOfAt, trees_at, Tells};
ghost use Rattle.scev_sums.specs.Values.{HasValue, value_at};
ghost use Rattle.scev_minima.specs.Sequences.{reversed, first_number};

use crate::flat::flattened;
use crate::minima::of_parts;
use scev_arena::Arena;
use scev_base::{ExprId, LoopNest, Width};
use scev_sums::{FoldError, constant, push};
use scev_tree::Kind;
use scev_walk::{number_of, width};
use std::alloc::{AllocError, Global};

/// The sequential minimum of two expressions of one width: 0 where the first is 0, whatever the second is, and else the
/// unsigned minimum of both. Sequential minima are taken in; a part that stood before goes, neighbouring numbers become
/// the least of them, and a first part that is 0 is the answer; one part is itself. `TooHigh` and `TooDeep` come exactly
/// where the tree is above a limit, and `OutOfMemory` only where no memory is found. The arena only goes on, also where
/// an error comes.
pub fn make_umin_seq(
    alloc: Global,
    arena: &mut Arena,
    nest: &LoopNest,
    first: ExprId,
    second: ExprId,
) -> Result<ExprId, FoldError>
    requires first { IsTreeAt arena.old first }
    requires second { IsTreeAt arena.old second }
    requires width { tree.width_of (tree_of arena.old second) ≡ tree.width_of (tree_of arena.old first) }
    ensures grows { GoesOn arena.old arena.new }
    ensures tree { let w = tree.width_of (tree_of arena.old first) in Tells (IsAt arena.new w)
        (forms.tree_sequence w (tree_of arena.old first) (tree_of arena.old second)) result }
    ensures value { IfOk result (HasValue arena.new (λ held turns. value.least_in_sequence
        (value_at arena.old first held turns ∷ value_at arena.old second held turns ∷ []))) }
{
    let _ = nest;
    let w = width(arena, first);
    let mut parts = flattened(alloc, arena, Kind::Seq, w, first)?;
    parts.extend_from_slice(&flattened(alloc, arena, Kind::Seq, w, second)?)?;
    let parts = first_ones(alloc, arena, w, &parts)?;
    let parts = neighbours_joined(alloc, arena, w, &parts)?;
    let parts = from_zero(alloc, arena, w, parts)?;
    of_parts(alloc, arena, Kind::Seq, w, parts)
}

/// The trees, each where it stands for the first time. Places of one tree are one.
fn first_ones(
    alloc: Global,
    arena: &Arena,
    w: Width,
    ids: &[ExprId],
) -> Result<Vec<ExprId>, AllocError>
    requires { AreTreesOfAt arena.now w.bits ids.now }
    ensures { IfOk result (λ found. AreAt arena.now w.bits found.items
        (forms.first_ones [] (trees_at arena.now ids.now))) }
{
    let _ = (arena.len(), w);
    let mut found = Vec::new(alloc);
    for id in ids {
        if !found.contains(id) {
            found.push(*id)?;
        }
    }
    Ok(found)
}

/// The trees with neighbouring numbers joined to the least.
fn neighbours_joined(
    alloc: Global,
    arena: &mut Arena,
    w: Width,
    ids: &[ExprId],
) -> Result<Vec<ExprId>, AllocError>
    requires { AreTreesOfAt arena.old w.bits ids.now }
    ensures grows { GoesOn arena.old arena.new }
    ensures parts { IfOk result (λ found. AreAt arena.new w.bits found.items
        (forms.neighbours_joined w.bits (trees_at arena.old ids.now))) }
{
    // They are looked at from the last one on, and so stand in the list from the last to the first.
    let mut found = Vec::new(alloc);
    for i in (0..ids.len()).rev() {
        put_before(alloc, arena, w, ids[i], &mut found)?;
    }
    found.reverse();
    Ok(found)
}

/// Puts a tree before others, which stand in the list from the last to the first. A number before a number becomes the
/// least of both.
fn put_before(
    alloc: Global,
    arena: &mut Arena,
    w: Width,
    id: ExprId,
    found: &mut Vec<ExprId>,
) -> Result<(), AllocError>
    requires tree { IsTreeOfAt arena.old w.bits id }
    requires trees { AreTreesOfAt arena.old w.bits found.old.items }
    ensures grows { GoesOn arena.old arena.new }
    ensures trees { IfOk result (λ _. AreTreesOfAt arena.new w.bits found.new.items) }
    ensures parts { IfOk result (λ _. reversed (trees_at arena.new found.new.items)
        ≡ forms.tree_before w.bits (tree_of arena.old id) (atoms.number_of (tree_of arena.old id))
        (reversed (trees_at arena.old found.old.items))) }
{
    let _ = arena.len();
    let mut before = id;
    if let Some(m) = last_number(arena, w, found) {
        if let Some(n) = number_of(arena, id) {
            before = constant(alloc, arena, w, n.min(m))?;
            found.pop();
        }
    }
    push(found, before)
}

/// The number that the last of some trees is, if it is one.
fn last_number(arena: &Arena, w: Width, ids: &[ExprId]) -> Option<u64>
    requires { AreTreesOfAt arena.now w.bits ids.now }
    ensures { result ≡ first_number (reversed (trees_at arena.now ids.now)) }
{
    let _ = w;
    number_of(arena, *ids.last()?)
}

/// The parts, from a first one that is 0 on it alone.
fn from_zero(
    alloc: Global,
    arena: &Arena,
    w: Width,
    parts: Vec<ExprId>,
) -> Result<Vec<ExprId>, AllocError>
    requires { AreTreesOfAt arena.now w.bits parts.items }
    ensures { IfOk result (λ found. AreAt arena.now w.bits found.items
        (forms.from_zero (trees_at arena.now parts.items))) }
{
    let _ = (arena.len(), w);
    match parts.as_slice() {
        [first, ..] if number_of(arena, *first) == Some(0) => Ok(Vec::from_slice(
            alloc,
            &[*first],
        )?),
        _ => Ok(parts),
    }
}
