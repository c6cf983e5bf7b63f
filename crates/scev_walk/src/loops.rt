//! Loops of a nest, and of recurrences.

ghost use Rattle.std.specs.Prelude.{◌≡◌, ℕ, ◌<◌, length, option_map};
ghost use Rattle.scev_arena.specs.Meaning.{meanings, atom_of, factors_at, terms_at};
ghost use Rattle.scev_arena.specs.Standing.{AreAtoms, AreOverAtoms};
ghost use Rattle.scev_forms.specs.Gather as forms;
ghost use Rattle.scev_walk.specs.Reading.{loop_of_kind, loop_of_atom, deepest_with, deepest_before};

use poly_terms::Term;
use scev_arena::{Arena, Node};
use scev_base::{ExprId, LoopId, LoopNest};
use scev_tree::Kind;

/// Whether the inner loop stands in the outer one, or is the same. A loop that isn't in the nest contains itself alone.
pub fn stands_in(nest: &LoopNest, outer: LoopId, inner: LoopId) -> bool
    ensures { result ≡ forms.stands_in nest.now outer.0 inner.0 }
{
    let count = nest.loop_count();
    if inner.0 < count && outer.0 < count {
        nest.contains(outer, inner)
    } else {
        inner.0 == outer.0
    }
}

/// How many loops contain a loop, itself included. One that isn't in the nest is in no other.
fn depth_of(nest: &LoopNest, l: LoopId) -> u64
    ensures { result ≡ forms.depth_of nest.now l.0 }
{
    if l.0 < nest.loop_count() {
        nest.depth(l)
    } else {
        1
    }
}

/// The deeper one of two loops, and of two of one depth that of the lower number.
fn deeper(nest: &LoopNest, l: LoopId, k: LoopId) -> LoopId
    ensures { result.0 ≡ forms.deeper nest.now l.0 k.0 }
{
    let depth = depth_of(nest, l);
    let other_depth = depth_of(nest, k);
    if other_depth < depth {
        l
    } else if depth < other_depth {
        k
    } else if k.0 < l.0 {
        k
    } else {
        l
    }
}

/// The deeper one of two loops, of which there may be none.
fn deeper_one(nest: &LoopNest, l: Option<LoopId>, behind: Option<LoopId>) -> Option<LoopId>
    ensures { option_map (λ l. l.0) result
        ≡ deepest_with nest.now (option_map (λ l. l.0) l) (option_map (λ l. l.0) behind) }
{
    match (l, behind) {
        (None, _) => behind,
        (Some(l), None) => Some(l),
        (Some(l), Some(k)) => Some(deeper(nest, l, k)),
    }
}

/// The loop of a recurrence. None for a kind of another sort.
fn loop_of_kind(kind: Kind) -> Option<LoopId>
    ensures { option_map (λ l. l.0) result ≡ loop_of_kind kind }
{
    match kind {
        Kind::Rec(l) => Some(l),
        _ => None,
    }
}

/// The loop of a recurrence. None for an atom of another sort.
fn loop_of_atom(arena: &Arena, id: ExprId) -> Option<LoopId>
    requires { id.0 < length arena.now }
    ensures { option_map (λ l. l.0) result ≡ loop_of_atom (atom_of arena.now id) }
{
    match arena.node(id) {
        Node::Atom { kind, .. } => loop_of_kind(*kind),
        Node::Tree { .. } => None,
    }
}

/// The deepest of the loops of the factors and of one more, which there may be.
fn deepest_factor(
    arena: &Arena,
    nest: &LoopNest,
    ids: &[ExprId],
    behind: Option<LoopId>,
) -> Option<LoopId>
    requires { (w : ℕ) × AreAtoms arena.now w ids.now }
    ensures { option_map (λ l. l.0) result ≡ deepest_before nest.now
        (forms.loops_of_factors (factors_at (meanings arena.now) ids.now)) (option_map (λ l. l.0) behind) }
{
    let mut found = behind;
    for i in (0..ids.len()).rev() {
        found = deeper_one(nest, loop_of_atom(arena, ids[i]), found);
    }
    found
}

/// The deepest loop whose recurrence is a factor of the terms, and of several the one with the least number. None where
/// no recurrence is a factor.
pub fn deepest(arena: &Arena, nest: &LoopNest, terms: &[Term]) -> Option<LoopId>
    requires { (w : ℕ) × AreOverAtoms arena.now w terms.now }
    ensures { option_map (λ l. l.0) result
        ≡ forms.deepest nest.now (forms.loops_of_terms (terms_at (meanings arena.now) terms.now)) }
{
    let mut found = None;
    for i in (0..terms.len()).rev() {
        found = deepest_factor(arena, nest, terms[i].ids.as_slice(), found);
    }
    found
}
