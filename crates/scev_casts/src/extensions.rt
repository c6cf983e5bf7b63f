//! Extensions of expressions, without sign and with it.

ghost use Rattle.std.specs.Prelude.{◌≡◌, ◌<◌, ◌≤◌, ◌^◌, [], ◌∷◌, map, IfOk, IfSome, option_map, IsTrue};
ghost use Rattle.scev_tree.specs.Tree as tree;
ghost use Rattle.scev_tree.specs.declared.kind.Kind.TheVariants as kind;
ghost use Rattle.scev_arena.specs.Meaning.{tree_of};
ghost use Rattle.scev_arena.specs.Standing.{IsTreeAt};
ghost use Rattle.scev_forms.specs.Atoms as atoms;
ghost use Rattle.scev_forms.specs.Casts as forms;
ghost use Rattle.scev_sums.specs.Answers.{GoesOn, IsAt, IsTreeOfAt, Tells};
ghost use Rattle.scev_casts.specs.Extensions.{HasExtension, kind_of, joined_kind, affine_parts};

use scev_arena::Arena;
use scev_base::{ExprId, LoopId, LoopNest, Width, sext};
use scev_sums::{FoldError, constant, made, make_rec};
use scev_tree::Kind;
use scev_walk::{alone, atom_at, number_of, width};
use sqlite_items::Items;
use std::alloc::Global;

/// How a number is made wider.
#[derive(Clone, Copy, Debug, PartialEq, Eq)]
pub(crate) enum Extension {
    /// By zeros.
    Zero,
    /// By its sign bit.
    Sign,
}

impl Extension {
    /// The kind of its atoms.
    fn kind(self) -> Kind
        ensures { result ≡ kind_of self }
    {
        match self {
            Extension::Zero => Kind::Zext,
            Extension::Sign => Kind::Sext,
        }
    }
}

/// The expression, read as unsigned, at a width that isn't below its own. Of the same width it is itself. With
/// `no_wrap`, which says that start + turn · step is below 2^v, v the width of the expression, at the turns that are
/// asked for, an affine recurrence becomes the recurrence of its extended parts. `TooWide`, `TooHigh` and `TooDeep`
/// come exactly where the first tree that is above a limit is, on the way or in the end, and `OutOfMemory` only where
/// no memory is found. The arena only goes on, also where an error comes.
pub fn make_zext(
    alloc: Global,
    arena: &mut Arena,
    nest: &LoopNest,
    id: ExprId,
    to: Width,
    no_wrap: bool,
) -> Result<ExprId, FoldError>
    requires tree { IsTreeAt arena.old id }
    requires width { tree.width_of (tree_of arena.old id) ≤ to.bits }
    ensures grows { GoesOn arena.old arena.new }
    ensures tree { Tells (IsAt arena.new to.bits)
        (forms.extended_when kind.Zext to.bits no_wrap (tree_of arena.old id)) result }
    ensures value { IfOk result (HasExtension arena.old arena.new kind.Zext to.bits no_wrap id) }
{
    let _ = nest;
    // With a width it is told that the arena's trees are canonical.
    let _ = width(arena, id);
    extended_when(alloc, arena, Extension::Zero, to, no_wrap, id)
}

/// The expression, read as signed, at a width that isn't below its own. Of the same width it is itself. With
/// `no_wrap`, which says that start + turn · step, read as signed, is from -2^(v-1) to 2^(v-1) - 1, v the width of
/// the expression, at the turns that are asked for, an affine recurrence becomes the recurrence of its extended
/// parts. The errors come as those of `make_zext`. The arena only goes on.
pub fn make_sext(
    alloc: Global,
    arena: &mut Arena,
    nest: &LoopNest,
    id: ExprId,
    to: Width,
    no_wrap: bool,
) -> Result<ExprId, FoldError>
    requires tree { IsTreeAt arena.old id }
    requires width { tree.width_of (tree_of arena.old id) ≤ to.bits }
    ensures grows { GoesOn arena.old arena.new }
    ensures tree { Tells (IsAt arena.new to.bits)
        (forms.extended_when kind.Sext to.bits no_wrap (tree_of arena.old id)) result }
    ensures value { IfOk result (HasExtension arena.old arena.new kind.Sext to.bits no_wrap id) }
{
    let _ = nest;
    // With a width it is told that the arena's trees are canonical.
    let _ = width(arena, id);
    extended_when(alloc, arena, Extension::Sign, to, no_wrap, id)
}

/// The extension of a tree, of which it may be known that an affine recurrence doesn't wrap.
fn extended_when(
    alloc: Global,
    arena: &mut Arena,
    how: Extension,
    w: Width,
    no_wrap: bool,
    id: ExprId,
) -> Result<ExprId, FoldError>
    requires tree { IsTreeAt arena.old id }
    requires width { tree.width_of (tree_of arena.old id) ≤ w.bits }
    ensures grows { GoesOn arena.old arena.new }
    ensures tree { Tells (IsAt arena.new w.bits)
        (forms.extended_when (kind_of how) w.bits no_wrap (tree_of arena.old id)) result }
{
    if no_wrap && width(arena, id) != w {
        if let Some((l, first, step)) = affine(arena, id) {
            let start = extended(alloc, arena, how, w, first)?;
            let more = extended(alloc, arena, how, w, step)?;
            return make_rec(alloc, arena, w, l, &[start, more]);
        }
    }
    extended(alloc, arena, how, w, id)
}

/// The loop and both parts of an affine recurrence that a tree is alone.
fn affine(arena: &Arena, id: ExprId) -> Option<(LoopId, ExprId, ExprId)>
    requires { IsTreeAt arena.now id }
    ensures parts { option_map (λ rec. (rec.0, tree_of arena.now rec.1, tree_of arena.now rec.2)) result
        ≡ affine_parts (atoms.alone (tree_of arena.now id)) }
    ensures trees { let w = tree.width_of (tree_of arena.now id) in
        IfSome result (λ rec. IsTreeOfAt arena.now w rec.1 × IsTreeOfAt arena.now w rec.2) }
{
    let (kind, _, parts) = atom_at(arena, alone(arena, id)?);
    match (kind, parts) {
        (Kind::Rec(l), [first, step]) => Some((l, *first, *step)),
        _ => None,
    }
}

/// The extension of a tree: a number is extended, and the same width is the tree itself.
fn extended(
    alloc: Global,
    arena: &mut Arena,
    how: Extension,
    w: Width,
    id: ExprId,
) -> Result<ExprId, FoldError>
    requires tree { IsTreeAt arena.old id }
    requires width { tree.width_of (tree_of arena.old id) ≤ w.bits }
    ensures grows { GoesOn arena.old arena.new }
    ensures tree { Tells (IsAt arena.new w.bits)
        (forms.extended (kind_of how) w.bits (tree_of arena.old id)) result }
{
    let from = width(arena, id);
    if from == w {
        return Ok(id);
    }
    match number_of(arena, id) {
        Some(n) => Ok(constant(alloc, arena, w, how_extended(how, n, from, w))?),
        None => extended_atom(alloc, arena, how, w, id),
    }
}

/// A number at a greater width.
fn how_extended(how: Extension, n: u64, from: Width, w: Width) -> u64
    requires fits { n < 2 ^ from.bits }
    requires width { from.bits ≤ w.bits }
    ensures { result ≡ forms.extended_number (kind_of how) from.bits w.bits n }
{
    match how {
        Extension::Zero => n,
        Extension::Sign => sext(n, from, w),
    }
}

/// The kind of an extension of an atom of a kind, where both are one extension.
fn joined_kind(how: Extension, inner: Kind) -> Option<Kind>
    ensures { result ≡ joined_kind how inner }
{
    match (how, inner) {
        (_, Kind::Zext) => Some(Kind::Zext),
        (Extension::Sign, Kind::Sext) => Some(Kind::Sext),
        _ => None,
    }
}

/// The extension of a tree that is no number: of an extended one it may be one extension, and else it is an atom.
fn extended_atom(
    alloc: Global,
    arena: &mut Arena,
    how: Extension,
    w: Width,
    id: ExprId,
) -> Result<ExprId, FoldError>
    requires tree { IsTreeAt arena.old id }
    requires width { tree.width_of (tree_of arena.old id) < w.bits }
    ensures grows { GoesOn arena.old arena.new }
    ensures tree { Tells (IsAt arena.new w.bits) (forms.extended_atom (kind_of how) w.bits
        (tree_of arena.old id) (atoms.alone (tree_of arena.old id))) result }
{
    if let Some(atom) = alone(arena, id) {
        let (inner, _, parts) = atom_at(arena, atom);
        if let Some(kind) = joined_kind(how, inner) {
            let parts = Items::from_slice(alloc, parts)?;
            return made(alloc, arena, kind, w, parts);
        }
    }
    made(
        alloc,
        arena,
        how.kind(),
        w,
        Items::from_slice(alloc, &[id])?,
    )
}
