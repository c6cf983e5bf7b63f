//! Atoms, formed anew of parts.

ghost use Rattle.std.specs.Prelude.{◌≡◌, map};
ghost use Rattle.scev_tree.specs.Tree as tree;
ghost use Rattle.scev_tree.specs.Canonical.{HasParts};
ghost use Rattle.scev_arena.specs.Meaning.{tree_of};
ghost use Rattle.scev_arena.specs.Standing.{AreTrees};
ghost use Rattle.scev_forms.specs.Turns as forms;
ghost use Rattle.scev_sums.specs.Answers.{GoesOn, IsAt, trees_at, Tells};

use crate::folded::{minimum_of_all, sequence_of_all};
use scev_arena::Arena;
use scev_base::{ExprId, LoopNest, Width};
use scev_casts::{make_sext, make_trunc, make_zext};
use scev_minima::{MinKind, make_udiv};
use scev_sums::{FoldError, make_rec, tree_of_atom};
use scev_tree::Kind;
use sqlite_items::Items;
use std::alloc::Global;

/// The expression of an atom of the kind, formed of these parts.
pub(crate) fn reformed(
    alloc: Global,
    arena: &mut Arena,
    nest: &LoopNest,
    w: Width,
    kind: Kind,
    parts: Items<ExprId>,
) -> Result<ExprId, FoldError>
    requires trees { AreTrees arena.old parts }
    requires kind { HasParts kind w.bits (tree.parts_of (map (tree_of arena.old) parts)) }
    ensures grows { GoesOn arena.old arena.new }
    ensures tree { Tells (IsAt arena.new w.bits)
        (forms.reformed nest.now w.bits kind (trees_at arena.old parts)) result }
{
    let ids = parts.as_slice();
    match kind {
        Kind::Trunc => make_trunc(alloc, arena, nest, ids[0], w),
        Kind::Zext => make_zext(alloc, arena, nest, ids[0], w, false),
        Kind::Sext => make_sext(alloc, arena, nest, ids[0], w, false),
        Kind::Udiv => make_udiv(alloc, arena, nest, ids[0], ids[1]),
        Kind::Smax => minimum_of_all(alloc, arena, nest, MinKind::Smax, w, ids[0], &ids[1..]),
        Kind::Umax => minimum_of_all(alloc, arena, nest, MinKind::Umax, w, ids[0], &ids[1..]),
        Kind::Smin => minimum_of_all(alloc, arena, nest, MinKind::Smin, w, ids[0], &ids[1..]),
        Kind::Umin => minimum_of_all(alloc, arena, nest, MinKind::Umin, w, ids[0], &ids[1..]),
        Kind::Seq => sequence_of_all(alloc, arena, nest, w, ids[0], &ids[1..]),
        Kind::Rec(l) => make_rec(alloc, arena, w, l, ids),
        Kind::Leaf(..) => Ok(tree_of_atom(alloc, arena, kind, w, parts)?),
    }
}
