//! The parts of minima, flattened.

ghost use Rattle.std.specs.Prelude.{◌≡◌, IfOk};
ghost use Rattle.scev_arena.specs.Meaning.{tree_of};
ghost use Rattle.scev_forms.specs.Minima as forms;
ghost use Rattle.scev_sums.specs.Answers.{IsTreeOfAt, AreTreesOfAt, trees_at};
ghost use Rattle.scev_minima.specs.Kinds.{IsFlattened};

use scev_arena::Arena;
use scev_base::{ExprId, Width};
use scev_tree::Kind;
use scev_walk::{alone, atom_at};
use std::alloc::{AllocError, Global};

/// The parts of an atom of the kind that a tree is alone, and else the tree.
pub(crate) fn flattened(
    alloc: Global,
    arena: &Arena,
    kind: Kind,
    w: Width,
    id: ExprId,
) -> Result<Vec<ExprId>, AllocError>
    requires kind { IsFlattened kind }
    requires tree { IsTreeOfAt arena.now w.bits id }
    ensures parts { IfOk result (λ ids. trees_at arena.now ids.items ≡ forms.flattened kind (tree_of arena.now id)) }
    ensures trees { IfOk result (λ ids. AreTreesOfAt arena.now w.bits ids.items) }
{
    let _ = w;
    if let Some(atom) = alone(arena, id) {
        let (inner, _, parts) = atom_at(arena, atom);
        if inner == kind {
            return Ok(Vec::from_slice(alloc, parts)?);
        }
    }
    Ok(Vec::from_slice(alloc, &[id])?)
}
