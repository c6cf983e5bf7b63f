//! The terms of trees, copied out of the arena, so that the arena can go on while they are read.

ghost use Rattle.std.specs.Prelude.{◌≡◌, IfOk};
ghost use Rattle.scev_tree.specs.Tree as tree;
ghost use Rattle.scev_arena.specs.Meaning.{meanings, terms_at, tree_of};
ghost use Rattle.scev_arena.specs.Standing.{IsTreeAt, AreOverAtoms};
ghost use Rattle.scev_walk.specs.Reading.{AreOverBelow};

use poly_terms::Term;
use scev_arena::Arena;
use scev_base::{ExprId, Width};
use scev_walk::tree_at;
use sqlite_items::Items;
use std::alloc::{AllocError, Global};

/// The width of a tree and its terms, in a list of their own.
pub fn copied_terms(
    alloc: Global,
    arena: &Arena,
    id: ExprId,
) -> Result<(Width, Items<Term>), AllocError>
    requires { IsTreeAt arena.now id }
    ensures tree { IfOk result (λ both.
        tree_of arena.now id ≡ tree.polynomial both.0.bits (terms_at (meanings arena.now) both.1)) }
    ensures over { IfOk result (λ both. AreOverAtoms arena.now both.0.bits both.1) }
    ensures below { IfOk result (λ both. AreOverBelow id.0 both.1) }
{
    let (w, terms) = tree_at(arena, id);
    let mut copies = Vec::with_capacity(alloc, terms.len())?;
    for term in terms {
        copies.push(term.copy(alloc)?)?;
    }
    Ok((w, Items::from_vec(copies)))
}
