//! The edges of a function, each the other way round.

ghost use Rattle.std.specs.Prelude.{◌<◌, ◌↔◌, ℕ, Contains, length, IfOk};
ghost use Rattle.ir_model.specs.Walks.{Reachable};
ghost use Rattle.natural_loops.specs.Backward.{IsBackward};

use flow_graph::{arcs, reversed};
use scev_base::BlockId;
use sqlite_items::Items;
use ssa_check::Checked;
use std::alloc::{AllocError, Global};

/// The edges from reachable blocks, each the other way round.
pub(crate) fn backward(alloc: Global, c: &Checked) -> Result<Vec<Items<usize>>, AllocError>
    ensures { IfOk result (λ graph. IsBackward c.now.function graph.items) }
{
    let graph = arcs(alloc, c.function())?;
    let nodes = reachable_numbers(alloc, c)?;
    reversed(alloc, graph.as_slice(), nodes.as_slice())
}

/// The numbers of the reachable blocks among the labels.
fn reachable_numbers(alloc: Global, c: &Checked) -> Result<Vec<usize>, AllocError>
    ensures { IfOk result (λ nodes. (b : ℕ)
        → Contains nodes.items b ↔ ((b < length c.now.function.labels) × Reachable c.now.function b)) }
{
    let flow = c.flow();
    let mut nodes = Vec::new(alloc);
    for b in 0..c.function().labels.len() {
        if flow.reachable(BlockId(b as u64)) {
            nodes.push(b)?;
        }
    }
    Ok(nodes)
}
