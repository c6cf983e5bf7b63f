//! The blocks that lead to each block.

ghost use Rattle.std.specs.Prelude.{◌≡◌, ◌<◌, ◌++◌, ℕ, [], All, length, slice_index_or, IfOk, OnOk};
ghost use Rattle.ir_model.specs.WellMade.{HasIds};
ghost use Rattle.flow_graph.specs.EdgeLists.{preds_of, sources_in};

use crate::graph::{block_targets, no_rows};
use ir_model::Function;
use scev_base::BlockId;
use sqlite_items::Items;
use std::alloc::{AllocError, Global};

/// For each number of a block the blocks that lead to it, in text order, each once for every edge.
pub(crate) fn sources(alloc: Global, f: &Function) -> Result<Vec<Items<BlockId>>, AllocError>
    requires { HasIds f.now }
    ensures { IfOk result (λ rows. (b : ℕ) → slice_index_or rows.items b [] ≡ preds_of f.now b) }
{
    let mut rows = no_rows(alloc, f.labels.len())?;
    for block in f.blocks.as_slice() {
        let targets = block_targets(alloc, block.instrs.as_slice())?;
        add_source(targets.as_slice(), block.id, &mut rows)?;
    }
    Ok(rows)
}

/// Adds a block to the row of each of its targets.
fn add_source(
    targets: &[usize],
    from: BlockId,
    rows: &mut Vec<Items<BlockId>>,
) -> Result<(), AllocError>
    requires { All (λ k. k < length rows.old.items) targets.now }
    ensures size { OnOk result (length rows.new.items ≡ length rows.old.items) }
    ensures rows { OnOk result ((b : ℕ) → slice_index_or rows.new.items b []
        ≡ slice_index_or rows.old.items b [] ++ sources_in from targets.now b) }
{
    for to in targets {
        let row = &mut rows[*to];
        row.push(from)?;
    }
    Ok(())
}
