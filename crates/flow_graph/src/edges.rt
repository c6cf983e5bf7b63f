//! The edges of a function, to blocks and from blocks.

ghost use Rattle.std.specs.Prelude.{◌≡◌, [], map, slice_index_or, IfOk};
ghost use Rattle.ir_model.specs.declared.function.Function.{Function as AnyFunction};
ghost use Rattle.ir_model.specs.WellMade.{HasIds};
ghost use Rattle.flow_graph.specs.Graph.{IsGraphOf};
ghost use Rattle.flow_graph.specs.EdgeLists.{block_id, succs_of, preds_of, AreEdgesOf};

use crate::graph::arcs;
use crate::sources::sources;
use ir_model::Function;
use scev_base::BlockId;
use sqlite_items::Items;
use std::alloc::{AllocError, Global};
use std::marker::Model;

/// The edges of a function: for each block where it leads, and what leads to it.
#[derive(Drop)]
pub struct Edges {
    succs: Items<Items<BlockId>>,
    preds: Items<Items<BlockId>>,
}

impl Model for Edges {
    ghost use Rattle.flow_graph.specs.EdgeLists.{EdgeLists};

    ghost Value = { EdgeLists };

    ghost view = { λ edges. record { succs = edges.succs; preds = edges.preds } };
}

impl Edges {
    /// The edges of a function, in time linear in its instructions, cases and labels. The error comes only
    /// where there is no memory for the lists.
    pub fn new(alloc: Global, f: &Function) -> Result<Edges, AllocError>
        requires ids { HasIds f.now }
        ensures exact { IfOk result (λ edges. AreEdgesOf f.now edges) }
    {
        let graph = arcs(alloc, f)?;
        Edges::of_graph(alloc, f, graph.as_slice())
    }

    /// The edges of a function with this graph.
    pub(crate) fn of_graph(
        alloc: Global,
        f: &Function,
        graph: &[Items<usize>],
    ) -> Result<Edges, AllocError>
        requires ids { HasIds f.now }
        requires graph { IsGraphOf f.now graph.now }
        ensures exact { IfOk result (λ edges. AreEdgesOf f.now edges) }
    {
        let succs = named_rows(alloc, graph)?;
        let preds = sources(alloc, f)?;
        Ok(Edges {
            succs: Items::from_vec(succs),
            preds: Items::from_vec(preds),
        })
    }

    /// The blocks to which a block leads, in the order of its instructions, each as often as they name it.
    /// There are none for a number that is no block's. Constant time; no memory.
    pub fn succs(&self, b: BlockId) -> &[BlockId]
        ensures { (f : AnyFunction) → AreEdgesOf f self.now → result.now ≡ succs_of f b.0 }
    {
        row_at(self.succs.as_slice(), b)
    }

    /// The blocks that lead to a block, in text order, each once for every edge. Constant time; no memory.
    pub fn preds(&self, b: BlockId) -> &[BlockId]
        ensures { (f : AnyFunction) → AreEdgesOf f self.now → result.now ≡ preds_of f b.0 }
    {
        row_at(self.preds.as_slice(), b)
    }
}

/// The row of a block, empty past the end.
fn row_at(rows: &[Items<BlockId>], b: BlockId) -> &[BlockId]
    ensures { result.now ≡ slice_index_or rows.now b.0 [] }
{
    let at = b.0 as usize;
    if at < rows.len() {
        rows[at].as_slice()
    } else {
        &[]
    }
}

/// Rows of numbers as rows of blocks.
fn named_rows(alloc: Global, rows: &[Items<usize>]) -> Result<Vec<Items<BlockId>>, AllocError>
    ensures { IfOk result (λ named. named.items ≡ map (map block_id) rows.now) }
{
    let mut named = Vec::new(alloc);
    for row in rows {
        named.push(named_blocks(alloc, row.as_slice())?)?;
    }
    Ok(named)
}

/// Numbers as blocks.
fn named_blocks(alloc: Global, numbers: &[usize]) -> Result<Items<BlockId>, AllocError>
    ensures { IfOk result (λ named. named ≡ map block_id numbers.now) }
{
    let mut named = Items::new(alloc);
    for number in numbers {
        named.push(BlockId(*number as u64))?;
    }
    Ok(named)
}
