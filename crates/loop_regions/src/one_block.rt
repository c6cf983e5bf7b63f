//! Loops of one block.

ghost use Rattle.std.specs.Prelude.{IfOk};
ghost use Rattle.ir_meaning.specs.Thin.{IsThinFunction};
ghost use Rattle.loop_regions.specs.OneBlock.{AreLoops};

use crate::lone::lone_nodes;
use crate::table::LoopTable;
use crate::text_order::in_text_order;
use flow_graph::arcs;
use ir_model::Function;
use std::alloc::{AllocError, Global};

/// The loops of one block: exactly the reachable blocks with an edge to themselves and with no other walk
/// back to themselves, in text order.
pub fn loops(alloc: Global, f: &Function) -> Result<LoopTable, AllocError>
    requires thin { IsThinFunction f.now }
    ensures exact { IfOk result (λ table. AreLoops f.now table) }
{
    let blocks = f.blocks.as_slice();
    let graph = arcs(alloc, f)?;
    let lone = lone_nodes(alloc, graph.as_slice(), blocks[0].id.0 as usize)?;
    let headers = in_text_order(alloc, f, lone)?;
    LoopTable::of_headers(alloc, headers, f.labels.len())
}
