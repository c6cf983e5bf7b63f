//! The blocks of a function as a graph.

ghost use Rattle.std.specs.Prelude.{◌≡◌, ◌++◌, [], map, replicate, IfOk, OnOk};
ghost use Rattle.ir_model.specs.Shapes.{targets};
ghost use Rattle.ir_model.specs.Walks.{successors};
ghost use Rattle.ir_model.specs.WellMade.{HasIds};
ghost use Rattle.flow_graph.specs.Graph.{IsGraphOf};

use ir_model::{Case, Function, Instr, Op};
use sqlite_items::Items;
use std::alloc::{AllocError, Global};

/// The graph of a function's edges, by the numbers of its blocks. Where more blocks have a number, the first
/// one counts. It takes time linear in the instructions, their cases and the labels. The error comes only
/// where there is no memory for the lists.
pub fn arcs(alloc: Global, f: &Function) -> Result<Items<Items<usize>>, AllocError>
    requires { HasIds f.now }
    ensures { IfOk result (λ graph. IsGraphOf f.now graph) }
{
    let blocks = f.blocks.as_slice();
    let mut graph = Items::from_vec(no_rows(alloc, f.labels.len())?);
    for i in (0..blocks.len()).rev() {
        let block = &blocks[i];
        let targets = block_targets(alloc, block.instrs.as_slice())?;
        graph.set(block.id.0 as usize, targets);
    }
    Ok(graph)
}

/// So many rows, each of them empty. The error comes only where there is no memory for them.
pub fn no_rows<T: Drop>(alloc: Global, count: usize) -> Result<Vec<Items<T>>, AllocError>
    ensures { IfOk result (λ rows. rows.items ≡ replicate count []) }
{
    let mut rows = Vec::new(alloc);
    for _i in 0..count {
        rows.push(Items::new(alloc))?;
    }
    Ok(rows)
}

/// The blocks to which the instructions of a block may lead.
pub(crate) fn block_targets(alloc: Global, instrs: &[Instr]) -> Result<Items<usize>, AllocError>
    ensures { IfOk result (λ out. out ≡ successors instrs.now) }
{
    let mut out = Items::new(alloc);
    for instr in instrs {
        push_targets(&instr.op, &mut out)?;
    }
    Ok(out)
}

/// Adds the blocks to which an instruction may lead.
fn push_targets(op: &Op, out: &mut Items<usize>) -> Result<(), AllocError>
    ensures { OnOk result (out.new ≡ out.old ++ targets op.now) }
{
    match op {
        Op::Jump { to } => out.push(to.0 as usize),
        Op::Branch { yes, no, .. } => {
            out.push(yes.0 as usize)?;
            out.push(no.0 as usize)
        }
        Op::Switch { other, cases, .. } => {
            out.push(other.0 as usize)?;
            push_cases(cases.as_slice(), out)
        }
        _ => Ok(()),
    }
}

/// Adds the blocks to which the cases of a switch lead.
fn push_cases(cases: &[Case], out: &mut Items<usize>) -> Result<(), AllocError>
    ensures { OnOk result (out.new ≡ out.old ++ map (λ one. one.to.0) cases.now) }
{
    for case in cases {
        out.push(case.to.0 as usize)?;
    }
    Ok(())
}
