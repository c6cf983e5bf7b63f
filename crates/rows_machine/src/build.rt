//! Functions without parameters, over `i32`, from rows. Blocks and registers are named by their numbers.

use self::Line::{Add, Branch, Jump, Phi, Ret};
use ir_model::{
    BinOp, Block, Function, Instr, IrType, Op, Operand, PhiEntry, TypedOperand, ValueInfo,
};
use scev_base::{BlockId, ValueId};
use sqlite_items::Items;
use std::alloc::{AllocError, Global};

/// An instruction of a row.
#[derive(Clone, Copy)]
pub enum Line {
    /// `%v = phi i32 ..`, by v, and the operand and the block of each entry
    Phi(u64, &'static [(Operand, u64)]),
    /// `%v = add i32 left, right`, by v, whether with `nsw`, left and right
    Add(u64, bool, Operand, Operand),
    /// `br label %to`
    Jump(u64),
    /// `br i1 cond, label %yes, label %no`
    Branch(Operand, u64, u64),
    /// `ret i32 value`
    Ret(Operand),
}

const WORD: IrType = IrType::Int(32);

/// The function of these blocks, in text order, with four registers and as many labels as blocks.
pub fn function(alloc: Global, rows: &[(u64, &[Line])]) -> Result<Function, AllocError> {
    let mut blocks = Items::new(alloc);
    let mut labels = Items::new(alloc);
    for (id, lines) in rows {
        blocks.push(block(alloc, *id, lines)?)?;
        labels.push(None)?;
    }
    let mut values = Items::new(alloc);
    for _ in 0..4u8 {
        values.push(ValueInfo {
            name: None,
            kind: WORD,
        })?;
    }
    Ok(Function {
        name: Items::new(alloc),
        words: Items::new(alloc),
        ret: WORD,
        params: Items::new(alloc),
        blocks,
        values,
        labels,
    })
}

fn block(alloc: Global, id: u64, lines: &[Line]) -> Result<Block, AllocError> {
    let mut instrs = Items::new(alloc);
    for line in lines {
        let op = op_of(alloc, *line)?;
        instrs.push(Instr {
            result: result_of(*line),
            op,
            words: Items::new(alloc),
        })?;
    }
    Ok(Block {
        id: BlockId(id),
        instrs,
    })
}

fn result_of(line: Line) -> Option<ValueId> {
    match line {
        Phi(v, _) | Add(v, _, _, _) => Some(ValueId(v)),
        Jump(_) | Branch(_, _, _) | Ret(_) => None,
    }
}

fn op_of(alloc: Global, line: Line) -> Result<Op, AllocError> {
    Ok(match line {
        Phi(_, rows) => Op::Phi {
            kind: WORD,
            entries: entries(alloc, rows)?,
        },
        Add(_, nsw, left, right) => Op::Binary {
            op: BinOp::Add,
            nuw: false,
            nsw,
            exact: false,
            disjoint: false,
            kind: WORD,
            left,
            right,
        },
        Jump(to) => Op::Jump { to: BlockId(to) },
        Branch(cond, yes, no) => Op::Branch {
            cond,
            yes: BlockId(yes),
            no: BlockId(no),
        },
        Ret(value) => Op::Ret {
            value: Some(TypedOperand { kind: WORD, value }),
        },
    })
}

fn entries(alloc: Global, rows: &[(Operand, u64)]) -> Result<Items<PhiEntry>, AllocError> {
    let mut entries = Items::new(alloc);
    for (value, from) in rows {
        entries.push(PhiEntry {
            value: *value,
            from: BlockId(*from),
        })?;
    }
    Ok(entries)
}
