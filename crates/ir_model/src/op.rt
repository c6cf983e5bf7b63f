//! Instructions without their results, and operands.

ghost use Rattle.std.specs.Prelude.{◌≡◌};
ghost use Rattle.ir_model.specs.Shapes.{is_phi, is_terminator};

use crate::types::{IrType, Text};
use scev_base::{BlockId, Pred, ValueId};
use sqlite_items::Items;

/// An operand. Its type stands beside it in the instruction.
#[derive(Clone, Copy, Debug, PartialEq, Eq)]
pub enum Operand {
    /// A register of the function.
    Reg(ValueId),
    /// A numeral, as it is written; it stands for its residue modulo 2^w. `true` is 1, `false` is 0.
    Num(i128),
    /// `null`.
    Null,
    /// The address of a global: its position in the module's table of globals.
    Global(u64),
    /// `undef`.
    Undef,
    /// `poison`.
    Poison,
}

/// The operations of two integer operands (LLVM Language Reference, "Binary Operations" and "Bitwise
/// Binary Operations").
#[derive(Clone, Copy, Debug, PartialEq, Eq)]
pub enum BinOp {
    Add,
    Sub,
    Mul,
    Shl,
    Udiv,
    Sdiv,
    Lshr,
    Ashr,
    Urem,
    Srem,
    And,
    Xor,
    Or,
}

/// The conversions between widths (LLVM Language Reference, "Conversion Operations").
#[derive(Clone, Copy, Debug, PartialEq, Eq)]
pub enum CastOp {
    Zext,
    Sext,
    Trunc,
}

/// An operand with its type.
#[derive(Drop)]
pub struct TypedOperand {
    pub kind: IrType,
    pub value: Operand,
}

/// One entry of a phi: the value that it takes where control comes from the block.
#[derive(Clone, Copy, Debug, PartialEq, Eq)]
pub struct PhiEntry {
    pub value: Operand,
    pub from: BlockId,
}

/// One case of a switch: its type, its number, and the block that it leads to.
#[derive(Drop)]
pub struct Case {
    pub kind: IrType,
    pub number: i128,
    pub to: BlockId,
}

/// What an instruction does (LLVM Language Reference, "Instruction Reference"). A flag that the form of an
/// instruction doesn't have is false.
#[derive(Drop)]
pub enum Op {
    Binary {
        op: BinOp,
        nuw: bool,
        nsw: bool,
        exact: bool,
        disjoint: bool,
        kind: IrType,
        left: Operand,
        right: Operand,
    },
    Icmp {
        pred: Pred,
        kind: IrType,
        left: Operand,
        right: Operand,
    },
    Cast {
        op: CastOp,
        nneg: bool,
        from: IrType,
        value: Operand,
        to: IrType,
    },
    Select {
        cond: Operand,
        yes: TypedOperand,
        no: TypedOperand,
    },
    Phi {
        kind: IrType,
        entries: Items<PhiEntry>,
    },
    Freeze {
        kind: IrType,
        value: Operand,
    },
    Alloca {
        kind: IrType,
    },
    Load {
        kind: IrType,
        from: Operand,
    },
    Store {
        kind: IrType,
        value: Operand,
        to: Operand,
    },
    Gep {
        inbounds: bool,
        kind: IrType,
        base: Operand,
        indices: Items<TypedOperand>,
    },
    Call {
        ret: IrType,
        callee: Text,
        args: Items<TypedOperand>,
    },
    Jump {
        to: BlockId,
    },
    Branch {
        cond: Operand,
        yes: BlockId,
        no: BlockId,
    },
    Switch {
        kind: IrType,
        value: Operand,
        other: BlockId,
        cases: Items<Case>,
    },
    Ret {
        value: Option<TypedOperand>,
    },
    Unreachable,
}

impl Op {
    /// Whether it ends a block (LLVM Language Reference, "Terminator Instructions").
    pub fn is_terminator(&self) -> bool
        ensures { result ≡ is_terminator self.now }
    {
        matches!(
            self,
            Op::Jump { .. }
                | Op::Branch { .. }
                | Op::Switch { .. }
                | Op::Ret { .. }
                | Op::Unreachable
        )
    }

    /// Whether it is a phi.
    pub fn is_phi(&self) -> bool
        ensures { result ≡ is_phi self.now }
    {
        matches!(self, Op::Phi { .. })
    }
}
