//! Functions with a body.

use crate::op::Op;
use crate::types::{IrType, Text};
use scev_base::{BlockId, ValueId};
use sqlite_items::Items;

/// A parameter: its type, its passed-on words, and its register.
#[derive(Drop)]
pub struct Param {
    pub kind: IrType,
    pub words: Text,
    pub value: ValueId,
}

/// What a function's table says of a register: its text name, None where it has a number, and the type of
/// its first definition in text order, `Void` where it has none.
#[derive(Drop)]
pub struct ValueInfo {
    pub name: Option<Text>,
    pub kind: IrType,
}

/// An instruction: the register that gets its result, where it gives one, what it does, and one text for
/// each place of its form where passed-on words may stand, empty where none stood.
#[derive(Drop)]
pub struct Instr {
    pub result: Option<ValueId>,
    pub op: Op,
    pub words: Items<Text>,
}

/// A basic block: its label's number, and its instructions. The last one is its terminator.
#[derive(Drop)]
pub struct Block {
    pub id: BlockId,
    pub instrs: Items<Instr>,
}

/// A function with a body. `words` are two texts: the passed-on words before its type and those after its
/// parameters. `values` is its table of registers, by `ValueId`, and `labels` its table of blocks, by
/// `BlockId`, with the text name of each, None where it has a number. Blocks stand in text order. A name
/// that is used and not defined has an entry too.
#[derive(Drop)]
pub struct Function {
    pub name: Text,
    pub words: Items<Text>,
    pub ret: IrType,
    pub params: Items<Param>,
    pub blocks: Items<Block>,
    pub values: Items<ValueInfo>,
    pub labels: Items<Option<Text>>,
}
