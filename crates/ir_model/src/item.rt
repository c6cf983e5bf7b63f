//! Modules and their items.

use crate::function::Function;
use crate::op::Operand;
use crate::types::{IrType, Text};
use sqlite_items::{Boxed, Items};

/// A module: its items in text order, and the names of its globals: those of its global items in their
/// order, then each other global name that an operand uses, by first occurrence.
#[derive(Drop)]
pub struct Module {
    pub items: Items<Item>,
    pub globals: Items<Text>,
}

/// One item of a module.
#[derive(Drop)]
pub enum Item {
    /// A line that is passed on unread, as it is printed.
    PassedOn(Text),
    /// A global variable or constant.
    Global(Global_),
    /// A function without a body.
    Declare(Declare),
    /// A function with a body.
    Define(Function),
}

/// A global variable, or a constant: its name, the passed-on words before `global` or `constant`, its
/// type, its initialiser, and the runs of passed-on words after it, each behind a comma.
#[derive(Drop)]
pub struct Global_ {
    pub name: Text,
    pub before: Text,
    pub constant: bool,
    pub kind: IrType,
    pub init: Option<Init>,
    pub after: Items<Text>,
}

/// What a global holds at the start.
#[cycle(init)]
#[derive(Drop)]
pub enum Init {
    Literal(Operand),
    /// `zeroinitializer`.
    Zero,
    /// The bytes that a byte string means.
    Bytes(Text),
    /// The parts of an array, in order.
    List(Items<InitPart>),
}

/// One part of an array's initialiser.
#[cycle(init)]
#[derive(Drop)]
pub struct InitPart {
    pub kind: IrType,
    pub init: Boxed<Init>,
}

/// A function without a body: the passed-on words before its type, its type, name and parameters, and the
/// passed-on words behind them.
#[derive(Drop)]
pub struct Declare {
    pub before: Text,
    pub ret: IrType,
    pub name: Text,
    pub params: Items<DeclaredParam>,
    pub after: Text,
}

/// A parameter of a function without a body.
#[derive(Drop)]
pub struct DeclaredParam {
    pub kind: IrType,
    pub words: Text,
}
