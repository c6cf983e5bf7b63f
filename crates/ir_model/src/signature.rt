//! What the rules of a function see of its module.

use crate::types::{IrType, Text};
use sqlite_items::Items;

/// How many global items a module has, and the functions that it declares or defines, in item order.
#[derive(Drop)]
pub struct Signatures {
    pub globals: u64,
    pub functions: Items<Signature>,
}

/// A function's name, its type and the types of its parameters.
#[derive(Drop)]
pub struct Signature {
    pub name: Text,
    pub ret: IrType,
    pub params: Items<IrType>,
}
