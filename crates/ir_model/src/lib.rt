//! A module of LLVM IR as plain data: what the reader gives, the checks accept, the analysis reads, the
//! passes rewrite and the printer writes. Contracts see each list and text as the list of what it holds.
#![tactic(auto)]

mod function;
mod item;
mod min_max;
mod op;
mod place;
mod rule;
mod signature;
mod signatures;
mod types;

pub use function::{Block, Function, Instr, Param, ValueInfo};
pub use item::{Declare, DeclaredParam, Global_, Init, InitPart, Item, Module};
pub use min_max::MinMax;
pub use op::{BinOp, Case, CastOp, Op, Operand, PhiEntry, TypedOperand};
pub use rule::{Place, Rule};
pub use signature::{Signature, Signatures};
pub use types::{IrType, Text};
