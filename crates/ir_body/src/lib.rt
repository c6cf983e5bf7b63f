//! The bodies of functions, each part read at a place of the tokens: operands, instructions, blocks and
//! functions. Each id in what is read is a position of a token.
#![tactic(auto)]

mod aligned;
mod binary;
mod branch;
mod cases;
mod dispatch;
mod flags;
mod lists;
mod opcode;
mod operands;
mod operation;
mod values;

pub use dispatch::read_op;
pub use flags::read_flag;
pub use opcode::starts_call;
pub use operands::read_operand;
pub use operation::Operation;
