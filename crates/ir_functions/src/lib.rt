//! Functions with a body, read at a place of the tokens: calls, with their arguments; the lines of a block, which are
//! instructions or are dropped; blocks, parameters and whole functions. Each id in what is read is the position of a
//! token.
#![tactic(auto)]

mod argument_list;
mod arguments;
mod calls;
mod definitions;
mod function;
mod labels;
mod lines;
mod param_list;
mod params;
mod records;
mod signature;

pub use function::read_function;
