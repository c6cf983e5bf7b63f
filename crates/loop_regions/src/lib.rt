//! Loops of a function as sets of blocks.
#![tactic(auto)]

mod laws;
mod lone;
mod one_block;
mod table;
mod text_order;

pub use laws::{one_block_is_loop, one_table, turn_of_one_block};
pub use one_block::loops;
pub use table::LoopTable;
