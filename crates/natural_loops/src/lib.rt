//! The natural loops of a function: their blocks, latches, entering blocks and exits, which loop stands in which, and
//! which blocks each turn passes.
#![tactic(auto)]

mod backward;
mod blocks;
mod exits;
mod latches;
mod laws;
mod listed;
mod nest;
mod passed;
mod region;
mod sides;
mod smallest;
mod table;

pub use laws::loops_are_nested_or_apart;
pub use region::Region;
pub use sides::Sides;
pub use table::{LoopTable, loops};
