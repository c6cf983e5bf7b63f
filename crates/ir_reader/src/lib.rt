//! Modules, read from their text.
#![tactic(auto)]

mod fault;
mod items;
mod laws;
mod reader;

pub use fault::ReadFault;
pub use items::{ItemEnding, read_items};
pub use laws::one_module;
pub use reader::read_module;
