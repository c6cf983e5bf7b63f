//! The items of a module outside functions with a body, each read at a place of the tokens, and what of a module is
//! dropped or passed on.
#![tactic(auto)]

mod declare;
mod dropped;
mod global;
mod global_ending;
mod initialiser;
mod layout;
mod lines;
mod literal;

pub use declare::read_declare;
pub use dropped::skip_metadata_item;
pub use global::{ended_global, read_global};
pub use global_ending::GlobalEnding;
pub use ir_parts::{ItemFault, read_type, skip_metadata};
pub use layout::layout_fault;
pub use lines::read_passed_line;
