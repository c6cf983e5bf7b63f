//! The printed text of a module. First the numbers of what has no name are found, once for a function; then each
//! part appends its text to what is printed so far, from names, types and operands up to the items.
#![tactic(auto)]

// The numbers of what has no name.
mod numbers;
mod walk;

// Small parts.
mod names;
mod numeral;
mod operand;
mod shown;
mod types;
mod words;

// Instructions, by kind.
mod binary;
mod call;
mod control;
mod given;
mod instruction;
mod memory;

// Functions, and the other items.
mod function;
mod initialiser;
mod items;
mod module;

pub use module::print_module;
pub use names::push_text_name;
pub use numeral::push_numeral;
pub use shown::{Names, push_block_name, push_global_name, push_value_name};
pub use types::push_type;
