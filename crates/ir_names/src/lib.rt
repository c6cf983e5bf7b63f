//! Gives the names of a module their ids.
#![tactic(auto)]

mod function;
mod globals;
mod key;
mod lists;
mod meanings;
mod module;
mod names;
mod operands;
mod ops;
mod seen;
mod spoken;
mod types;
mod walk;
mod written;

pub use module::numbered;
