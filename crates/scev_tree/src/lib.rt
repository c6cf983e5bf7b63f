//! Expressions of scalar evolution: the kinds of their atoms, and definitions of them as plain trees, of their values,
//! of their order, and of their size.
#![tactic(auto)]

mod kind;

// What holds of every tree.
pub mod laws;

pub use kind::Kind;
