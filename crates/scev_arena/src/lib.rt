//! Expressions with shared parts. `Node` is a polynomial over atoms, or an atom over trees, that are known by their
//! places in an `Arena`; the arena keeps each node once, so a place stands for one tree; `laws` says so.
#![tactic(auto)]

mod arena;
pub mod laws;
mod limit;
mod measure;
mod node;

pub use arena::Arena;
pub use limit::Limit;
pub use node::Node;
