//! The strongly connected components of a graph.
#![tactic(auto)]

mod connected;
mod finish;

pub use connected::components;
pub use finish::finish_order;
