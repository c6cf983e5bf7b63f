//! The graph of a function's blocks.
#![tactic(auto)]

mod edges;
mod entry_walks;
mod flow;
mod graph;
mod reach;
mod reverse;
mod search;
mod sources;

pub use edges::Edges;
pub use entry_walks::EntryWalks;
pub use flow::Flow;
pub use graph::{arcs, no_rows};
pub use reverse::reversed;
pub use search::collect;
