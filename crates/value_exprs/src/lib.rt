//! The classification: which expression each value of a function is.
#![tactic(auto)]

mod laws;
mod view;

pub use laws::{mutual_phis_count, one_expression};
pub use view::FunctionView;
