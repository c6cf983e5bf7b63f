//! The tool as one call: words, a source and two sinks go in, a status comes out.
#![tactic(auto)]

mod answer;
pub mod laws;
mod loop_lines;
mod message;
mod report;
mod running;
mod status;

pub use running::run;
pub use status::Status;
