//! Where bytes come from and where they go: sources and sinks that count their faults.
#![tactic(auto)]

mod copying;
mod failed;
mod listed;
mod memory_sink;
mod memory_source;
mod reading;
mod sink;
mod source;
mod standard;
mod steady;
mod writing;

pub use failed::{Failed, ReadError};
pub use memory_sink::MemorySink;
pub use memory_source::MemorySource;
pub use reading::read_all;
pub use sink::Sink;
pub use source::Source;
pub use standard::{StdErr, StdSink, StdSource};
pub use steady::{SteadySink, SteadySource};
pub use writing::write_all;
