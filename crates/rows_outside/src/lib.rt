//! Worked examples of sources and sinks as tables of tests.
#![tactic(auto)]

#[cfg(test)]
mod sinks;
#[cfg(test)]
mod sources;
