//! No run of a function that breaks no rule is stuck: each register that is read was set before, to a value of the type
//! that is asked for, each branch leads to a block, and each phi has an entry for the edge that is taken.
#![tactic(auto)]

mod laws;

pub use laws::no_run_is_stuck;
