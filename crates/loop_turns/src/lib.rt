//! Turns of loops between a definition and its uses.
#![tactic(auto)]

mod laws;

pub use laws::no_turn_before_a_use;
