//! A machine that carries out a function step by step, as its meaning says.
#![tactic(auto)]

// How far a run is.
mod phase;

// Numbers, by width.
mod bits;
mod comparisons;
mod conversions;
mod divisions;
mod operations;
mod shifts;
mod sums;
mod wraps;

// Operands, and what is computed from them.
mod computations;
mod operand;
mod pointers;

// Memory, addresses and calls; what an operation does.
mod accesses;
mod addresses;
mod calls;
mod effect;

// Where terminators lead, and the phis there.
mod lookup;
mod phis;
mod switches;
mod ways;

// A run.
mod machine;
mod start;

pub use accesses::{bytes_in_memory, int_size};
pub use machine::Machine;
pub use phase::Phase;
