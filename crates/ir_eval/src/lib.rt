//! A function of a module, run on arguments: `eval`.
#![tactic(auto)]

// The memory at the start.
mod globals;
mod initialisers;

// The arguments.
mod arguments;

// The run, and what is written about it.
mod eval;
mod fault;
mod outcome;

pub use eval::evaluate;
pub use fault::EvalFault;
