//! Whether a module is accepted: the first rule of well-formedness that it breaks, in which function and at which
//! place; and the line that says so.
#![tactic(auto)]

mod fault;
mod laws;
mod line;

pub use fault::{Fault, first_fault};
pub use laws::one_fault;
pub use line::fault_line;
