//! What a function means: its values, its states, one step, its runs, and when one function may stand for
//! another.
#![tactic(auto)]

mod choice;
pub mod laws;
mod value;

pub use choice::Choice;
pub use value::Value;
