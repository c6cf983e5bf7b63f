//! The words of a call, and what they ask for.
#![tactic(auto)]

mod mode;
mod options;
mod word;

pub use mode::{Mode, mode_of};
pub use word::Word;
