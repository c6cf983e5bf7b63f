//! Quotients, minima and maxima of expressions, formed in an arena.
#![tactic(auto)]

mod flat;
mod kinds;
mod minima;
mod quotients;
mod sequences;

pub use kinds::MinKind;
pub use minima::make_min;
pub use quotients::make_udiv;
pub use sequences::make_umin_seq;
