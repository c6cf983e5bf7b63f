//! What is asked of a run of a function, and decimal numerals.
#![tactic(auto)]

mod decimal;
mod request;

pub use decimal::numeral;
pub use request::Request;
