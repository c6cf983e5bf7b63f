//! Expressions, formed by calls that have no conditions: each is tested when the call is made, and a call that breaks
//! one answers an error. Worked examples form their expressions by it.
#![tactic(auto)]

mod calculator;
mod error;
mod sheet;
mod steps;
mod tested;

pub use calculator::Calculator;
pub use error::CalculatorError;
pub use steps::Step;
