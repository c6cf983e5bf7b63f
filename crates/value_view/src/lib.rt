//! What the analysis of values reads of a function, as plain data: operands, what gives a value, and rows of values.
#![tactic(auto)]

mod given;
mod reading;
mod row;
mod source;

pub use given::{Given, Pair};
pub use reading::Reading;
pub use row::Row;
pub use source::Source;
