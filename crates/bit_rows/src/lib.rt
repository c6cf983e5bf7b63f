//! Rows of bits.
#![tactic(auto)]

mod row;

pub use row::BitRow;
