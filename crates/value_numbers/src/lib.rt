//! What operations give to numbers, and the values of the expressions that are formed for them.
#![tactic(auto)]

mod laws;

pub use laws::rows_keep_the_value;
