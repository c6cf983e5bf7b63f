//! The expressions of the classification are true in every run.
#![tactic(auto)]

mod laws;
mod names;
mod steps;

pub use laws::what_is_true_stays_true;
pub use names::{always_is_just_after, own_names_are_true};
pub use steps::{names_carry_over, true_where_entered, true_where_given};
