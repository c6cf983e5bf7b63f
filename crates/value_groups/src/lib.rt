//! Which values of a function depend on one another, and the groups of phis among them.
#![tactic(auto)]

mod counts;
mod dependence;
mod groups;

pub use groups::{Groups, groups_of};
