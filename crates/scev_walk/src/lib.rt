//! Expressions of an arena, read: the order in which they stand, the loops of their recurrences, what changes while a
//! loop runs, and which of them are numbers or one atom. Nothing here takes memory.
#![tactic(auto)]

mod atoms;
mod kinds;
mod loops;
mod nodes;
mod order;
mod variance;

pub use atoms::{alone, number_of};
pub use loops::{deepest, stands_in};
pub use nodes::{atom_at, tree_at, width};
pub use order::{compare, compare_monomials};
pub use variance::moves;
