//! Polynomials over the atoms of an arena: their sums and products, in the order of expressions.
#![tactic(auto)]

mod constants;
mod monomial;
mod products;
mod sums;
mod terms;
mod wide;

pub use constants::{of_atom, of_number};
pub use products::product;
pub use sums::sum;
pub use wide::are_wide;
