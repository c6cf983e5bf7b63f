//! Sums, products and chains of recurrences of expressions, formed in an arena.
#![tactic(auto)]

mod copied;
mod error;
mod gather;
mod make;
mod parts;
mod sums;
mod tested;

pub use copied::copied_terms;
pub use error::FoldError;
pub use make::{make_product, make_rec, make_sum};
pub use parts::push;
pub use tested::{constant, made, tree_of_atom};
