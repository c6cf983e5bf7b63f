//! Polynomials modulo 2^w over atoms, which are known by the numbers of their expressions.
#![tactic(auto)]

mod arithmetic;
mod error;
mod factors;
pub mod laws;
mod limit;
mod merge;
mod monomial;
mod product;
mod term;
mod terms;

pub use arithmetic::{product_of, sum_of};
pub use error::TermError;
pub use factors::Factors;
pub use term::Term;
pub use terms::Terms;
