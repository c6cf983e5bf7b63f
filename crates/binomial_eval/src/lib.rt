//! Binomial coefficients modulo 2^w, recurrences at a turn, and linear congruences.
#![tactic(auto)]

mod factorials;
pub mod laws;
mod linear;
mod turn;

pub use factorials::{FACTORIALS, Factorial, factorial_parts};
pub use linear::solve_linear;
pub use turn::{binomial, eval_rec};
