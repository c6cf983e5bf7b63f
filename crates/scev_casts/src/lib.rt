//! Truncations and extensions of expressions, formed in an arena.
#![tactic(auto)]

mod extensions;
mod truncations;

pub use extensions::{make_sext, make_zext};
pub use truncations::make_trunc;
