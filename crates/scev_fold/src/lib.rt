//! Expressions, formed in an arena: sums, products, recurrences, quotients, truncations, extensions, minima, and the
//! value at a turn of a loop, each in the one normal form.
#![tactic(auto)]

mod binomials;
mod counted;
mod folded;
mod hindered;
mod reformed;
mod turns;

pub use scev_casts::{make_sext, make_trunc, make_zext};
pub use scev_minima::{MinKind, make_min, make_udiv, make_umin_seq};
pub use scev_sums::{FoldError, make_product, make_rec, make_sum};
pub use turns::at_turn;
