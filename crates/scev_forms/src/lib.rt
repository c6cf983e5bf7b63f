//! How expressions are formed: the one normal form of sums, products, recurrences, truncations, extensions, quotients,
//! minima and maxima, as definitions over plain trees, and laws of it.
#![tactic(auto)]

pub mod laws;
