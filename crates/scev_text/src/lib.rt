//! The texts of expressions, as reports show them.
#![tactic(auto)]

mod expression;
mod small;

pub use expression::{expr_text, push_expr};
