//! The rules of well-formedness, checked. `check_module` looks at what stands outside functions, `check_shape` at
//! one function; each answers the first rule that is broken, with its first place in text order.
#![tactic(auto)]

// What is refused.
mod ill;

// The functions that a module has, by their names.
mod callees;

// Names: each is defined once, and what is used is defined.
mod defined;
mod undefined;

// Types, numerals and widths.
mod kinds;
mod literals;
mod operands;
mod widths;

// Blocks and phis.
mod edges;
mod entries;

// Single operations.
mod calls;
mod cases;
mod instrs;

// Sizes.
mod limits;

// A function, and what stands outside functions.
mod function;
mod initialisers;
mod items;
mod shaped;

pub use callees::Callees;
pub use ill::Ill;
pub use items::check_module;
pub use shaped::{Shaped, check_shape};
