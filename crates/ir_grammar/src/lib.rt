//! How modules are written, which texts spell one and where the others are refused, and the text that is printed for a
//! module: definitions, and the laws on them; and which names are dropped or are LLVM's own.
#![tactic(auto)]

mod laws;
mod names;

pub use laws::one_numbering;
pub use names::{is_dropped_name, is_intrinsic};
