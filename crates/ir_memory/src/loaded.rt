//! What is loaded and stored.

/// A value that a load gives, or that a store takes.
#[derive(Clone, Copy, Debug, PartialEq, Eq)]
pub enum Loaded {
    /// The bits of an integer, as a number below 2 to its width.
    Number(u64),
    /// Poison as a whole.
    Poison,
}
