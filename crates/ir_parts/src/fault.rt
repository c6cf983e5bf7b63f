//! Why a part was not read.

/// Why a part of a module was not read.
#[derive(Clone, Copy, Debug, PartialEq, Eq)]
pub enum ItemFault {
    /// The token at this position, from 0, is the first that can't go on; it is the number of tokens where they
    /// end too early.
    CannotGoOn { at_token: usize },
    /// There is no memory for what was read.
    OutOfMemory,
}
