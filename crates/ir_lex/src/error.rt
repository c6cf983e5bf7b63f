//! Why a text has no tokens.

use thiserror::Error;

/// Why the tokens of a text were not found.
#[derive(Clone, Copy, Debug, PartialEq, Eq, Error)]
pub enum LexError {
    /// The byte at this place, from 0, is no blank, and begins no comment and no token.
    #[error("byte {at} begins no token")]
    BadByte { at: usize },
    /// There is no memory for the list of tokens.
    #[error("there is no memory for the tokens")]
    OutOfMemory,
}
