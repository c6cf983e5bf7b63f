//! Why a read or a write gave up.

ghost use Rattle.std.specs.Prelude.{◌≡◌};
ghost use Rattle.scev_outside.specs.declared.failed.ReadError.TheVariants as read_error;

use std::alloc::AllocError;

/// A read or a write failed: the object's count of faults rose.
#[derive(Clone, Copy, Debug, PartialEq, Eq)]
pub struct Failed;

/// Why not all of a source was read.
#[derive(Clone, Copy, Debug, PartialEq, Eq)]
pub enum ReadError {
    /// A read failed: the source's count of faults rose.
    Failed,
    /// The source gave more bytes than the limit.
    TooLong,
    /// No memory was found for the bytes.
    OutOfMemory,
}

impl From<Failed> for ReadError {
    ghost from_gives = { λ _ e. e ≡ read_error.Failed };

    fn from(_failed: Failed) -> ReadError {
        ReadError::Failed
    }
}

impl From<AllocError> for ReadError {
    ghost from_gives = { λ _ e. e ≡ read_error.OutOfMemory };

    fn from(_error: AllocError) -> ReadError {
        ReadError::OutOfMemory
    }
}
