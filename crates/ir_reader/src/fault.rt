//! Why a text isn't read.

use std::alloc::AllocError;

/// Why a text wasn't read.
#[derive(Clone, Copy, Debug, PartialEq, Eq)]
pub enum ReadFault {
    /// It spells no module; `at` is the byte of the refusal: that of the first token with which no module goes on, or
    /// the one at which all tokens end.
    NotInGrammar { at: usize },
    /// The same at a part of LLVM IR that is left out by name: its number in the list of these, and its byte.
    Unsupported { word: u16, at: usize },
    /// No memory was found.
    OutOfMemory,
}

impl From<AllocError> for ReadFault {
    ghost use Rattle.std.specs.Prelude.{◌≡◌};
    ghost use Rattle.ir_reader.specs.declared.fault.ReadFault.TheVariants.{OutOfMemory};

    ghost from_gives = { λ _ fault. fault ≡ OutOfMemory };

    fn from(_error: AllocError) -> ReadFault {
        ReadFault::OutOfMemory
    }
}
