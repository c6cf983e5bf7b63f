//! How a call ended.

ghost use Rattle.std.specs.Prelude.{◌≡◌};

use ir_model::{Place, Rule};
use scev_base::FuncId;

/// How a call of the tool ended.
#[derive(Clone, Copy, Debug, PartialEq, Eq)]
pub enum Status {
    /// The whole text was written.
    Done,
    /// The words ask for nothing that the tool does. Nothing was read.
    Usage,
    /// A read failed.
    ReadFault,
    /// The input has more than 8,388,608 bytes.
    TooLong,
    /// The input spells no module; `at` is the byte of the refusal.
    NotInGrammar {
        at: usize,
    },
    /// The input uses a part of LLVM IR that is left out: its number in the table of such words, and its byte.
    Unsupported {
        word: u16,
        at: usize,
    },
    /// The module breaks a rule of well-formedness: the first one that is broken, the function with a body, by its
    /// number from 0 (0 for a rule on what stands outside functions), and the first place in text order.
    Ill {
        rule: Rule,
        function: FuncId,
        place: Place,
    },
    /// No function with a body has the name.
    NoFunction,
    /// The arguments don't fit the function's parameters.
    BadArgs,
    /// A write failed; a front of the text was written.
    WriteFault,
    /// No memory was found.
    OutOfMemory,
}

impl Status {
    ghost use Rattle.scev_tool.specs.Status.{code_of};

    /// The exit status of the program.
    pub fn code(&self) -> u8
        ensures { result ≡ code_of self.now }
    {
        match self {
            Status::Done => 0,
            Status::Usage => 2,
            Status::NotInGrammar { .. }
            | Status::Unsupported { .. }
            | Status::Ill { .. }
            | Status::NoFunction
            | Status::BadArgs => 3,
            Status::ReadFault => 4,
            Status::WriteFault => 5,
            Status::TooLong => 6,
            Status::OutOfMemory => 7,
        }
    }
}
