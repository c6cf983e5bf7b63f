//! What a step may choose.

ghost use Rattle.std.specs.Prelude.{◌≡◌};
ghost use Rattle.ir_meaning.specs.Operands.{chosen};

use crate::value::Value;
use ir_memory::Blocks;

/// What is chosen in one step, where the instruction leaves a choice. All integer uses of `undef` in the
/// step take one number, each modulo 2 to its own width.
#[derive(Debug, Drop)]
pub enum Choice {
    /// The number that the step takes; at a call, the number that is answered, with memory as it is.
    Number(u64),
    /// What the outside answers to a call: the number that `undef` takes, the value, and the new contents
    /// of memory. At other instructions it counts as the number 0.
    Answer(u64, Value, Blocks),
    /// A call never returns. At other instructions it counts as the number 0.
    Silent,
}

impl Choice {
    /// The number that an instruction other than a call takes.
    pub fn number(&self) -> u64
        ensures { result ≡ chosen self.now }
    {
        match self {
            Choice::Number(n) => *n,
            Choice::Answer(_, _, _) | Choice::Silent => 0,
        }
    }
}
