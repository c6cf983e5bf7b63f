//! Operands, as far as expressions are formed of them.

ghost use Rattle.std.specs.Prelude.{◌≡◌};
ghost use Rattle.value_view.specs.Givens.{source_of};

use ir_model::Operand;
use scev_base::{ValueId, Width, wrap};

/// An operand of which expressions are formed.
#[derive(Clone, Copy, Debug, PartialEq, Eq)]
pub enum Source {
    /// A numeral, as its residue modulo 2^w.
    Number(u64),
    /// A register.
    Register(ValueId),
}

impl Source {
    /// The operand of w bits, where it is a numeral or a register. No memory.
    pub fn of(operand: Operand, w: Width) -> Option<Source>
        ensures { result ≡ source_of w.bits operand }
    {
        match operand {
            Operand::Reg(v) => Some(Source::Register(v)),
            Operand::Num(n) => Some(Source::Number(wrap(n, w))),
            _ => None,
        }
    }
}
