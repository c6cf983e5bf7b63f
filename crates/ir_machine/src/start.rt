//! Registers at the start of a run.

ghost use Rattle.std.specs.Prelude.{◌≡◌, ◌<◌, All, IfOk, length, replicate};
ghost use Rattle.ir_meaning.specs.Run.{with_args};
ghost use Rattle.ir_machine.specs.Stands.{register};

use crate::phis::set;
use ir_meaning::Value;
use ir_model::Param;
use std::alloc::{AllocError, Global};

/// So many registers that aren't set.
pub(crate) fn unset(alloc: Global, count: usize) -> Result<Vec<Option<Value>>, AllocError>
    ensures { IfOk result (λ registers. registers.items ≡ replicate count None) }
{
    vec![in alloc; None; count]
}

/// Sets the register of each parameter to its argument.
pub(crate) fn set_args(registers: &mut [Option<Value>], params: &[Param], args: &[Value])
    requires { All (λ p. p.value.0 < length registers.old) params.now }
    ensures { register registers.new ≡ with_args (register registers.old) params.now args.now }
{
    for (param, x) in params.iter().zip(args) {
        set(registers, Some(param.value), *x);
    }
}
