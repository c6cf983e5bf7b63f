//! Where a switch leads.

ghost use Rattle.std.specs.Prelude.{◌≡◌};
ghost use Rattle.ir_meaning.specs.Step.{way as meaning, switched as meaning_of_switch};
ghost use Rattle.ir_meaning.specs.Step.{case_target as target_of_case};
ghost use Rattle.ir_machine.specs.Stands.{register};
ghost use Rattle.ir_machine.specs.Narrow.{IsNarrow};
ghost use Rattle.ir_machine.specs.Effects.{meant_way};
ghost use Rattle.ir_model.specs.declared.op.Op.TheVariants.{Switch};

use crate::effect::Way;
use crate::operand::integer_value;
use ir_meaning::Value;
use ir_model::{Case, IrType, Operand};
use scev_base::{BlockId, Width, wrap};

/// Where `switch` leads.
pub(crate) fn way_of_switch(
    registers: &[Option<Value>],
    n: u64,
    kind: &IrType,
    operand: &Operand,
    other: BlockId,
    cases: &[Case],
) -> Way
    requires { IsNarrow kind.now }
    ensures { meant_way result ≡ meaning (register registers.now) n
        (Switch kind.now operand.now other cases.now) }
{
    let IrType::Int(bits) = kind else {
        return Way::Stuck;
    };
    let w = Width { bits: *bits };
    match integer_value(registers, n, w, operand) {
        Some(x) => switched(w, cases, other, x),
        None => Way::Stuck,
    }
}

/// Where a switch on a value leads. On poison the behaviour is undefined (LLVM Language Reference, "switch
/// Instruction").
fn switched(w: Width, cases: &[Case], other: BlockId, x: Value) -> Way
    ensures { meant_way result ≡ meaning_of_switch w.bits cases.now other.0 x }
{
    match x {
        Value::Number(x) => Way::Enters(case_target(w, cases, other, x)),
        _ => Way::Undefined,
    }
}

/// The target of the first case with the number; without one, the other block.
fn case_target(w: Width, cases: &[Case], other: BlockId, x: u64) -> BlockId
    ensures { result.0 ≡ target_of_case w.bits cases.now other.0 x }
{
    for case in cases {
        if wrap(case.number, w) == x {
            return case.to;
        }
    }
    other
}
