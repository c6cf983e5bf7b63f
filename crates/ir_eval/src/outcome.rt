//! The lines about a run.

ghost use Rattle.std.specs.Prelude.{◌≡◌, ◌++◌, ◌≤◌, ◌-◌, ◌^◌, decimal, length, OnOk};
ghost use Rattle.ir_meaning.specs.State.{State};
ghost use Rattle.ir_machine.specs.Phases.{phase_of};
ghost use Rattle.ir_machine.specs.Stands.{Stands};
ghost use Rattle.ir_eval.specs.Outcome.{answer_text, phase_text, outcome_text};

use ir_machine::{Machine, Phase};
use ir_meaning::Value;
use itoa::Buffer;
use std::alloc::AllocError;

/// Appends the three lines about a machine that has made so many steps.
pub(crate) fn push_outcome(
    out: &mut Vec<u8>,
    machine: &Machine,
    made: u64,
) -> Result<(), AllocError>
    ensures { OnOk result ((s : State) → Stands machine.now s → length s.events ≤ 2 ^ 64 - 1
        → out.new.items ≡ out.old.items ++ outcome_text s made) }
{
    push_phase(out, machine.phase())?;
    out.extend_from_slice(b"\nsteps ")?;
    push_number(out, made)?;
    out.extend_from_slice(b"\nevents ")?;
    push_number(out, machine.events())?;
    out.push(b'\n')?;
    Ok(())
}

/// Appends how a run ended.
fn push_phase(out: &mut Vec<u8>, phase: &Phase) -> Result<(), AllocError>
    ensures { OnOk result (out.new.items ≡ out.old.items ++ phase_text (phase_of phase.now)) }
{
    match phase {
        Phase::Running => out.extend_from_slice(b"running"),
        Phase::Returned(answer) => {
            out.extend_from_slice(b"returned ")?;
            push_answer(out, *answer)
        }
        Phase::Undefined => out.extend_from_slice(b"undefined"),
        Phase::Stopped => out.extend_from_slice(b"stopped"),
    }
}

/// Appends what was returned.
fn push_answer(out: &mut Vec<u8>, answer: Option<Value>) -> Result<(), AllocError>
    ensures { OnOk result (out.new.items ≡ out.old.items ++ answer_text answer) }
{
    match answer {
        None => out.extend_from_slice(b"void"),
        Some(Value::Number(n)) => push_number(out, n),
        Some(Value::Poison) => out.extend_from_slice(b"poison"),
        Some(Value::Null) => out.extend_from_slice(b"null"),
        Some(Value::Pointer { block, offset }) => {
            out.extend_from_slice(b"block ")?;
            push_number(out, block)?;
            out.extend_from_slice(b" offset ")?;
            push_number(out, offset)
        }
    }
}

/// Appends a number in decimal.
fn push_number(out: &mut Vec<u8>, n: u64) -> Result<(), AllocError>
    ensures { OnOk result (out.new.items ≡ out.old.items ++ decimal n) }
{
    let mut buffer = Buffer::new();
    out.extend_from_slice(buffer.format(n).as_bytes())
}
