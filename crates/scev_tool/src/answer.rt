//! What a mode answers.

ghost use Rattle.std.specs.Prelude.{◌≡◌, ◌⊎◌, ◌≤◌, ◌<◌, ◌^◌, List, [], ℕ, length, IfOk, Err, All};
ghost use Rattle.scev_outside.specs.Bytes.{Gave};
ghost use Rattle.ir_grammar.specs.Spelled.{Spells};
ghost use Rattle.ir_model.specs.WellMade.{HaveIds, AreWellMade};
ghost use Rattle.ir_rules.specs.Accepted.{IsAcceptedModule};
ghost use Rattle.scev_tool.specs.Answer.{IsAnswer, input_limit};
ghost use Rattle.ir_accept.specs.Line.{fault_text};
ghost use Rattle.scev_tool.specs.Message.{IsOwnLine, no_function_text};
ghost use Rattle.eval_request.specs.Asked.{Asked};
ghost use Rattle.ir_eval.specs.Outcome.{HasNoFunction, HasBadArgs};
ghost use Rattle.scev_words.specs.Modes.{Eval, AskFor};
ghost use Rattle.scev_words.specs.Found.{seen};
ghost use Rattle.scev_tool.specs.Mode.{IsTextOf};
ghost use Rattle.scev_tool.specs.Status.{LeavesOutput};

use crate::report::report_module;
use crate::status::Status;
use ir_accept::{Fault, fault_line, first_fault};
use ir_eval::{EvalFault, evaluate};
use ir_model::Module;
use ir_printer::{print_module, push_text_name};
use ir_reader::{ReadFault, read_module};
use scev_outside::{ReadError, Sink, Source, read_all, write_all};
use scev_words::{Mode, Word};
use std::alloc::{AllocError, Global};

/// The greatest length of an input, in bytes.
const INPUT_LIMIT: usize = 8_388_608;

/// How a call ended, and the line of a rule that is broken or about a missing function. Other statuses have no line of
/// their own.
#[derive(Drop)]
pub(crate) struct Answered {
    pub status: Status,
    pub line: Vec<u8>,
}

/// Reads the source to its end, and writes the mode's text for the module that it spells. The text is built
/// whole before its first byte is written. The words of the call ask for the mode.
pub(crate) fn answer<S: Source, K: Sink>(
    alloc: Global,
    words: &[Word],
    mode: Mode<'_>,
    source: &mut S,
    out: &mut K,
) -> Answered
    requires { AskFor (seen mode) words.now }
    ensures answer { IsAnswer (record {
      words = words.now;
      left_old = S.left source.old;
      left_new = S.left source.new;
      taken_old = K.taken out.old;
      taken_new = K.taken out.new;
      reads_old = S.faults source.old;
      reads_new = S.faults source.new;
      writes_old = K.faults out.old;
      writes_new = K.faults out.new;
    }) result.status }
    ensures line { IsOwnLine words.now (S.left source.old) result.status result.line.items }
    ensures output { LeavesOutput result.status → out.new ≡ out.old }
    ensures stands { (read : List ℕ) × Gave (S.left source.old) read (S.left source.new) }
    ensures source_count { S.faults source.old ≤ S.faults source.new }
    ensures output_count { K.faults out.old ≤ K.faults out.new }
{
    let bytes = match read_all(alloc, source, INPUT_LIMIT) {
        Ok(bytes) => bytes,
        Err(ReadError::Failed) => return plain(alloc, Status::ReadFault),
        Err(ReadError::TooLong) => return plain(alloc, Status::TooLong),
        Err(ReadError::OutOfMemory) => return plain(alloc, Status::OutOfMemory),
    };
    let module = match read_module(alloc, &bytes) {
        Ok(module) => module,
        Err(ReadFault::NotInGrammar { at }) => return plain(alloc, Status::NotInGrammar { at }),
        Err(ReadFault::Unsupported { word, at }) => {
            return plain(alloc, Status::Unsupported { word, at });
        }
        Err(ReadFault::OutOfMemory) => return plain(alloc, Status::OutOfMemory),
    };
    match first_fault(alloc, &module) {
        Ok(None) => {}
        Ok(Some(fault)) => return refused(alloc, &module, fault),
        Err(_) => return plain(alloc, Status::OutOfMemory),
    }
    are_bytes(&bytes);
    let text = match text_of(alloc, mode, &module) {
        Ok(text) => text,
        Err(EvalFault::NoFunction) => return no_function(alloc, mode),
        Err(EvalFault::BadArgs) => return plain(alloc, Status::BadArgs),
        Err(EvalFault::OutOfMemory) => return plain(alloc, Status::OutOfMemory),
    };
    match write_all(out, &text) {
        Ok(()) => plain(alloc, Status::Done),
        Err(_) => plain(alloc, Status::WriteFault),
    }
}

/// A status without a line of its own.
pub(crate) fn plain(alloc: Global, status: Status) -> Answered
    ensures status { result.status ≡ status }
    ensures line { result.line.items ≡ [] }
{
    Answered {
        status,
        line: Vec::new(alloc),
    }
}

/// The status of a rule that is broken, with its line, unless there is no memory for it.
fn refused(alloc: Global, m: &Module, fault: Fault) -> Answered
    requires { HaveIds m.now }
    ensures { ((result.status ≡ Status.Ill fault.rule fault.function fault.place)
        × (result.line.items ≡ fault_text m.now fault.rule fault.function.0 fault.place))
        ⊎ ((result.status ≡ Status.OutOfMemory) × (result.line.items ≡ [])) }
{
    let Fault {
        rule,
        function,
        place,
    } = fault;
    match fault_line(alloc, m, fault) {
        Ok(line) => Answered {
            status: Status::Ill {
                rule,
                function,
                place,
            },
            line,
        },
        Err(_) => plain(alloc, Status::OutOfMemory),
    }
}

/// The status of a function that is missing, with its line, unless there is no memory for it. The mode is a run.
fn no_function(alloc: Global, mode: Mode<'_>) -> Answered
    ensures { (asked : Asked) → seen mode.entry ≡ Eval asked
        → ((result.status ≡ Status.NoFunction) × (result.line.items ≡ no_function_text asked.name))
        ⊎ ((result.status ≡ Status.OutOfMemory) × (result.line.items ≡ [])) }
{
    let name = match mode {
        Mode::Eval(request) => request.name,
        Mode::Print | Mode::Report => b"",
    };
    match no_function_line(alloc, name) {
        Ok(line) => Answered {
            status: Status::NoFunction,
            line,
        },
        Err(_) => plain(alloc, Status::OutOfMemory),
    }
}

/// The line about a name that no function has.
fn no_function_line(alloc: Global, name: &[u8]) -> Result<Vec<u8>, AllocError>
    ensures { IfOk result (λ line. line.items ≡ no_function_text name.now) }
{
    let mut line = Vec::new(alloc);
    line.extend_from_slice(b"scev: no function ")?;
    push_text_name(&mut line, name)?;
    line.push(b'\n')?;
    Ok(line)
}

/// Each byte is below 2^8, as its type says.
fn are_bytes(bytes: &[u8])
    ensures { All (λ b. b < 2 ^ 8) bytes.now }
{}

/// The mode's text for a module that is accepted. The error is `NoFunction` and `BadArgs` only for a run.
fn text_of(alloc: Global, mode: Mode<'_>, m: &Module) -> Result<Vec<u8>, EvalFault>
    requires ids { HaveIds m.now }
    requires well_made { AreWellMade m.now }
    requires accepted { IsAcceptedModule m.now }
    ensures text { IfOk result (λ text. (bytes : List ℕ) → All (λ b. b < 2 ^ 8) bytes → length bytes ≤ input_limit →
        Spells bytes m.now → IsTextOf (seen mode.entry) bytes text.items) }
    ensures no_function { result ≡ Err EvalFault.NoFunction
        → (asked : Asked) × (seen mode.entry ≡ Eval asked) × HasNoFunction m.now asked }
    ensures bad_args { result ≡ Err EvalFault.BadArgs
        → (asked : Asked) × (seen mode.entry ≡ Eval asked) × HasBadArgs m.now asked }
{
    match mode {
        Mode::Print => Ok(print_module(alloc, m)?),
        Mode::Report => Ok(report_module(alloc, m)?),
        Mode::Eval(request) => evaluate(alloc, m, request),
    }
}
