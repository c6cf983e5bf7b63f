//! Lines of blocks.

ghost use Rattle.std.specs.Prelude.{◌≡◌, [], ◌++◌, ◌<◌, ◌≤◌, Some, None, length, IfOk, OnOk};
ghost use Rattle.std.specs.Option.{option_map};
ghost use Rattle.ir_text.specs.Said.{said_local};
ghost use Rattle.ir_model.specs.Shapes.{is_terminator, is_void};
ghost use Rattle.ir_parts.specs.Reading.{left_from, ReadsAs};
ghost use Rattle.ir_parts.specs.Places.{said_at, mentions_at};
ghost use Rattle.ir_functions.specs.Lines.{record_line_at, plain_at, operation_at, instr_of, named_line_at, gives_value, with_number, unnamed_line_at, line_at, ends_block, with_instr, instrs_at};
ghost use Rattle.ir_functions.specs.Views.{bare_read_operation, read_operation_sites, bare_line, line_sites, bare_instrs, instrs_sites};

use crate::calls::read_call;
use crate::definitions::definition;
use crate::records::{skip_record, starts_record};
use ir_body::{Operation, read_op, starts_call};
use ir_lex::Tokens;
use ir_model::{Instr, IrType, Op};
use ir_parts::{Ending, ItemFault, behind_sign, starts_local};
use scev_base::ValueId;
use sqlite_items::Items;
use std::alloc::{AllocError, Global};

/// A line of a block: an instruction, or what is dropped. Where it ends in a run of passed-on words that could go on,
/// `tail` says how that run ends.
#[derive(Drop)]
pub(crate) struct Line {
    pub instr: Option<Instr>,
    pub tail: Option<Ending>,
}

/// The instructions of a block, to the one that ends it.
pub(crate) fn read_instrs(
    alloc: Global,
    tokens: &Tokens<'_>,
    from: usize,
) -> Result<(Items<Instr>, usize), ItemFault>
    requires { from ≤ length tokens.now.tokens }
    ensures value { ReadsAs (λ instrs. (bare_instrs instrs, mentions_at tokens.now (instrs_sites instrs))) tokens.now
        result (instrs_at (left_from tokens.now from)) }
    ensures forth { IfOk result (λ read. (from < read.1) × (read.1 ≤ length tokens.now.tokens)) }
{
    let mut instrs = Items::new(alloc);
    let mut at = from;
    let mut ended = false;
    'lines: while !ended {
        let (next, behind) = read_line(alloc, tokens, at)?;
        ended = ends_block(&next);
        push_instr(&mut instrs, next.instr)?;
        at = behind;
    }
    Ok((instrs, at))
}

/// Puts an instruction behind others, if there is one.
fn push_instr(instrs: &mut Items<Instr>, instr: Option<Instr>) -> Result<(), AllocError>
    ensures { OnOk result (instrs.new ≡ instrs.old ++ with_instr instr []) }
{
    match instr {
        Some(instr) => instrs.push(instr),
        None => Ok(()),
    }
}

/// Whether a line ends a block.
fn ends_block(line: &Line) -> bool
    ensures { result ≡ ends_block line.now }
{
    match &line.instr {
        Some(instr) => instr.op.is_terminator(),
        None => false,
    }
}

/// An instruction, or what is dropped.
#[tactic(auto, unfolding(crate::specs::Lines::line_at))]
fn read_line(alloc: Global, tokens: &Tokens<'_>, from: usize) -> Result<(Line, usize), ItemFault>
    requires { from ≤ length tokens.now.tokens }
    ensures value { ReadsAs (λ line. (bare_line line, mentions_at tokens.now (line_sites line))) tokens.now result
        (line_at (left_from tokens.now from)) }
    ensures forth { IfOk result (λ read. (from < read.1) × (read.1 ≤ length tokens.now.tokens)) }
{
    if starts_record(tokens, from) {
        record_line(alloc, tokens, from)
    } else if starts_local(tokens, from) {
        named_line(alloc, tokens, from)
    } else {
        unnamed_line(alloc, tokens, from)
    }
}

/// A debug record.
#[tactic(auto, unfolding(crate::specs::Lines::record_line_at), using(ir_body::proofs::Told::told))]
fn record_line(alloc: Global, tokens: &Tokens<'_>, from: usize) -> Result<(Line, usize), ItemFault>
    requires { from ≤ length tokens.now.tokens }
    ensures value { ReadsAs (λ line. (bare_line line, mentions_at tokens.now (line_sites line))) tokens.now result
        (record_line_at (left_from tokens.now from)) }
    ensures forth { IfOk result (λ read. (from < read.1) × (read.1 ≤ length tokens.now.tokens)) }
{
    let at = skip_record(alloc, tokens, from)?;
    let instr = None;
    let tail = None;
    Ok((Line { instr, tail }, at))
}

/// An instruction behind its result and `=`.
#[tactic(auto, unfolding(crate::specs::Lines::named_line_at), using(ir_body::proofs::Told::told))]
fn named_line(alloc: Global, tokens: &Tokens<'_>, from: usize) -> Result<(Line, usize), ItemFault>
    requires { from ≤ length tokens.now.tokens }
    ensures value { ReadsAs (λ line. (bare_line line, mentions_at tokens.now (line_sites line))) tokens.now result
        (named_line_at (left_from tokens.now from)) }
    ensures forth { IfOk result (λ read. (from < read.1) × (read.1 ≤ length tokens.now.tokens)) }
{
    let (value, at) = definition(tokens, from)?;
    let at = behind_sign(tokens, at, b'=')?;
    let ((operation, tail), at) = operation(alloc, tokens, at, true)?;
    let instr = named_instr(value, operation);
    Ok((Line { instr, tail }, at))
}

/// The instruction that gives a result.
fn named_instr(value: ValueId, operation: Option<Operation>) -> Option<Instr>
    ensures { result ≡ option_map (instr_of (Some value)) operation }
{
    match operation {
        Some(operation) => Some(instr_of(Some(value), operation)),
        None => None,
    }
}

/// An operation as an instruction.
fn instr_of(value: Option<ValueId>, operation: Operation) -> Instr
    ensures { result ≡ instr_of value operation }
{
    let Operation { op, words } = operation;
    Instr {
        result: value,
        op,
        words,
    }
}

/// An instruction with no name before it: where it gives a value, the value's id is the place where it begins.
#[tactic(auto, unfolding(crate::specs::Lines::unnamed_line_at))]
fn unnamed_line(alloc: Global, tokens: &Tokens<'_>, from: usize) -> Result<(Line, usize), ItemFault>
    requires within { from ≤ length tokens.now.tokens }
    requires nameless { said_at said_local tokens.now from ≡ None }
    ensures value { ReadsAs (λ line. (bare_line line, mentions_at tokens.now (line_sites line))) tokens.now result
        (unnamed_line_at (left_from tokens.now from)) }
    ensures forth { IfOk result (λ read. (from < read.1) × (read.1 ≤ length tokens.now.tokens)) }
{
    let ((operation, tail), at) = operation(alloc, tokens, from, false)?;
    let instr = numbered_instr(from as u64, operation);
    Ok((Line { instr, tail }, at))
}

/// The instruction, with this number for the value that it gives, if it gives one.
fn numbered_instr(number: u64, operation: Option<Operation>) -> Option<Instr>
    ensures { result ≡ option_map (with_number number) operation }
{
    match operation {
        Some(operation) => Some(with_number(number, operation)),
        None => None,
    }
}

fn with_number(number: u64, operation: Operation) -> Instr
    ensures { result ≡ with_number number operation }
{
    if gives_value(&operation.op) {
        instr_of(Some(ValueId(number)), operation)
    } else {
        instr_of(None, operation)
    }
}

/// Whether an operation gives a value.
fn gives_value(op: &Op) -> bool
    ensures { result ≡ gives_value op.now }
{
    match op {
        Op::Store { .. } => false,
        Op::Call { ret, .. } => !is_void(ret),
        _ => !op.is_terminator(),
    }
}

fn is_void(kind: &IrType) -> bool
    ensures { result ≡ is_void kind.now }
{
    matches!(kind, IrType::Void)
}

/// An operation with its attachments, or none where it is dropped; and how its passed-on words end, where they could
/// go on.
#[tactic(auto, unfolding(crate::specs::Lines::operation_at))]
fn operation(
    alloc: Global,
    tokens: &Tokens<'_>,
    from: usize,
    has_result: bool,
) -> Result<((Option<Operation>, Option<Ending>), usize), ItemFault>
    requires { from ≤ length tokens.now.tokens }
    ensures value { ReadsAs (λ p. (bare_read_operation p, mentions_at tokens.now (read_operation_sites p))) tokens.now
        result (operation_at has_result (left_from tokens.now from)) }
    ensures forth { IfOk result (λ read. (from < read.1) × (read.1 ≤ length tokens.now.tokens)) }
{
    if starts_call(tokens, from) {
        read_call(alloc, tokens, from, has_result)
    } else {
        plain(alloc, tokens, from, has_result)
    }
}

/// An operation but a call.
#[tactic(auto, unfolding(crate::specs::Lines::plain_at), using(ir_body::proofs::Told::told))]
fn plain(
    alloc: Global,
    tokens: &Tokens<'_>,
    from: usize,
    has_result: bool,
) -> Result<((Option<Operation>, Option<Ending>), usize), ItemFault>
    requires { from ≤ length tokens.now.tokens }
    ensures value { ReadsAs (λ p. (bare_read_operation p, mentions_at tokens.now (read_operation_sites p))) tokens.now
        result (plain_at has_result (left_from tokens.now from)) }
    ensures forth { IfOk result (λ read. (from < read.1) × (read.1 ≤ length tokens.now.tokens)) }
{
    let (operation, at) = read_op(alloc, tokens, from, has_result)?;
    Ok(((Some(operation), None), at))
}
