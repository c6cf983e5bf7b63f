//! Calls.

ghost use Rattle.std.specs.Prelude.{◌≡◌, ◌<◌, ◌≤◌, length, IfOk, if◌then◌else◌, Some, None};
ghost use Rattle.ir_parts.specs.Reading.{left_from, one_at, Reads, ReadsAs};
ghost use Rattle.ir_parts.specs.Places.{mentions_at};
ghost use Rattle.ir_functions.specs.Silent.{tail_at, head_at};
ghost use Rattle.ir_functions.specs.Calls.{callee_named, callee_of, ended_at, dropped_at, call_of, called_at, call_at};
ghost use Rattle.ir_functions.specs.Views.{bare_read_operation, read_operation_sites};

use crate::argument_list::{Arguments, read_arguments};
use ir_body::{Operation, read_flag};
use ir_grammar::{is_dropped_name, is_intrinsic};
use ir_lex::Tokens;
use ir_model::{IrType, MinMax, Op, Text};
use ir_parts::{
    Ending, ItemFault, behind_keyword, behind_sign, parentheses, read_global_name,
    read_returned_type, skip_metadata, text_between, words,
};
use sqlite_items::Items;
use std::alloc::{AllocError, Global};

/// What stands before the callee of a call: the texts of `tail` and `notail` and of the passed-on words, and the type
/// of what is returned.
#[derive(Drop)]
pub(crate) struct CallHead {
    pub tail: Text,
    pub before: Text,
    pub ret: IrType,
}

/// `tail` and `notail`, `call`, passed-on words and a type.
#[tactic(auto, unfolding(crate::specs::Silent::head_at))]
pub(crate) fn read_head(
    alloc: Global,
    tokens: &Tokens<'_>,
    from: usize,
) -> Result<(CallHead, usize), ItemFault>
    requires { from ≤ length tokens.now.tokens }
    ensures value { Reads tokens.now result (head_at (left_from tokens.now from)) }
    ensures forth { IfOk result (λ read. (from < read.1) × (read.1 ≤ length tokens.now.tokens)) }
{
    let (tail, at) = read_tail(alloc, tokens, from)?;
    let at = behind_keyword(tokens, at, b"call")?;
    let ((_, before), at) = words(alloc, tokens, at)?;
    let (ret, at) = read_returned_type(tokens, at)?;
    Ok((CallHead { tail, before, ret }, at))
}

/// The text of `tail` and `notail`, each where it is there.
#[tactic(auto, unfolding(crate::specs::Silent::tail_at))]
fn read_tail(alloc: Global, tokens: &Tokens<'_>, from: usize) -> Result<(Text, usize), ItemFault>
    requires { from ≤ length tokens.now.tokens }
    ensures value { Reads tokens.now result (tail_at (left_from tokens.now from)) }
    ensures forth { IfOk result (λ read. (from ≤ read.1) × (read.1 ≤ length tokens.now.tokens)) }
{
    let (_, at) = read_flag(tokens, from, b"tail");
    let (_, at) = read_flag(tokens, at, b"notail");
    let text = text_between(alloc, tokens, from, at)?;
    Ok((text, at))
}

/// The callee of a call: one whose calls are dropped, or another by its name.
#[derive(Drop)]
pub(crate) enum Callee {
    Dropped,
    Named(Text),
}

/// The callee that a name is.
fn callee_named(has_result: bool, name: Text) -> Option<Callee>
    ensures { result ≡ callee_named has_result name }
{
    if is_dropped_name(name.as_slice()) {
        return if has_result {
            None
        } else {
            Some(Callee::Dropped)
        };
    }
    if !is_intrinsic(name.as_slice()) || MinMax::named(name.as_slice()).is_some() {
        Some(Callee::Named(name))
    } else {
        None
    }
}

/// The callee of a call. A fault stands at a name that may not be called.
pub(crate) fn read_callee(
    alloc: Global,
    tokens: &Tokens<'_>,
    from: usize,
    has_result: bool,
) -> Result<(Callee, usize), ItemFault>
    requires { from ≤ length tokens.now.tokens }
    ensures value { Reads tokens.now result (one_at (callee_of has_result) (left_from tokens.now from)) }
    ensures forth { IfOk result (λ read. (from < read.1) × (read.1 ≤ length tokens.now.tokens)) }
{
    let (name, at) = read_global_name(alloc, tokens, from)?;
    match callee_named(has_result, name) {
        Some(callee) => Ok((callee, at)),
        None => Err(ItemFault::CannotGoOn { at_token: from }),
    }
}

/// The text of passed-on words behind a call, and how they end where no attachment stands behind them; and the place
/// behind the attachments.
fn read_behind(
    alloc: Global,
    tokens: &Tokens<'_>,
    from: usize,
) -> Result<((Text, Option<Ending>), usize), ItemFault>
    requires { from ≤ length tokens.now.tokens }
    ensures value { Reads tokens.now result (ended_at (left_from tokens.now from)) }
    ensures forth { IfOk result (λ read. (from ≤ read.1) × (read.1 ≤ length tokens.now.tokens)) }
{
    let ((said, text), end) = words(alloc, tokens, from)?;
    let at = skip_metadata(alloc, tokens, end)?;
    let tail = ending_if(at == end, said.ending);
    Ok(((text, tail), at))
}

fn ending_if(alone: bool, ending: Ending) -> Option<Ending>
    ensures { result ≡ (if alone then Some ending else None) }
{
    if alone { Some(ending) } else { None }
}

/// A call that is dropped, from behind its callee.
#[tactic(auto, unfolding(crate::specs::Calls::dropped_at), using(ir_body::proofs::Told::told))]
fn dropped(
    alloc: Global,
    tokens: &Tokens<'_>,
    from: usize,
) -> Result<((Option<Operation>, Option<Ending>), usize), ItemFault>
    requires { from ≤ length tokens.now.tokens }
    ensures value { ReadsAs (λ p. (bare_read_operation p, mentions_at tokens.now (read_operation_sites p))) tokens.now
        result (dropped_at (left_from tokens.now from)) }
    ensures forth { IfOk result (λ read. (from < read.1) × (read.1 ≤ length tokens.now.tokens)) }
{
    let at = parentheses(alloc, tokens, from)?;
    let ((_, tail), at) = read_behind(alloc, tokens, at)?;
    Ok(((None, tail), at))
}

/// A call of a function that is named, from behind its callee.
#[tactic(auto, unfolding(crate::specs::Calls::called_at), using(ir_body::proofs::Told::told))]
fn called(
    alloc: Global,
    tokens: &Tokens<'_>,
    from: usize,
    head: CallHead,
    name: Text,
) -> Result<((Option<Operation>, Option<Ending>), usize), ItemFault>
    requires { from ≤ length tokens.now.tokens }
    ensures value { ReadsAs (λ p. (bare_read_operation p, mentions_at tokens.now (read_operation_sites p))) tokens.now
        result (called_at head name (left_from tokens.now from)) }
    ensures forth { IfOk result (λ read. (from < read.1) × (read.1 ≤ length tokens.now.tokens)) }
{
    let at = behind_sign(tokens, from, b'(')?;
    let (args, at) = read_arguments(alloc, tokens, at)?;
    let ((after, tail), at) = read_behind(alloc, tokens, at)?;
    let operation = call_of(alloc, head, name, args, after)?;
    Ok(((Some(operation), tail), at))
}

/// The call, with the texts of its passed-on words in order.
fn call_of(
    alloc: Global,
    head: CallHead,
    name: Text,
    args: Arguments,
    after: Text,
) -> Result<Operation, AllocError>
    ensures { IfOk result (λ operation. operation ≡ call_of head name args after) }
{
    let mut words = Items::new(alloc);
    words.push(head.tail)?;
    words.push(head.before)?;
    words.append(args.words)?;
    words.push(after)?;
    let op = Op::Call {
        ret: head.ret,
        callee: name,
        args: args.typed,
    };
    Ok(Operation { op, words })
}

/// A call, or none where it is dropped; and how the passed-on words behind it end, where no attachment stands there.
#[tactic(auto, unfolding(crate::specs::Calls::call_at), using(ir_body::proofs::Told::told))]
pub(crate) fn read_call(
    alloc: Global,
    tokens: &Tokens<'_>,
    from: usize,
    has_result: bool,
) -> Result<((Option<Operation>, Option<Ending>), usize), ItemFault>
    requires { from ≤ length tokens.now.tokens }
    ensures value { ReadsAs (λ p. (bare_read_operation p, mentions_at tokens.now (read_operation_sites p))) tokens.now
        result (call_at has_result (left_from tokens.now from)) }
    ensures forth { IfOk result (λ read. (from < read.1) × (read.1 ≤ length tokens.now.tokens)) }
{
    let (head, at) = read_head(alloc, tokens, from)?;
    let (callee, at) = read_callee(alloc, tokens, at, has_result)?;
    match callee {
        Callee::Dropped => dropped(alloc, tokens, at),
        Callee::Named(name) => called(alloc, tokens, at, head, name),
    }
}
