//! The words that instructions begin with.

ghost use Rattle.std.specs.Prelude.{◌≡◌, ◌+◌, ◌^◌, ◌<◌, ◌≤◌, length, IfOk, IfSome};
ghost use Rattle.ir_parts.specs.Reading.{left_from, first_given, begins, Reads};
ghost use Rattle.ir_body.specs.Opcodes.{begins_call, binary_opcode, value_opcode, memory_opcode, ending_opcode, opcode_of_text, opcode_of, opcode_at, fitting, may_have_result, predicate_of_text, predicate_of, predicate_at};

use ir_lex::{TokenKind, Tokens};
use ir_model::{BinOp, CastOp};
use ir_parts::{ItemFault, next, starts_keyword};
use scev_base::Pred;

/// What an operation begins with that is no call.
#[derive(Clone, Copy, Debug, PartialEq, Eq)]
pub(crate) enum Opcode {
    Binary(BinOp),
    Icmp,
    Cast(CastOp),
    Select,
    Phi,
    Freeze,
    Alloca,
    Load,
    Store,
    Gep,
    Br,
    Switch,
    Ret,
    Unreachable,
}

/// Whether a call begins there: with `tail`, `notail` or `call`.
pub fn starts_call(tokens: &Tokens<'_>, from: usize) -> bool
    ensures { result ≡ begins begins_call (left_from tokens.now from) }
{
    starts_keyword(tokens, from, b"tail")
        || starts_keyword(tokens, from, b"notail")
        || starts_keyword(tokens, from, b"call")
}

/// The opcode that stands there. Behind a result one that gives none is refused.
#[tactic(auto, unfolding(crate::specs::Opcodes::opcode_at))]
pub(crate) fn read_opcode(
    tokens: &Tokens<'_>,
    from: usize,
    has_result: bool,
) -> Result<(Opcode, usize), ItemFault>
    requires { from ≤ length tokens.now.tokens }
    ensures value { Reads tokens.now result (opcode_at has_result (left_from tokens.now from)) }
    ensures forth { IfOk result (λ read. (from < read.1) × (read.1 ≤ length tokens.now.tokens)) }
{
    match first_opcode(tokens, from, has_result) {
        Some(opcode) => Ok((opcode, from + 1)),
        None => Err(ItemFault::CannotGoOn { at_token: from }),
    }
}

#[tactic(auto, unfolding(crate::specs::Opcodes::opcode_of))]
fn first_opcode(tokens: &Tokens<'_>, from: usize, has_result: bool) -> Option<Opcode>
    ensures value { result ≡ first_given (opcode_of has_result) (left_from tokens.now from) }
    ensures within { IfSome result (λ _. (from < length tokens.now.tokens) × (from + 1 < 2 ^ 64)) }
{
    let (kind, text) = next(tokens, from)?;
    if kind != TokenKind::Word {
        return None;
    }
    let opcode = opcode_of(text)?;
    if has_result && !may_have_result(opcode) {
        None
    } else {
        Some(opcode)
    }
}

fn may_have_result(opcode: Opcode) -> bool
    ensures { result ≡ may_have_result opcode }
{
    !matches!(
        opcode,
        Opcode::Store | Opcode::Br | Opcode::Switch | Opcode::Ret | Opcode::Unreachable
    )
}

#[tactic(auto, unfolding(crate::specs::Opcodes::opcode_of_text))]
fn opcode_of(text: &[u8]) -> Option<Opcode>
    ensures { result ≡ opcode_of_text text.now }
{
    if let Some(opcode) = binary_opcode(text) {
        return Some(opcode);
    }
    if let Some(opcode) = value_opcode(text) {
        return Some(opcode);
    }
    if let Some(opcode) = memory_opcode(text) {
        return Some(opcode);
    }
    ending_opcode(text)
}

#[tactic(auto, unfolding(crate::specs::Opcodes::binary_opcode))]
fn binary_opcode(text: &[u8]) -> Option<Opcode>
    ensures { result ≡ binary_opcode text.now }
{
    match text {
        b"add" => Some(Opcode::Binary(BinOp::Add)),
        b"sub" => Some(Opcode::Binary(BinOp::Sub)),
        b"mul" => Some(Opcode::Binary(BinOp::Mul)),
        b"shl" => Some(Opcode::Binary(BinOp::Shl)),
        b"udiv" => Some(Opcode::Binary(BinOp::Udiv)),
        b"sdiv" => Some(Opcode::Binary(BinOp::Sdiv)),
        b"lshr" => Some(Opcode::Binary(BinOp::Lshr)),
        b"ashr" => Some(Opcode::Binary(BinOp::Ashr)),
        b"urem" => Some(Opcode::Binary(BinOp::Urem)),
        b"srem" => Some(Opcode::Binary(BinOp::Srem)),
        b"and" => Some(Opcode::Binary(BinOp::And)),
        b"xor" => Some(Opcode::Binary(BinOp::Xor)),
        b"or" => Some(Opcode::Binary(BinOp::Or)),
        _ => None,
    }
}

#[tactic(auto, unfolding(crate::specs::Opcodes::value_opcode))]
fn value_opcode(text: &[u8]) -> Option<Opcode>
    ensures { result ≡ value_opcode text.now }
{
    if text == b"icmp".as_slice() {
        Some(Opcode::Icmp)
    } else if text == b"zext".as_slice() {
        Some(Opcode::Cast(CastOp::Zext))
    } else if text == b"sext".as_slice() {
        Some(Opcode::Cast(CastOp::Sext))
    } else if text == b"trunc".as_slice() {
        Some(Opcode::Cast(CastOp::Trunc))
    } else if text == b"select".as_slice() {
        Some(Opcode::Select)
    } else if text == b"phi".as_slice() {
        Some(Opcode::Phi)
    } else if text == b"freeze".as_slice() {
        Some(Opcode::Freeze)
    } else {
        None
    }
}

#[tactic(auto, unfolding(crate::specs::Opcodes::memory_opcode))]
fn memory_opcode(text: &[u8]) -> Option<Opcode>
    ensures { result ≡ memory_opcode text.now }
{
    if text == b"alloca".as_slice() {
        Some(Opcode::Alloca)
    } else if text == b"load".as_slice() {
        Some(Opcode::Load)
    } else if text == b"store".as_slice() {
        Some(Opcode::Store)
    } else if text == b"getelementptr".as_slice() {
        Some(Opcode::Gep)
    } else {
        None
    }
}

#[tactic(auto, unfolding(crate::specs::Opcodes::ending_opcode))]
fn ending_opcode(text: &[u8]) -> Option<Opcode>
    ensures { result ≡ ending_opcode text.now }
{
    if text == b"br".as_slice() {
        Some(Opcode::Br)
    } else if text == b"switch".as_slice() {
        Some(Opcode::Switch)
    } else if text == b"ret".as_slice() {
        Some(Opcode::Ret)
    } else if text == b"unreachable".as_slice() {
        Some(Opcode::Unreachable)
    } else {
        None
    }
}

/// The predicate that stands there.
#[tactic(auto, unfolding(crate::specs::Opcodes::predicate_at))]
pub(crate) fn read_predicate(tokens: &Tokens<'_>, from: usize) -> Result<(Pred, usize), ItemFault>
    requires { from ≤ length tokens.now.tokens }
    ensures value { Reads tokens.now result (predicate_at (left_from tokens.now from)) }
    ensures forth { IfOk result (λ read. (from < read.1) × (read.1 ≤ length tokens.now.tokens)) }
{
    match first_predicate(tokens, from) {
        Some(predicate) => Ok((predicate, from + 1)),
        None => Err(ItemFault::CannotGoOn { at_token: from }),
    }
}

#[tactic(auto, unfolding(crate::specs::Opcodes::predicate_of))]
fn first_predicate(tokens: &Tokens<'_>, from: usize) -> Option<Pred>
    ensures value { result ≡ first_given predicate_of (left_from tokens.now from) }
    ensures within { IfSome result (λ _. (from < length tokens.now.tokens) × (from + 1 < 2 ^ 64)) }
{
    match next(tokens, from) {
        Some((TokenKind::Word, text)) => predicate_of(text),
        _ => None,
    }
}

#[tactic(auto, unfolding(crate::specs::Opcodes::predicate_of_text))]
fn predicate_of(text: &[u8]) -> Option<Pred>
    ensures { result ≡ predicate_of_text text.now }
{
    match text {
        b"eq" => Some(Pred::Eq),
        b"ne" => Some(Pred::Ne),
        b"ugt" => Some(Pred::Ugt),
        b"uge" => Some(Pred::Uge),
        b"ult" => Some(Pred::Ult),
        b"ule" => Some(Pred::Ule),
        b"sgt" => Some(Pred::Sgt),
        b"sge" => Some(Pred::Sge),
        b"slt" => Some(Pred::Slt),
        b"sle" => Some(Pred::Sle),
        _ => None,
    }
}
