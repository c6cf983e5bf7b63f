//! Operations on memory that may have an alignment, from behind their opcode, with the attachments behind them.

ghost use Rattle.std.specs.Prelude.{◌≡◌, ◌+◌, ◌^◌, ◌<◌, ◌≤◌, length, IfOk, IfErr, IfSome, IsTrue};
ghost use Rattle.std.specs.Option.{option_map};
ghost use Rattle.ir_parts.specs.declared.fault.ItemFault.TheVariants.{OutOfMemory};
ghost use Rattle.ir_parts.specs.Reading.{left_from, first_given, Reads, ReadsAs};
ghost use Rattle.ir_parts.specs.Places.{mentions_at};
ghost use Rattle.ir_body.specs.Aligned.{numeral_of, numeral_at, align_text, aligned, align_at, alignment_at, alloca_at, load_at, store_at};
ghost use Rattle.ir_body.specs.Views.{bare_operation, operation_sites};

use crate::operands::{read_operand, read_pointer};
use crate::operation::Operation;
use ir_lex::{TokenKind, Tokens};
use ir_model::{Op, Text};
use ir_parts::{
    ItemFault, behind_keyword, behind_sign, next, read_int_type, read_stored_type, skip_metadata,
    starts_part,
};
use sqlite_items::Items;
use std::alloc::Global;

/// `align n`, as its text.
#[tactic(auto, unfolding(crate::specs::Aligned::align_at))]
fn align(alloc: Global, tokens: &Tokens<'_>, from: usize) -> Result<(Text, usize), ItemFault>
    requires { from ≤ length tokens.now.tokens }
    ensures value { Reads tokens.now result (align_at (left_from tokens.now from)) }
    ensures forth { IfOk result (λ read. (from < read.1) × (read.1 ≤ length tokens.now.tokens)) }
{
    let at = behind_keyword(tokens, from, b"align")?;
    let (numeral, at) = numeral(alloc, tokens, at)?;
    let text = align_text(alloc, numeral.as_slice())?;
    Ok((text, at))
}

fn align_text(alloc: Global, numeral: &[u8]) -> Result<Text, ItemFault>
    ensures text { IfOk result (λ text. text ≡ align_text numeral.now) }
    ensures large { IfErr result (λ fault. fault ≡ OutOfMemory) }
{
    let mut text = Vec::from_slice(alloc, b"align ")?;
    text.extend_from_slice(numeral)?;
    Ok(Items::from_vec(text))
}

/// The text of a numeral.
#[tactic(auto, unfolding(crate::specs::Aligned::numeral_at))]
fn numeral(alloc: Global, tokens: &Tokens<'_>, from: usize) -> Result<(Text, usize), ItemFault>
    requires { from ≤ length tokens.now.tokens }
    ensures value { Reads tokens.now result (numeral_at (left_from tokens.now from)) }
    ensures forth { IfOk result (λ read. (from < read.1) × (read.1 ≤ length tokens.now.tokens)) }
{
    match first_numeral(alloc, tokens, from)? {
        Some(text) => Ok((text, from + 1)),
        None => Err(ItemFault::CannotGoOn { at_token: from }),
    }
}

fn first_numeral(alloc: Global, tokens: &Tokens<'_>, from: usize) -> Result<Option<Text>, ItemFault>
    ensures value { IfOk result (λ found. first_given numeral_of (left_from tokens.now from) ≡ found) }
    ensures within { IfOk result (λ found.
        IfSome found (λ _. (from < length tokens.now.tokens) × (from + 1 < 2 ^ 64))) }
    ensures large { IfErr result (λ fault. fault ≡ OutOfMemory) }
{
    match next(tokens, from) {
        Some((TokenKind::Numeral, text)) => {
            let text = Items::from_slice(alloc, text)?;
            Ok(Some(text))
        }
        _ => Ok(None),
    }
}

/// An alignment behind a comma, as its text, which is empty where there is none, and attachments.
#[tactic(auto, unfolding(crate::specs::Aligned::alignment_at, ir_parts::specs::ListReading::parts_at))]
fn alignment(alloc: Global, tokens: &Tokens<'_>, from: usize) -> Result<(Text, usize), ItemFault>
    requires { from ≤ length tokens.now.tokens }
    ensures value { Reads tokens.now result (alignment_at (left_from tokens.now from)) }
    ensures forth { IfOk result (λ read. (from ≤ read.1) × (read.1 ≤ length tokens.now.tokens)) }
{
    if starts_part(tokens, from) {
        let at = behind_sign(tokens, from, b',')?;
        let (text, at) = align(alloc, tokens, at)?;
        let at = skip_metadata(alloc, tokens, at)?;
        Ok((text, at))
    } else {
        let at = skip_metadata(alloc, tokens, from)?;
        Ok((Items::new(alloc), at))
    }
}

fn with_align(alloc: Global, op: Op, align: Text) -> Result<Operation, ItemFault>
    ensures made { IfOk result (λ operation. operation ≡ aligned op align) }
    ensures large { IfErr result (λ fault. fault ≡ OutOfMemory) }
{
    let mut words = Items::new(alloc);
    words.push(align)?;
    Ok(Operation { op, words })
}

/// A type, and maybe an alignment.
#[tactic(auto, unfolding(crate::specs::Aligned::alloca_at), using(crate::proofs::Told::told))]
pub(crate) fn read_alloca(
    alloc: Global,
    tokens: &Tokens<'_>,
    from: usize,
) -> Result<(Operation, usize), ItemFault>
    requires { from ≤ length tokens.now.tokens }
    ensures value { ReadsAs (λ x. (bare_operation x, mentions_at tokens.now (operation_sites x))) tokens.now result
        (alloca_at (left_from tokens.now from)) }
    ensures forth { IfOk result (λ read. (from < read.1) × (read.1 ≤ length tokens.now.tokens)) }
{
    let (kind, at) = read_stored_type(alloc, tokens, from)?;
    let (align, at) = alignment(alloc, tokens, at)?;
    let operation = with_align(alloc, Op::Alloca { kind }, align)?;
    Ok((operation, at))
}

/// A type of integers, a pointer, and maybe an alignment.
#[tactic(auto, unfolding(crate::specs::Aligned::load_at), using(crate::proofs::Told::told))]
pub(crate) fn read_load(
    alloc: Global,
    tokens: &Tokens<'_>,
    from: usize,
) -> Result<(Operation, usize), ItemFault>
    requires { from ≤ length tokens.now.tokens }
    ensures value { ReadsAs (λ x. (bare_operation x, mentions_at tokens.now (operation_sites x))) tokens.now result
        (load_at (left_from tokens.now from)) }
    ensures forth { IfOk result (λ read. (from < read.1) × (read.1 ≤ length tokens.now.tokens)) }
{
    let (kind, at) = read_int_type(tokens, from)?;
    let at = behind_sign(tokens, at, b',')?;
    let (pointer, at) = read_pointer(tokens, at)?;
    let (align, at) = alignment(alloc, tokens, at)?;
    let op = Op::Load {
        kind,
        from: pointer,
    };
    let operation = with_align(alloc, op, align)?;
    Ok((operation, at))
}

/// A type of integers, an operand, a pointer, and maybe an alignment.
#[tactic(auto, unfolding(crate::specs::Aligned::store_at), using(crate::proofs::Told::told))]
pub(crate) fn read_store(
    alloc: Global,
    tokens: &Tokens<'_>,
    from: usize,
) -> Result<(Operation, usize), ItemFault>
    requires { from ≤ length tokens.now.tokens }
    ensures value { ReadsAs (λ x. (bare_operation x, mentions_at tokens.now (operation_sites x))) tokens.now result
        (store_at (left_from tokens.now from)) }
    ensures forth { IfOk result (λ read. (from < read.1) × (read.1 ≤ length tokens.now.tokens)) }
{
    let (kind, at) = read_int_type(tokens, from)?;
    let (value, at) = read_operand(tokens, at)?;
    let at = behind_sign(tokens, at, b',')?;
    let (to, at) = read_pointer(tokens, at)?;
    let (align, at) = alignment(alloc, tokens, at)?;
    let operation = with_align(alloc, Op::Store { kind, value, to }, align)?;
    Ok((operation, at))
}
