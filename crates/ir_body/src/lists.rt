//! Operations with a list behind commas, from behind their opcode, with the attachments behind them.

ghost use Rattle.std.specs.Prelude.{◌≡◌, ◌<◌, ◌≤◌, length, IfOk};
ghost use Rattle.ir_model.specs.Sites.{typed_sites, entry_sites};
ghost use Rattle.ir_text.specs.Sites.{bare_typed, bare_entry};
ghost use Rattle.ir_parts.specs.Reading.{left_from, punctuation_at, ◌▷◌, ReadsAs};
ghost use Rattle.ir_parts.specs.Places.{mentions_at};
ghost use Rattle.ir_body.specs.Operands.{typed_at};
ghost use Rattle.ir_body.specs.Lists.{indices_at, gep_at, entry_at, entries_at, phi_at};
ghost use Rattle.ir_body.specs.Views.{bare_operation, operation_sites, bare_indices, indices_sites, bare_entries, entries_sites};

use crate::flags::read_gep_flags;
use crate::operands::{read_block_name, read_operand, read_pointer, read_typed};
use crate::operation::Operation;
use ir_lex::Tokens;
use ir_model::{Op, PhiEntry, TypedOperand};
use ir_parts::{
    ItemFault, behind_sign, read_scalar_type, read_stored_type, skip_metadata, starts_part,
};
use sqlite_items::Items;
use std::alloc::Global;

/// Flags, a type, a pointer, and indices.
#[tactic(auto, unfolding(crate::specs::Lists::gep_at), using(crate::proofs::Told::told))]
pub(crate) fn read_gep(
    alloc: Global,
    tokens: &Tokens<'_>,
    from: usize,
) -> Result<(Operation, usize), ItemFault>
    requires { from ≤ length tokens.now.tokens }
    ensures value { ReadsAs (λ x. (bare_operation x, mentions_at tokens.now (operation_sites x))) tokens.now result
        (gep_at (left_from tokens.now from)) }
    ensures forth { IfOk result (λ read. (from < read.1) × (read.1 ≤ length tokens.now.tokens)) }
{
    let (inbounds, at) = read_gep_flags(tokens, from);
    let (kind, at) = read_stored_type(alloc, tokens, at)?;
    let at = behind_sign(tokens, at, b',')?;
    let (base, at) = read_pointer(tokens, at)?;
    let (indices, at) = read_indices(alloc, tokens, at)?;
    let op = Op::Gep {
        inbounds,
        kind,
        base,
        indices,
    };
    let words = Items::new(alloc);
    Ok((Operation { op, words }, at))
}

/// As many indices as stand there, each behind a comma, and attachments.
fn read_indices(
    alloc: Global,
    tokens: &Tokens<'_>,
    from: usize,
) -> Result<(Items<TypedOperand>, usize), ItemFault>
    requires { from ≤ length tokens.now.tokens }
    ensures value { ReadsAs (λ indices. (bare_indices indices, mentions_at tokens.now (indices_sites indices)))
        tokens.now result (indices_at (left_from tokens.now from)) }
    ensures forth { IfOk result (λ read. (from ≤ read.1) × (read.1 ≤ length tokens.now.tokens)) }
{
    let mut indices = Items::new(alloc);
    let mut at = from;
    'indices: while starts_part(tokens, at) {
        let (next, behind) = next_index(tokens, at)?;
        indices.push(next)?;
        at = behind;
    }
    let at = skip_metadata(alloc, tokens, at)?;
    Ok((indices, at))
}

/// A comma and an index.
fn next_index(tokens: &Tokens<'_>, from: usize) -> Result<(TypedOperand, usize), ItemFault>
    requires { from ≤ length tokens.now.tokens }
    ensures value { ReadsAs (λ typed. (bare_typed typed, mentions_at tokens.now (typed_sites typed))) tokens.now
        result ((punctuation_at 44 ▷ typed_at) (left_from tokens.now from)) }
    ensures forth { IfOk result (λ read. (from < read.1) × (read.1 ≤ length tokens.now.tokens)) }
{
    let at = behind_sign(tokens, from, b',')?;
    read_typed(tokens, at)
}

/// A type and entries.
#[tactic(auto, unfolding(crate::specs::Lists::phi_at), using(crate::proofs::Told::told))]
pub(crate) fn read_phi(
    alloc: Global,
    tokens: &Tokens<'_>,
    from: usize,
) -> Result<(Operation, usize), ItemFault>
    requires { from ≤ length tokens.now.tokens }
    ensures value { ReadsAs (λ x. (bare_operation x, mentions_at tokens.now (operation_sites x))) tokens.now result
        (phi_at (left_from tokens.now from)) }
    ensures forth { IfOk result (λ read. (from < read.1) × (read.1 ≤ length tokens.now.tokens)) }
{
    let (kind, at) = read_scalar_type(tokens, from)?;
    let (first, at) = read_entry(tokens, at)?;
    let (more, at) = more_entries(alloc, tokens, at)?;
    let mut entries = Items::new(alloc);
    entries.push(first)?;
    entries.append(more)?;
    let op = Op::Phi { kind, entries };
    let words = Items::new(alloc);
    Ok((Operation { op, words }, at))
}

/// An operand and a block in brackets.
#[tactic(auto, unfolding(crate::specs::Lists::entry_at), using(crate::proofs::Told::told))]
fn read_entry(tokens: &Tokens<'_>, from: usize) -> Result<(PhiEntry, usize), ItemFault>
    requires { from ≤ length tokens.now.tokens }
    ensures value { ReadsAs (λ entry. (bare_entry entry, mentions_at tokens.now (entry_sites entry))) tokens.now
        result (entry_at (left_from tokens.now from)) }
    ensures forth { IfOk result (λ read. (from < read.1) × (read.1 ≤ length tokens.now.tokens)) }
{
    let at = behind_sign(tokens, from, b'[')?;
    let (value, at) = read_operand(tokens, at)?;
    let at = behind_sign(tokens, at, b',')?;
    let (from, at) = read_block_name(tokens, at)?;
    let at = behind_sign(tokens, at, b']')?;
    Ok((PhiEntry { value, from }, at))
}

/// As many entries as stand there, each behind a comma, and attachments.
fn more_entries(
    alloc: Global,
    tokens: &Tokens<'_>,
    from: usize,
) -> Result<(Items<PhiEntry>, usize), ItemFault>
    requires { from ≤ length tokens.now.tokens }
    ensures value { ReadsAs (λ entries. (bare_entries entries, mentions_at tokens.now (entries_sites entries)))
        tokens.now result (entries_at (left_from tokens.now from)) }
    ensures forth { IfOk result (λ read. (from ≤ read.1) × (read.1 ≤ length tokens.now.tokens)) }
{
    let mut entries = Items::new(alloc);
    let mut at = from;
    'entries: while starts_part(tokens, at) {
        let (next, behind) = next_entry(tokens, at)?;
        entries.push(next)?;
        at = behind;
    }
    let at = skip_metadata(alloc, tokens, at)?;
    Ok((entries, at))
}

/// A comma and an entry.
fn next_entry(tokens: &Tokens<'_>, from: usize) -> Result<(PhiEntry, usize), ItemFault>
    requires { from ≤ length tokens.now.tokens }
    ensures value { ReadsAs (λ entry. (bare_entry entry, mentions_at tokens.now (entry_sites entry))) tokens.now
        result ((punctuation_at 44 ▷ entry_at) (left_from tokens.now from)) }
    ensures forth { IfOk result (λ read. (from < read.1) × (read.1 ≤ length tokens.now.tokens)) }
{
    let at = behind_sign(tokens, from, b',')?;
    read_entry(tokens, at)
}
