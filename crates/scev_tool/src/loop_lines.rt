//! The lines of a report on a function's loops.

ghost use Rattle.std.specs.Prelude.{◌≡◌, ◌++◌, ◌<◌, ◌^◌, ◌↔◌, ℕ, List, length, cond, slice_get, Some, None, IfSome};
ghost use Rattle.std.specs.Prelude.{IsTrue, OnOk, Contains};
ghost use Rattle.std.specs.Fmt.{signed_decimal};
ghost use Rattle.scev_base.specs.Residue.{reading};
ghost use Rattle.ir_model.specs.Shapes.{block_of, is_phi as is_of_phi};
ghost use Rattle.ir_meaning.specs.Thin.{IsThinFunction, AreThinInstrs};
ghost use Rattle.loop_regions.specs.OneBlock.{AreLoops};
ghost use Rattle.classify.specs.Definitions.{AreDefinitions};
ghost use Rattle.classify.specs.Recurrence.{IsAnswer, phis};
ghost use Rattle.ir_printer.specs.Shown.{shown};
ghost use Rattle.scev_tool.specs.Report.{AreLoopLines, IsPhiLine, InPieces, phi_line, loop_line, recurrence_text};
ghost use Rattle.scev_tool.specs.Report.{expression_text};

use classify::{Definitions, classify_phi};
use ir_model::{Block, Function, Instr};
use ir_printer::{Names, push_block_name, push_value_name};
use itoa::Buffer;
use loop_regions::LoopTable;
use scev_base::{BlockId, ValueId, Width, signed};
use std::alloc::AllocError;

/// The width of all integers of the thin forms.
const WORD: Width = Width { bits: 32 };

/// Appends the signed reading of a residue modulo 2^32.
fn push_residue(out: &mut Vec<u8>, n: u64) -> Result<(), AllocError>
    requires { n < 2 ^ 32 }
    ensures { OnOk result (out.new.items ≡ out.old.items ++ signed_decimal (reading 32 n)) }
{
    let mut buffer = Buffer::new();
    out.extend_from_slice(buffer.format(signed(n, WORD)).as_bytes())
}

/// Appends the expression `{first,+,step}<%header>`.
fn push_recurrence(
    out: &mut Vec<u8>,
    names: &Names<'_>,
    header: BlockId,
    first: u64,
    step: u64,
) -> Result<(), AllocError>
    requires first { first < 2 ^ 32 }
    requires step { step < 2 ^ 32 }
    ensures { OnOk result (out.new.items ≡ out.old.items ++ recurrence_text (shown names.now) header.0 (first, step)) }
{
    out.push(b'{')?;
    push_residue(out, first)?;
    out.extend_from_slice(b",+,")?;
    push_residue(out, step)?;
    out.extend_from_slice(b"}<")?;
    push_block_name(out, names, header)?;
    out.extend_from_slice(b">")
}

/// Appends a phi's expression: its recurrence, or its own name.
fn push_expression(
    out: &mut Vec<u8>,
    names: &Names<'_>,
    header: BlockId,
    p: ValueId,
    answer: Option<(u64, u64)>,
) -> Result<(), AllocError>
    requires small { IfSome answer (λ parts. (parts.0 < 2 ^ 32) × (parts.1 < 2 ^ 32)) }
    ensures { OnOk result (out.new.items ≡ out.old.items ++ expression_text (shown names.now) header.0 p.0 answer) }
{
    match answer {
        Some((first, step)) => push_recurrence(out, names, header, first, step),
        None => push_value_name(out, names, p),
    }
}

/// Appends the line of a phi.
fn push_phi(
    out: &mut Vec<u8>,
    names: &Names<'_>,
    header: BlockId,
    p: ValueId,
    answer: Option<(u64, u64)>,
) -> Result<(), AllocError>
    requires small { IfSome answer (λ parts. (parts.0 < 2 ^ 32) × (parts.1 < 2 ^ 32)) }
    ensures { OnOk result (out.new.items ≡ out.old.items ++ phi_line (shown names.now) header.0 p.0 answer) }
{
    out.extend_from_slice(b"; phi ")?;
    push_value_name(out, names, p)?;
    out.extend_from_slice(b" = ")?;
    push_expression(out, names, header, p, answer)?;
    out.extend_from_slice(b"\n")
}

/// The register of a phi; None of every other instruction.
fn phi_result(instr: &Instr) -> Option<ValueId>
    ensures { result ≡ cond (is_of_phi instr.now.op) instr.now.result None }
{
    if instr.op.is_phi() {
        instr.result
    } else {
        None
    }
}

/// Appends the lines of a block's phis.
fn push_phis(
    out: &mut Vec<u8>,
    names: &Names<'_>,
    f: &Function,
    table: &LoopTable,
    definitions: &Definitions,
    header: &Block,
) -> Result<(), AllocError>
    requires thin { IsThinFunction f.now }
    requires loops { AreLoops f.now table.now }
    requires definitions { AreDefinitions f.now definitions.now }
    requires header { Contains table.now header.now.id }
    requires block { block_of f.now header.now.id.0 ≡ Some header.now }
    requires instrs { AreThinInstrs (length f.now.values) (length f.now.labels) header.now.instrs }
    ensures { OnOk result ((lines : List ℕ) × InPieces (IsPhiLine (shown names.now) f.now header.now.id.0)
        (phis header.now.instrs) lines
        × (out.new.items ≡ out.old.items ++ lines)) }
{
    for instr in header.instrs.as_slice() {
        if let Some(p) = phi_result(instr) {
            let answer = classify_phi(f, table, definitions, p)?;
            push_phi(out, names, header.id, p, answer)?;
        }
    }
    Ok(())
}

/// Appends the lines of the loop with this header.
fn push_loop(
    out: &mut Vec<u8>,
    names: &Names<'_>,
    f: &Function,
    table: &LoopTable,
    definitions: &Definitions,
    header: &Block,
) -> Result<(), AllocError>
    requires thin { IsThinFunction f.now }
    requires loops { AreLoops f.now table.now }
    requires definitions { AreDefinitions f.now definitions.now }
    requires header { Contains table.now header.now.id }
    requires block { block_of f.now header.now.id.0 ≡ Some header.now }
    requires instrs { AreThinInstrs (length f.now.values) (length f.now.labels) header.now.instrs }
    ensures { OnOk result ((lines : List ℕ) × AreLoopLines (shown names.now) f.now header.now.id lines
        × (out.new.items ≡ out.old.items ++ lines)) }
{
    out.extend_from_slice(b"; loop ")?;
    push_block_name(out, names, header.id)?;
    out.extend_from_slice(b" depth 1\n")?;
    push_phis(out, names, f, table, definitions, header)
}

/// Whether the block stands at the place of the list.
fn is_at(blocks: &[BlockId], place: usize, block: BlockId) -> bool
    ensures { IsTrue result ↔ (slice_get blocks.now place ≡ Some block) }
{
    match blocks.get(place) {
        Some(other) => other.0 == block.0,
        None => false,
    }
}

/// Appends the lines of a function's loops. The headers stand in text order, so one walk over the blocks
/// meets them all.
pub fn push_loops(
    out: &mut Vec<u8>,
    names: &Names<'_>,
    f: &Function,
    table: &LoopTable,
    definitions: &Definitions,
) -> Result<(), AllocError>
    requires thin { IsThinFunction f.now }
    requires loops { AreLoops f.now table.now }
    requires definitions { AreDefinitions f.now definitions.now }
    ensures { OnOk result ((lines : List ℕ) × InPieces (AreLoopLines (shown names.now) f.now) table.now lines
        × (out.new.items ≡ out.old.items ++ lines)) }
{
    let headers = table.headers();
    let mut done = 0;
    for block in f.blocks.as_slice() {
        if is_at(headers, done, block.id) {
            push_loop(out, names, f, table, definitions, block)?;
            done += 1;
        }
    }
    Ok(())
}
