//! Entries of phis, which are the edges into their blocks.

ghost use Rattle.std.specs.Prelude.{◌≡◌, ◌==◌, ◌&&◌, ℕ, List, Some, None, if◌then◌else◌, map, nat_eq};
ghost use Rattle.std.specs.Prelude.{slice_get, unwrap_or, IfOk, OnOk};
ghost use Rattle.std.specs.Option.{option_or};
ghost use Rattle.indexmap.specs.IndexMap.{get};
ghost use Rattle.std.specs.List.Sorted.{IsPermutation, IsSorted};
ghost use Rattle.std.specs.Ordering.{nat_cmp};
ghost use Rattle.scev_base.specs.declared.ids.BlockId.{BlockId as AnyBlock};
ghost use Rattle.ir_model.specs.declared.function.Function.{Function as AnyFunction};
ghost use Rattle.ir_model.specs.WellMade.{HasIds};
ghost use Rattle.flow_graph.specs.EdgeLists.{AreEdgesOf};
ghost use Rattle.ir_rules.specs.Spots.{block_spots};
ghost use Rattle.ir_rules.specs.Blocks as blocks;
ghost use Rattle.ir_check.specs.Entries.{named_blocks, bad_places};

use crate::cases::same_number;
use crate::instrs::place_of;
use flow_graph::Edges;
use indexmap::IndexMap;
use ir_model::{Block, Function, IrType, Op, Operand, PhiEntry, Place};
use scev_base::BlockId;
use std::alloc::{AllocError, Global};

/// The first phi whose entries aren't those of its block's edges.
pub(crate) fn bad_entries(alloc: Global, f: &Function) -> Result<Option<Place>, AllocError>
    requires ids { HasIds f.now }
    ensures { IfOk result (λ found. found ≡ slice_get (blocks.bad_entries f.now) 0) }
{
    let edges = Edges::new(alloc, f)?;
    for block in f.blocks.as_slice() {
        match bad_in_block(alloc, &edges, block)? {
            Some(place) => return Ok(Some(place)),
            None => {}
        }
    }
    Ok(None)
}

/// The first such phi of a block.
fn bad_in_block(alloc: Global, edges: &Edges, block: &Block) -> Result<Option<Place>, AllocError>
    ensures { (f : AnyFunction) → AreEdgesOf f edges.now →
        IfOk result (λ found. found ≡ slice_get (bad_places f (block_spots block.now)) 0) }
{
    let sources = sorted(alloc, edges.preds(block.id))?;
    for instr in block.instrs.as_slice() {
        if !op_fits(alloc, &instr.op, sources.as_slice())? {
            return Ok(Some(place_of(block.id, instr)));
        }
    }
    Ok(None)
}

/// The numbers of blocks, in order.
fn sorted(alloc: Global, blocks: &[BlockId]) -> Result<Vec<u64>, AllocError>
    ensures moved { IfOk result (λ sorted. IsPermutation (map (λ (b : AnyBlock). b.0) blocks.now) sorted.items) }
    ensures sorted { IfOk result (λ sorted. IsSorted nat_cmp sorted.items) }
{
    let mut sorted = Vec::new(alloc);
    for block in blocks {
        sorted.push(block.0)?;
    }
    sorted.sort_unstable();
    Ok(sorted)
}

/// Whether an operation is no phi, or its entries are the edges into its block, of which `sources` are in order.
fn op_fits(alloc: Global, op: &Op, sources: &[u64]) -> Result<bool, AllocError>
    requires sorted { IsSorted nat_cmp sources.now }
    ensures { (f : AnyFunction) (b : ℕ) → IsPermutation (blocks.incoming f b) sources.now →
        IfOk result (λ fits. fits ≡ blocks.entries_fit f b op.now) }
{
    match op {
        Op::Phi { kind, entries } => entries_fit(alloc, kind, entries.as_slice(), sources),
        _ => Ok(true),
    }
}

/// Whether the entries of a phi are one for each edge, and those from one block have one operand.
fn entries_fit(
    alloc: Global,
    kind: &IrType,
    entries: &[PhiEntry],
    sources: &[u64],
) -> Result<bool, AllocError>
    requires sorted { IsSorted nat_cmp sources.now }
    ensures { (ns : List ℕ) → IsPermutation ns sources.now → IfOk result (λ fit.
        fit ≡ (blocks.same_numbers (named_blocks entries.now) ns && blocks.entries_agree kind.now entries.now)) }
{
    let named = sorted_names(alloc, entries)?;
    if named.as_slice() != sources {
        return Ok(false);
    }
    entries_agree(alloc, kind, entries)
}

/// The numbers of the blocks that entries name, in order.
fn sorted_names(alloc: Global, entries: &[PhiEntry]) -> Result<Vec<u64>, AllocError>
    ensures moved { IfOk result (λ sorted. IsPermutation (named_blocks entries.now) sorted.items) }
    ensures sorted { IfOk result (λ sorted. IsSorted nat_cmp sorted.items) }
{
    let mut named = Vec::new(alloc);
    for entry in entries {
        named.push(entry.from.0)?;
    }
    named.sort_unstable();
    Ok(named)
}

/// Whether entries from one block have one operand: each that of the first.
fn entries_agree(alloc: Global, kind: &IrType, entries: &[PhiEntry]) -> Result<bool, AllocError>
    ensures { IfOk result (λ agree. agree ≡ blocks.entries_agree kind.now entries.now) }
{
    let mut firsts: IndexMap<u64, Operand> = IndexMap::new(alloc);
    for entry in entries {
        let first = note_first(&mut firsts, entry)?;
        if !same_operand(kind, &first, &entry.value) {
            return Ok(false);
        }
    }
    Ok(true)
}

/// The operand of the first entry from the block of an entry, which is noted where it is that.
fn note_first(firsts: &mut IndexMap<u64, Operand>, entry: &PhiEntry) -> Result<Operand, AllocError>
    ensures first { IfOk result (λ first.
        first ≡ unwrap_or (get nat_eq firsts.old entry.now.from.0) entry.now.value) }
    ensures noted { OnOk result ((q : ℕ) → get nat_eq firsts.new q ≡ option_or (get nat_eq firsts.old q)
        (if entry.now.from.0 == q then Some entry.now.value else None)) }
{
    match firsts.get(&entry.from.0) {
        Some(first) => Ok(*first),
        None => {
            firsts.insert(entry.from.0, entry.value)?;
            Ok(entry.value)
        }
    }
}

/// Whether two operands of a type are one; numerals are read modulo 2^w.
fn same_operand(kind: &IrType, left: &Operand, right: &Operand) -> bool
    ensures { result ≡ blocks.same_operand kind.now left.now right.now }
{
    match (left, right) {
        (Operand::Reg(v), Operand::Reg(w)) => v.0 == w.0,
        (Operand::Num(m), Operand::Num(n)) => same_number(kind, *m, *n),
        (Operand::Global(g), Operand::Global(h)) => g == h,
        (Operand::Null, Operand::Null)
        | (Operand::Undef, Operand::Undef)
        | (Operand::Poison, Operand::Poison) => true,
        _ => false,
    }
}
