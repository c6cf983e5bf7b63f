//! Limits of size.

ghost use Rattle.std.specs.Prelude.{◌≡◌, ◌≤◌, ◌&&◌, nat_lt, slice_get};
ghost use Rattle.ir_rules.specs.Limits as limits;
ghost use Rattle.ir_check.specs.Instrs.{capped};

use crate::instrs::place_of;
use ir_model::{Block, Function, Instr, IrType, Op, Place};
use scev_base::BlockId;

/// The most dimensions of an array.
const DIMENSIONS: usize = 8;

/// The most bytes of an array.
const ARRAY_BYTES: u128 = 2_147_483_648;

/// The most blocks of a function.
const BLOCKS: usize = 1024;

/// The most instructions of a function.
const INSTRS: usize = 8192;

/// The first block or instruction of a function that is past a limit.
#[tactic(auto, using(crate::proofs::FirstPlaces::rest_at, crate::proofs::LimitLemmas::block_steps))]
pub(crate) fn past_limit(f: &Function) -> Option<Place>
    ensures { result ≡ slice_get (limits.past_limits f.now) 0 }
{
    let mut instrs = 0;
    for (at, block) in f.blocks.as_slice().iter().enumerate() {
        if at >= BLOCKS {
            return Some(Place::BlockAt(block.id));
        }
        match past_in(block.id, instrs, block.instrs.as_slice()) {
            Some(place) => return Some(place),
            None => {}
        }
        instrs += block.instrs.len();
    }
    None
}

/// The first instruction of a block that is past a limit, where so many stand before the block.
#[tactic(auto, using(crate::proofs::FirstPlaces::rest_at, crate::proofs::LimitLemmas::instr_steps))]
fn past_in(b: BlockId, before: usize, instrs: &[Instr]) -> Option<Place>
    requires { before ≤ 8192 }
    ensures { result ≡ slice_get (limits.instrs_past b.0 before instrs.now) 0 }
{
    for (at, instr) in instrs.iter().enumerate() {
        if !may_stand(before + at, &instr.op) {
            return Some(place_of(b, instr));
        }
    }
    None
}

/// Whether an operation may stand behind so many instructions.
fn may_stand(before: usize, op: &Op) -> bool
    ensures { result ≡ (nat_lt before limits.instr_limit && limits.types_within op.now) }
{
    before < INSTRS && types_within(op)
}

/// Whether the types that an operation lays out in memory are within the limits.
fn types_within(op: &Op) -> bool
    ensures { result ≡ limits.types_within op.now }
{
    match op {
        Op::Alloca { kind } | Op::Gep { kind, .. } => is_within(kind),
        _ => true,
    }
}

/// Whether an array has at most 8 dimensions and 2^31 bytes; each other type is within the limits.
pub(crate) fn is_within(kind: &IrType) -> bool
    ensures { result ≡ limits.is_within kind.now }
{
    match kind {
        IrType::Array(dims, width) => {
            dims.len() <= DIMENSIONS && capped_size(dims.as_slice(), *width) <= ARRAY_BYTES
        }
        _ => true,
    }
}

/// The bytes of an array, where they are at most 2^31; more than 2^31, where they are.
fn capped_size(dims: &[u64], width: u32) -> u128
    ensures { result ≡ capped (limits.array_size dims.now width) }
{
    let mut size = int_size(width);
    for dim in dims {
        size = (size * u128::from(*dim)).min(ARRAY_BYTES + 1);
    }
    size
}

/// The bytes of an integer in memory.
fn int_size(width: u32) -> u128
    ensures { result ≡ limits.int_size width }
{
    match width {
        0..=8 => 1,
        9..=16 => 2,
        17..=32 => 4,
        _ => 8,
    }
}
