//! Names that are used and not defined.

ghost use Rattle.std.specs.Prelude.{◌≡◌, [], ◌∷◌, slice_get};
ghost use Rattle.std.specs.List.{flat_map};
ghost use Rattle.ir_model.specs.declared.op.Case.{Case};
ghost use Rattle.ir_model.specs.declared.signature.Signatures.{Signatures};
ghost use Rattle.ir_model.specs.Sites.{UsesBlock, operand_sites, typed_sites, entry_sites, op_sites};
ghost use Rattle.ir_rules.specs.Names as names;
ghost use Rattle.ir_check.specs.Definitions.{Defines};
ghost use Rattle.ir_check.specs.Undefined.{first_at, undefined_block};

use crate::defined::Defined;
use crate::instrs::place_of;
use ir_model::{Block, Case, Function, Instr, Op, Operand, PhiEntry, Place, TypedOperand};
use scev_base::BlockId;

/// What an instruction may name: the values and blocks that are defined, so many globals, and its own place.
#[derive(Drop)]
struct Scope<'a> {
    defined: &'a Defined,
    globals: u64,
    block: BlockId,
    own: Place,
}

/// The first use of a name that isn't defined, where the rows tell what the function defines.
pub(crate) fn first_undefined(defined: &Defined, globals: u64, f: &Function) -> Option<Place>
    requires { Defines defined.now f.now }
    ensures { (signatures : Signatures) → signatures.globals ≡ globals
        → result ≡ slice_get (names.undefined_names signatures f.now) 0 }
{
    for block in f.blocks.as_slice() {
        match undefined_in_block(defined, globals, block) {
            Some(place) => return Some(place),
            None => {}
        }
    }
    None
}

/// The first such use of a block.
fn undefined_in_block(defined: &Defined, globals: u64, block: &Block) -> Option<Place>
    ensures { result ≡ slice_get (undefined_block defined.now globals block.now) 0 }
{
    for instr in block.instrs.as_slice() {
        let scope = Scope {
            defined,
            globals,
            block: block.id,
            own: place_of(block.id, instr),
        };
        match undefined_in_op(&scope, &instr.op) {
            Some(place) => return Some(place),
            None => {}
        }
    }
    None
}

/// The first such use of an operation, in text order.
#[tactic(auto, using(crate::proofs::UndefinedSites::site_lists))]
fn undefined_in_op(scope: &Scope<'_>, op: &Op) -> Option<Place>
    ensures { result ≡ first_at scope.now (op_sites op.now) }
{
    match op {
        Op::Binary { left, right, .. } | Op::Icmp { left, right, .. } => {
            operand(scope, left).or(operand(scope, right))
        }
        Op::Cast { value, .. } | Op::Freeze { value, .. } => operand(scope, value),
        Op::Select { cond, yes, no } => {
            operand(scope, cond).or(operand(scope, &yes.value).or(operand(scope, &no.value)))
        }
        Op::Phi { entries, .. } => in_entries(scope, entries.as_slice()),
        Op::Load { from, .. } => operand(scope, from),
        Op::Store { value, to, .. } => operand(scope, value).or(operand(scope, to)),
        Op::Gep { base, indices, .. } => {
            operand(scope, base).or(in_operands(scope, indices.as_slice()))
        }
        Op::Call { args, .. } => in_operands(scope, args.as_slice()),
        Op::Jump { to } => target(scope, *to),
        Op::Branch { cond, yes, no } => {
            operand(scope, cond).or(target(scope, *yes).or(target(scope, *no)))
        }
        Op::Switch {
            value,
            other,
            cases,
            ..
        } => operand(scope, value).or(target(scope, *other).or(in_cases(scope, cases.as_slice()))),
        Op::Ret { value: Some(typed) } => operand(scope, &typed.value),
        Op::Alloca { .. } | Op::Ret { value: None } | Op::Unreachable => None,
    }
}

/// The place of an operand that isn't defined.
#[tactic(auto, using(crate::proofs::UndefinedSites::operand_steps))]
fn operand(scope: &Scope<'_>, value: &Operand) -> Option<Place>
    ensures { result ≡ first_at scope.now (operand_sites value.now) }
{
    match value {
        Operand::Reg(v) => {
            if scope.defined.has_value(*v) {
                None
            } else {
                Some(Place::UseIn(*v, scope.block))
            }
        }
        Operand::Global(g) => {
            if *g < scope.globals {
                None
            } else {
                Some(scope.own)
            }
        }
        Operand::Num(_) | Operand::Null | Operand::Undef | Operand::Poison => None,
    }
}

/// The place of a target that isn't defined.
#[tactic(auto, using(crate::proofs::UndefinedSites::target_steps))]
fn target(scope: &Scope<'_>, b: BlockId) -> Option<Place>
    ensures { result ≡ first_at scope.now (UsesBlock b.0 ∷ []) }
{
    if scope.defined.has_block(b) {
        None
    } else {
        Some(Place::BlockAt(b))
    }
}

/// The first such use of operands.
fn in_operands(scope: &Scope<'_>, operands: &[TypedOperand]) -> Option<Place>
    ensures { result ≡ first_at scope.now (flat_map typed_sites operands.now) }
{
    for typed in operands {
        match operand(scope, &typed.value) {
            Some(place) => return Some(place),
            None => {}
        }
    }
    None
}

/// The first such use of a phi's entries.
#[tactic(auto, using(crate::proofs::UndefinedSites::at_entry))]
fn in_entries(scope: &Scope<'_>, entries: &[PhiEntry]) -> Option<Place>
    ensures { result ≡ first_at scope.now (flat_map entry_sites entries.now) }
{
    for entry in entries {
        match in_entry(scope, entry) {
            Some(place) => return Some(place),
            None => {}
        }
    }
    None
}

/// The first such use of an entry.
#[tactic(auto, using(crate::proofs::UndefinedSites::at_both))]
fn in_entry(scope: &Scope<'_>, entry: &PhiEntry) -> Option<Place>
    ensures { result ≡ first_at scope.now (entry_sites entry.now) }
{
    operand(scope, &entry.value).or(target(scope, entry.from))
}

/// The first such use of a switch's cases.
fn in_cases(scope: &Scope<'_>, cases: &[Case]) -> Option<Place>
    ensures { result ≡ first_at scope.now (flat_map (λ (c : Case). UsesBlock c.to.0 ∷ []) cases.now) }
{
    for case in cases {
        match target(scope, case.to) {
            Some(place) => return Some(place),
            None => {}
        }
    }
    None
}
