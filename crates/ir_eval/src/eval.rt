//! The one call.

ghost use Rattle.std.specs.Prelude.{◌≡◌, find, IfOk};
ghost use Rattle.std.specs.Option.{option_copied};
ghost use Rattle.ir_model.specs.WellMade.{AreWellMade};
ghost use Rattle.ir_rules.specs.Accepted.{IsAcceptedModule, body_of};
ghost use Rattle.ir_machine.specs.Runnable.{IsRunnable};
ghost use Rattle.ir_meaning.specs.Run.{ArgsFit};
ghost use Rattle.eval_request.specs.Asked.{asked_by};
ghost use Rattle.ir_eval.specs.Outcome.{IsEval, HasNoFunction, HasBadArgs, IsOutcome, has_name};
ghost use Rattle.ir_eval.specs.Outcome.{function_named as named};

use crate::arguments::begin;
use crate::fault::EvalFault;
use crate::globals::global_blocks;
use crate::outcome::push_outcome;
use eval_request::Request;
use ir_machine::Machine;
use ir_meaning::Value;
use ir_memory::Blocks;
use ir_model::{Function, Item, Module};
use std::alloc::{AllocError, Global};

/// Runs a function of a module with the number 0 chosen in each step, and answers the three lines about its run: how
/// it ended, how many steps it made, and how many calls.
///
/// Globals hold their initialisers at the start, external ones zeros. An argument is, for an integer of w bits, a
/// decimal numeral below 2^w or `poison`; for a pointer `null`, `poison`, or `b` and a decimal numeral up to 65,536 for
/// a new block of so many zero bytes, behind the blocks of the globals.
///
/// The error is `NoFunction` exactly where no function with a body has the name, `BadArgs` exactly where there isn't
/// one fitting argument for each parameter, and `OutOfMemory` where no memory is found, also by an `alloca` of the
/// function.
pub fn evaluate(alloc: Global, m: &Module, request: Request<'_>) -> Result<Vec<u8>, EvalFault>
    requires well_made { AreWellMade m.now }
    requires accepted { IsAcceptedModule m.now }
    ensures text { IfOk result (λ text. IsEval m.now (asked_by request.entry) text.items) }
    ensures no_function { result ≡ Err EvalFault.NoFunction → HasNoFunction m.now (asked_by request.entry) }
    ensures bad_args { result ≡ Err EvalFault.BadArgs → HasBadArgs m.now (asked_by request.entry) }
{
    let Some(f) = function_named(m, request.name) else {
        return Err(EvalFault::NoFunction);
    };
    let mut blocks = global_blocks(alloc, m)?;
    let Some(args) = begin(alloc, &mut blocks, f.params.as_slice(), request.args)? else {
        return Err(EvalFault::BadArgs);
    };
    let text = outcome(alloc, f, args, blocks, request.most)?;
    Ok(text)
}

/// The function with a body that has the name. None comes exactly where there is none.
fn function_named<'m>(m: &'m Module, name: &[u8]) -> Option<&'m Function>
    ensures { option_copied result ≡ named m.now name.now }
{
    for item in m.items.as_slice() {
        if let Some(f) = function_of(item, name) {
            return Some(f);
        }
    }
    None
}

/// The function with a body that an item is, where it has the name.
fn function_of<'m>(item: &'m Item, name: &[u8]) -> Option<&'m Function>
    ensures { option_copied result ≡ find (has_name name.now) (body_of item.now) }
{
    match item {
        Item::Define(f) if f.name.as_slice() == name => Some(f),
        _ => None,
    }
}

/// The lines about the run of a function.
fn outcome(
    alloc: Global,
    f: &Function,
    args: Vec<Value>,
    blocks: Blocks,
    most: u64,
) -> Result<Vec<u8>, AllocError>
    requires runnable { IsRunnable f.now }
    requires fit { ArgsFit blocks f.now.params args.items }
    ensures { IfOk result (λ text. IsOutcome f.now args.items blocks most text.items) }
{
    let mut machine = Machine::start(f, args, blocks)?;
    let made = machine.run(f, most)?;
    let mut text = Vec::new(alloc);
    push_outcome(&mut text, &machine, made)?;
    Ok(text)
}
