//! The arguments of a run.

ghost use Rattle.std.specs.Prelude.{◌≡◌, ◌≤◌, ◌∷◌, All, IfOk, OnOk, IfSome, IsTrue};
ghost use Rattle.std.specs.List.{position};
ghost use Rattle.std.specs.Option.{option_copied, option_map};
ghost use Rattle.ir_model.specs.declared.function.Param.{Param as AnyParam};
ghost use Rattle.ir_rules.specs.Types.{is_wide};
ghost use Rattle.ir_eval.specs.Arguments as said;
ghost use Rattle.ir_eval.specs.Begun.{meant, is_comma};

use eval_request::numeral;
use ir_meaning::Value;
use ir_memory::{Blocks, Byte};
use ir_model::{IrType, Param};
use std::alloc::{AllocError, Global};

/// The most bytes of the block of an argument.
const BLOCK_MOST: u64 = 65_536;

/// An argument: a value, or a pointer to a new block of so many zero bytes.
#[derive(Clone, Copy, Debug)]
pub(crate) enum Argument {
    Plain(Value),
    NewBlock(u64),
}

/// The values of the arguments that a text says, with commas between them; their blocks are added to memory. None comes
/// exactly where there isn't one fitting word for each parameter; what memory holds then is of no account.
pub(crate) fn begin(
    alloc: Global,
    blocks: &mut Blocks,
    params: &[Param],
    text: Option<&[u8]>,
) -> Result<Option<Vec<Value>>, AllocError>
    requires { All (λ (p : AnyParam). IsTrue (is_wide p.kind)) params.now }
    ensures none { result ≡ Ok None
        → said.begun blocks.old params.now (said.argument_words (option_copied text.entry)) ≡ None }
    ensures some { IfOk result (λ found. IfSome found (λ args.
        said.begun blocks.old params.now (said.argument_words (option_copied text.entry))
        ≡ Some (args.items, blocks.new))) }
{
    let mut args = Vec::new(alloc);
    let mut rest = text;
    for param in params {
        let Some(left) = rest else {
            return Ok(None);
        };
        let (word, behind) = first_word(left);
        let Some(argument) = argument_of(&param.kind, word) else {
            return Ok(None);
        };
        args.push(place(alloc, blocks, argument)?)?;
        rest = behind;
    }
    match rest {
        None => Ok(Some(args)),
        Some(_) => Ok(None),
    }
}

/// What stands before the first comma of a text, and what stands behind it. None comes where there is no comma.
fn first_word(text: &[u8]) -> (&[u8], Option<&[u8]>)
    ensures { said.parts_between text.now ≡ result.0.now ∷ said.argument_words (option_copied result.1) }
{
    match first_comma(text) {
        Some(i) => (&text[..i], Some(&text[i + 1..])),
        None => (text, None),
    }
}

/// Where the first comma of a text stands.
fn first_comma(text: &[u8]) -> Option<usize>
    ensures { result ≡ position is_comma text.now }
{
    text.iter().position(|byte| *byte == b',')
}

/// The value of an argument; a new block is added to memory for it.
fn place(alloc: Global, blocks: &mut Blocks, argument: Argument) -> Result<Value, AllocError>
    ensures value { IfOk result (λ x. x ≡ said.argument_value blocks.old (meant argument)) }
    ensures memory { OnOk result (blocks.new ≡ said.with_argument blocks.old (meant argument)) }
{
    match argument {
        Argument::Plain(x) => Ok(x),
        Argument::NewBlock(size) => {
            let zeros = vec![in alloc; Byte::Number(0); size as usize]?;
            let block = blocks.add_bytes(zeros)?;
            Ok(Value::Pointer { block, offset: 0 })
        }
    }
}

/// The argument that a word says for a parameter of the type. None comes exactly where it says none.
fn argument_of(kind: &IrType, word: &[u8]) -> Option<Argument>
    requires { IsTrue (is_wide kind.now) }
    ensures { option_map meant result ≡ said.argument_of kind.now word.now }
{
    match kind {
        IrType::Int(_) | IrType::Ptr if word == b"poison".as_slice() => {
            Some(Argument::Plain(Value::Poison))
        }
        IrType::Int(w) => integer_argument(*w, word),
        IrType::Ptr => pointer_argument(word),
        IrType::Void | IrType::Array(_, _) => None,
    }
}

/// A numeral below 2^w.
fn integer_argument(w: u32, word: &[u8]) -> Option<Argument>
    requires { w ≤ 64 }
    ensures { option_map meant result ≡ said.number_of_width w word.now }
{
    let n = numeral(word)?;
    if w >= 64 || n < 1 << w {
        Some(Argument::Plain(Value::Number(n)))
    } else {
        None
    }
}

/// `null`, or `b` and a numeral up to 65,536.
fn pointer_argument(word: &[u8]) -> Option<Argument>
    ensures { option_map meant result ≡ said.pointer_argument word.now }
{
    if word == b"null".as_slice() {
        return Some(Argument::Plain(Value::Null));
    }
    match word {
        [b'b', digits @ ..] => match numeral(digits)? {
            size if size <= BLOCK_MOST => Some(Argument::NewBlock(size)),
            _ => None,
        },
        _ => None,
    }
}
