//! Operands that are numerals or words.

ghost use Rattle.std.specs.Prelude.{◌≡◌, IfSome};
ghost use Rattle.std.specs.Str.Parse.{signed_digits_value};
ghost use Rattle.ir_parts.specs.Literals.{word_operand};

use crate::forms::is_signed_number;
use ir_lex::signed_value;
use ir_model::Operand;

/// What a numeral writes, where it fits.
pub fn numeral(text: &[u8]) -> Option<Operand>
    ensures { IfSome result (λ value. value ≡ Operand.Num (signed_digits_value 10 text.now)) }
{
    if is_signed_number(text) {
        let number = signed_value(text)?;
        Some(Operand::Num(number))
    } else {
        None
    }
}

/// The operand that a word is.
#[tactic(auto, unfolding(crate::specs::Literals::word_operand))]
pub fn word_operand(text: &[u8]) -> Option<Operand>
    ensures { result ≡ word_operand text.now }
{
    if text == b"true".as_slice() {
        Some(Operand::Num(1))
    } else if text == b"false".as_slice() {
        Some(Operand::Num(0))
    } else if text == b"null".as_slice() {
        Some(Operand::Null)
    } else if text == b"undef".as_slice() {
        Some(Operand::Undef)
    } else if text == b"poison".as_slice() {
        Some(Operand::Poison)
    } else {
        None
    }
}
