//! Decimal numerals.

ghost use Rattle.std.specs.Prelude.{◌≡◌, ◌<◌, ◌^◌, IsTrue};
ghost use Rattle.std.specs.Option.{SomeIff};
ghost use Rattle.std.specs.List.{list_all};
ghost use Rattle.ir_text.specs.Bytes.{is_digit};
ghost use Rattle.eval_request.specs.Numeral.{is_numeral, numeral_value};

use ir_lex::unsigned_value;
use ir_text::is_digit;

/// The number of a decimal numeral: one or more digits, with any number of leading zeros. None comes exactly for other
/// texts, and for a number from 2^64 on.
pub fn numeral(text: &[u8]) -> Option<u64>
    ensures { SomeIff result (IsTrue (is_numeral text.now) × (numeral_value text.now < 2 ^ 64))
        (numeral_value text.now) }
{
    if text.is_empty() || !are_digits(text) {
        return None;
    }
    u64::try_from(unsigned_value(text)?).ok()
}

/// Whether all bytes are decimal digits.
fn are_digits(bytes: &[u8]) -> bool
    ensures { result ≡ list_all is_digit bytes.now }
{
    bytes.iter().all(|byte| is_digit(*byte))
}
