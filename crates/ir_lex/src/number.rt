//! The numbers that digits write.

ghost use Rattle.std.specs.Prelude.{◌≡◌, ◌<◌, ◌^◌, IsTrue};
ghost use Rattle.std.specs.Option.{SomeIff};
ghost use Rattle.std.specs.List.{list_all};
ghost use Rattle.std.specs.Str.Parse.{digits_value, signed_digits_value};
ghost use Rattle.ir_text.specs.Bytes.{is_digit};
ghost use Rattle.ir_text.specs.Names.{is_signed_number};
ghost use Rattle.ir_text.specs.Tokens.{FitsSigned128};
ghost use Rattle.ir_lex.specs.FirstToken.{fits_unsigned, fits_signed};

use ir_text::is_digit;

/// The number that a numeral writes: one to 39 decimal digits, maybe behind a `-`.
///
/// `None` comes exactly for a number below -2^127 or above 2^127 - 1.
#[tactic(auto, using(crate::proofs::SignedDigits::signed_digits))]
pub fn signed_value(text: &[u8]) -> Option<i128>
    requires { IsTrue (is_signed_number text.now) }
    ensures { SomeIff result (FitsSigned128 (signed_digits_value 10 text.now)) (signed_digits_value 10 text.now) }
{
    if text[0] == b'-' {
        0_i128.checked_sub_unsigned(unsigned_value(&text[1..])?)
    } else {
        0_i128.checked_add_unsigned(unsigned_value(text)?)
    }
}

/// The number that decimal digits write: any number of them, with any number of leading zeros, and 0 for none.
///
/// `None` comes exactly for a number from 2^128 on.
pub fn unsigned_value(digits: &[u8]) -> Option<u128>
    requires { IsTrue (list_all is_digit digits.now) }
    ensures { SomeIff result (digits_value 10 digits.now < 2 ^ 128) (digits_value 10 digits.now) }
{
    let mut value: u128 = 0;
    for digit in digits {
        value = value
            .checked_mul(10)?
            .checked_add(u128::from(*digit - b'0'))?;
    }
    Some(value)
}

/// Whether a numeral, digits or `-` and digits, is from -2^127 to 2^127 - 1.
pub(crate) fn fits_signed(numeral: &[u8]) -> bool
    requires { IsTrue (is_signed_number numeral.now) }
    ensures { result ≡ fits_signed numeral.now }
{
    signed_value(numeral).is_some()
}

/// Whether a name may stand for an unnamed value or block: if it is digits, they write a number below 2^64.
#[tactic(auto, unfolding(crate::specs::FirstToken::fits_unsigned))]
pub(crate) fn fits_unsigned(name: &[u8]) -> bool
    ensures { result ≡ fits_unsigned name.now }
{
    !are_digits(name) || unsigned_value(name).is_some_and(|value| value < 1 << 64)
}

/// Whether all bytes are decimal digits.
fn are_digits(bytes: &[u8]) -> bool
    ensures { result ≡ list_all is_digit bytes.now }
{
    bytes.iter().all(|byte| is_digit(*byte))
}
