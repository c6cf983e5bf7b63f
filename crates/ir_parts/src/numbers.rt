//! Numbers that texts write.

ghost use Rattle.std.specs.Prelude.{◌≡◌, ◌^◌, ◌∷◌};
ghost use Rattle.std.specs.List.{list_all};
ghost use Rattle.std.specs.Char.{digit_value};
ghost use Rattle.std.specs.Str.Parse.{digits_value, starts_with_minus, without_leading_sign};
ghost use Rattle.ir_text.specs.Bytes.{is_digit};
ghost use Rattle.ir_parts.specs.TypeReading.{below, int_width_of, dimension_of};

use ir_text::is_digit;

/// No number of 64 bits is as large.
const LIMIT: u128 = 1 << 64;

/// The number that the digits write, where it is below 2^64. A byte that is no digit counts 36, or from 10
/// to 35 as a letter does: so the definition has it, and no numeral has one.
pub fn small_number(digits: &[u8]) -> Option<u64>
    ensures { result ≡ below (2 ^ 64) (digits_value 10 digits.now) }
{
    let mut size: u128 = 0;
    for byte in digits {
        size = size * 10 + digit(*byte);
        if size >= LIMIT {
            return None;
        }
    }
    Some(size as u64)
}

fn digit(byte: u8) -> u128
    ensures { result ≡ digit_value byte }
{
    match char::from(byte).to_digit(36) {
        Some(digit) => u128::from(digit),
        None => 36,
    }
}

/// Whether all bytes are decimal digits.
pub fn are_digits(bytes: &[u8]) -> bool
    ensures { result ≡ list_all is_digit bytes.now }
{
    bytes.iter().all(|byte| is_digit(*byte))
}

/// Whether a `-` stands first, and what stands behind the sign.
pub(crate) fn without_sign(text: &[u8]) -> (bool, &[u8])
    ensures sign { result.0 ≡ starts_with_minus text.now }
    ensures digits { result.1.now ≡ without_leading_sign text.now }
{
    match text {
        [b'-', digits @ ..] => (true, digits),
        [b'+', digits @ ..] => (false, digits),
        _ => (false, text),
    }
}

/// The width of the type of integers that the text is.
#[tactic(auto, unfolding(crate::specs::TypeReading::int_width_of))]
pub fn int_width_of(text: &[u8]) -> Option<u32>
    ensures { result ≡ int_width_of text.now }
{
    match text {
        [b'i', digits @ ..] => width_of(digits),
        _ => None,
    }
}

#[tactic(auto, unfolding(crate::specs::TypeReading::int_width_of))]
fn width_of(digits: &[u8]) -> Option<u32>
    ensures { result ≡ int_width_of (105 ∷ digits.now) }
{
    if 0 < digits.len() && are_digits(digits) {
        small_width(digits)
    } else {
        None
    }
}

#[tactic(auto, using(std::proofs::lemmas::Bool::Decides::nat_tests))]
fn small_width(digits: &[u8]) -> Option<u32>
    ensures { result ≡ below (2 ^ 32) (digits_value 10 digits.now) }
{
    match small_number(digits) {
        Some(width) if width < 1 << 32 => Some(width as u32),
        _ => None,
    }
}

/// The number that a numeral writes, where it is from 0 to 2^64 - 1.
#[tactic(auto, unfolding(crate::specs::TypeReading::dimension_of))]
pub(crate) fn dimension_of(text: &[u8]) -> Option<u64>
    ensures { result ≡ dimension_of text.now }
{
    let (is_negative, digits) = without_sign(text);
    let size = small_number(digits)?;
    if is_negative && size > 0 {
        None
    } else {
        Some(size)
    }
}
