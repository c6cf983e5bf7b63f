//! The minima and maxima of two integers, and their names.

ghost use Rattle.std.specs.Prelude.{◌≡◌};
ghost use Rattle.std.specs.Char.{is_ascii_digit};
ghost use Rattle.std.specs.List.{list_all};
ghost use Rattle.ir_model.specs.Callees.{is_plain_numeral, is_numbered, min_max_named};

/// A minimum or a maximum of two integers of one type (LLVM Language Reference, `llvm.umin.*`, `llvm.umax.*`,
/// `llvm.smin.*`, `llvm.smax.*`), in the unsigned or the signed reading.
#[derive(Clone, Copy, Debug, PartialEq, Eq)]
pub enum MinMax {
    Umin,
    Umax,
    Smin,
    Smax,
}

impl MinMax {
    /// The minimum or maximum whose function has this name: `llvm.`, the kind, `.i` and a width in decimal without
    /// leading zeros, whatever width that is. `llvm.umin.i032` names none.
    pub fn named(name: &[u8]) -> Option<MinMax>
        ensures { result ≡ min_max_named name.now }
    {
        if is_numbered(name, b"llvm.umin.i") {
            Some(MinMax::Umin)
        } else if is_numbered(name, b"llvm.umax.i") {
            Some(MinMax::Umax)
        } else if is_numbered(name, b"llvm.smin.i") {
            Some(MinMax::Smin)
        } else if is_numbered(name, b"llvm.smax.i") {
            Some(MinMax::Smax)
        } else {
            None
        }
    }
}

/// Whether a text is another one and then a numeral without leading zeros.
fn is_numbered(text: &[u8], front: &[u8]) -> bool
    ensures { result ≡ is_numbered text.now front.now }
{
    match text.strip_prefix(front) {
        Some(digits) => is_plain_numeral(digits),
        None => false,
    }
}

/// Whether a text is decimal digits, none of them a zero before others.
fn is_plain_numeral(digits: &[u8]) -> bool
    ensures { result ≡ is_plain_numeral digits.now }
{
    match digits.split_first() {
        None => false,
        Some((first, [])) => first.is_ascii_digit(),
        Some((first, rest)) => *first != b'0' && first.is_ascii_digit() && are_digits(rest),
    }
}

/// Whether all bytes are decimal digits.
fn are_digits(bytes: &[u8]) -> bool
    ensures { result ≡ list_all is_ascii_digit bytes.now }
{
    bytes.iter().all(|byte| byte.is_ascii_digit())
}
