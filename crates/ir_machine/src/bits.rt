//! Operations on two numbers bit by bit.

ghost use Rattle.std.specs.Prelude.{◌≡◌};
ghost use Rattle.ir_meaning.specs.Rows.{conjoined as row_of_and, disjoined as row_of_or, exclusive as row_of_xor};

use ir_meaning::Value;

/// The bits that both have (LLVM Language Reference, "and Instruction").
pub(crate) fn conjoined(a: u64, b: u64) -> Value
    ensures { result ≡ row_of_and a b }
{
    Value::Number(a & b)
}

/// The bits that one of the two has, or both: poison where `disjoint` is given and both have a set bit (LLVM
/// Language Reference, "or Instruction").
pub(crate) fn disjoined(disjoint: bool, a: u64, b: u64) -> Value
    ensures { result ≡ row_of_or disjoint a b }
{
    if disjoint && a & b != 0 {
        Value::Poison
    } else {
        Value::Number(a | b)
    }
}

/// The bits that one of the two has (LLVM Language Reference, "xor Instruction").
pub(crate) fn exclusive(a: u64, b: u64) -> Value
    ensures { result ≡ row_of_xor a b }
{
    Value::Number(a ^ b)
}
