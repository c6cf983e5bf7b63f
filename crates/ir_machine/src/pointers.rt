//! Comparisons of pointers.

ghost use Rattle.std.specs.Prelude.{◌≡◌, true};
ghost use Rattle.ir_meaning.specs.Rows.{same_pointer as are_same, answered as answer_of, same_answer};
ghost use Rattle.ir_meaning.specs.Rows.{compared_pointers as row_of_pointers};

use ir_meaning::Value;

/// `icmp` of two pointers, by `eq` where `equal` is given and by `ne` where not, with the number that is
/// chosen: poison where one is, else 1 where the comparison holds and 0 where not (LLVM Language Reference,
/// "icmp Instruction").
pub(crate) fn compared_pointers(equal: bool, n: u64, left: Value, right: Value) -> Value
    ensures { result ≡ row_of_pointers equal n left right }
{
    match (left, right) {
        (Value::Poison, _) | (_, Value::Poison) => Value::Poison,
        _ => answered(equal, n, same_pointer(left, right)),
    }
}

/// Whether two pointers are the same. Of pointers to two blocks nothing is known.
fn same_pointer(left: Value, right: Value) -> Option<bool>
    ensures { result ≡ are_same left right }
{
    match (left, right) {
        (Value::Null, Value::Null) => Some(true),
        (
            Value::Pointer { block, offset },
            Value::Pointer {
                block: other,
                offset: at,
            },
        ) => {
            if block == other {
                Some(offset == at)
            } else {
                None
            }
        }
        _ => Some(false),
    }
}

/// The answer of a comparison; where nothing is known, the chosen number modulo 2.
fn answered(equal: bool, n: u64, same: Option<bool>) -> Value
    ensures { result ≡ answer_of equal n same }
{
    match same {
        None => Value::Number(n % 2),
        Some(same) => Value::Number(u64::from(same == equal)),
    }
}
