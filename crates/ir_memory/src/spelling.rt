//! What bytes of memory spell, and which bytes a value is stored as.

ghost use Rattle.std.specs.Prelude.{◌≡◌, ◌%◌, ◌^◌, ◌<◌, ◌≤◌, length};
ghost use Rattle.std.specs.List.{list_any};
ghost use Rattle.ir_memory.specs.Spelling.{IsAccessWidth, FitsWidth, is_poison, is_unwritten};
ghost use Rattle.ir_memory.specs.Spelling.{byte_count, spelled, loaded_from, number_bytes, stored_as};

use crate::byte::Byte;
use crate::loaded::Loaded;
use scev_base::{Width, trunc};

/// What bytes give to a load of the width, where they are as many as the width takes.
pub(crate) fn read_value(bytes: &[Byte], w: Width, choice: u64) -> Loaded
    requires width { IsAccessWidth w.bits }
    requires count { length bytes.now ≡ byte_count w.bits }
    ensures value { result ≡ loaded_from bytes.now w.bits choice }
    ensures fits { FitsWidth w.bits result }
{
    if has_poison(bytes) {
        Loaded::Poison
    } else if has_unwritten(bytes) {
        Loaded::Number(trunc(choice, w))
    } else {
        Loaded::Number(read_number(bytes))
    }
}

/// Whether one of the bytes is poison.
fn has_poison(bytes: &[Byte]) -> bool
    ensures { result ≡ list_any is_poison bytes.now }
{
    bytes.iter().any(|byte| byte.is_poison())
}

/// Whether nothing was stored in one of the bytes.
fn has_unwritten(bytes: &[Byte]) -> bool
    ensures { result ≡ list_any is_unwritten bytes.now }
{
    bytes.iter().any(|byte| byte.is_unwritten())
}

/// The number that at most eight bytes spell.
fn read_number(bytes: &[Byte]) -> u64
    requires { length bytes.now ≤ 8 }
    ensures value { result ≡ spelled bytes.now }
    ensures below { result < 256 ^ length bytes.now }
{
    let mut number = 0;
    for i in (0..bytes.len()).rev() {
        number = 256 * number + u64::from(bytes[i].number());
    }
    number
}

/// Puts the bytes that the value is stored as in place of these.
pub(crate) fn write_value(bytes: &mut [Byte], value: Loaded)
    ensures { bytes.new ≡ stored_as (length bytes.old) value }
{
    match value {
        Loaded::Number(number) => write_number(bytes, number),
        Loaded::Poison => bytes.fill(Byte::Poison),
    }
}

/// Puts the lowest bytes of the number in place of these.
fn write_number(bytes: &mut [Byte], number: u64)
    ensures { bytes.new ≡ number_bytes (length bytes.old) number }
{
    let mut rest = number;
    for byte in bytes.iter_mut() {
        *byte = Byte::Number((rest % 256) as u8);
        rest /= 256;
    }
}
