//! The line that is written about a status.

ghost use Rattle.std.specs.Prelude.{◌≡◌, ◌≤◌, ◌++◌, [], codes, decimal, unwrap_or, slice_get, OnOk, OnErr};
ghost use Rattle.ir_grammar.specs.Spelled.{left_out};
ghost use Rattle.scev_outside.specs.Bytes.{Appended, AppendedFront};
ghost use Rattle.scev_outside.specs.Faults.{Rose};
ghost use Rattle.scev_tool.specs.Message.{message, line_of};

use crate::status::Status;
use ir_left_out::left_out_text;
use itoa::Buffer;
use scev_outside::{Failed, Sink, write_all};

/// Appends a text, a place and a line feed.
fn write_place<E: Sink>(err: &mut E, before: &[u8], at: usize) -> Result<(), Failed>
    ensures whole { OnOk result (Appended (E.taken err.old)
        (before.now ++ (decimal at ++ codes "\n")) (E.taken err.new)) }
    ensures front { OnErr result (AppendedFront (E.taken err.old)
        (before.now ++ (decimal at ++ codes "\n")) (E.taken err.new)) }
    ensures failed { OnErr result (Rose (E.faults err.old) (E.faults err.new)) }
    ensures count { E.faults err.old ≤ E.faults err.new }
{
    let mut buffer = Buffer::new();
    write_all(err, before)?;
    write_all(err, buffer.format(at).as_bytes())?;
    write_all(err, b"\n")
}

/// The word or the sign of this number among those that are left out.
fn word_text(word: u16) -> &'static [u8]
    ensures { result.now ≡ unwrap_or (slice_get left_out word) [] }
{
    match left_out_text(word) {
        Some(text) => text,
        None => b"",
    }
}

/// Appends the line of what is left out by name.
fn write_unsupported<E: Sink>(err: &mut E, word: u16, at: usize) -> Result<(), Failed>
    ensures whole { OnOk result (Appended (E.taken err.old) (message (Status.Unsupported word at)) (E.taken err.new)) }
    ensures front { OnErr result (AppendedFront (E.taken err.old) (message (Status.Unsupported word at))
        (E.taken err.new)) }
    ensures failed { OnErr result (Rose (E.faults err.old) (E.faults err.new)) }
    ensures count { E.faults err.old ≤ E.faults err.new }
{
    write_all(err, b"scev: unsupported ")?;
    write_all(err, word_text(word))?;
    write_place(err, b" at ", at)
}

/// Appends the line of a status, and a line feed; nothing for those that have no line. `Failed` comes only
/// where the sink's count of faults rose; a front of the line is then appended.
fn write_message<E: Sink>(err: &mut E, status: Status) -> Result<(), Failed>
    ensures whole { OnOk result (Appended (E.taken err.old) (message status) (E.taken err.new)) }
    ensures front { OnErr result (AppendedFront (E.taken err.old) (message status) (E.taken err.new)) }
    ensures failed { OnErr result (Rose (E.faults err.old) (E.faults err.new)) }
    ensures count { E.faults err.old ≤ E.faults err.new }
{
    match status {
        Status::Usage => write_all(err, b"scev: usage\n"),
        Status::ReadFault => write_all(err, b"scev: read fault\n"),
        Status::TooLong => write_all(err, b"scev: input longer than 8388608 bytes\n"),
        Status::NotInGrammar { at } => write_place(err, b"scev: not in grammar at ", at),
        Status::Unsupported { word, at } => write_unsupported(err, word, at),
        Status::BadArgs => write_all(err, b"scev: bad arguments\n"),
        Status::WriteFault => write_all(err, b"scev: write fault\n"),
        Status::OutOfMemory => write_all(err, b"scev: out of memory\n"),
        Status::Done | Status::NoFunction | Status::Ill { .. } => write_all(err, b""),
    }
}

/// Appends the line of a status: that of a broken rule and of a missing function is given, the others are the same for
/// every call. `Failed`
/// comes only where the sink's count of faults rose; a front of the line is then appended.
pub fn write_line<E: Sink>(err: &mut E, status: Status, own: &[u8]) -> Result<(), Failed>
    ensures whole { OnOk result (Appended (E.taken err.old) (line_of status own.now) (E.taken err.new)) }
    ensures front { OnErr result (AppendedFront (E.taken err.old) (line_of status own.now) (E.taken err.new)) }
    ensures failed { OnErr result (Rose (E.faults err.old) (E.faults err.new)) }
    ensures count { E.faults err.old ≤ E.faults err.new }
{
    match status {
        Status::Ill { .. } | Status::NoFunction => write_all(err, own),
        _ => write_message(err, status),
    }
}
