//! The calls that are to fail.

ghost use Rattle.std.specs.Prelude.{◌↔◌, IsTrue, Contains};

/// Whether the call's number is among those listed.
pub(crate) fn is_listed(calls: &[u64], call: u64) -> bool
    ensures { IsTrue result ↔ Contains calls.now call }
{
    calls.contains(&call)
}
