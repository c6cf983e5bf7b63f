//! Names of functions that are read in a way of their own.

ghost use Rattle.std.specs.Prelude.{◌≡◌};
ghost use Rattle.ir_grammar.specs.Operations.{is_intrinsic};
ghost use Rattle.ir_grammar.specs.Functions.{is_dropped_name};

/// Whether calls and declarations of a function of this name are dropped: it begins `llvm.dbg.` or `llvm.lifetime.`.
pub fn is_dropped_name(name: &[u8]) -> bool
    ensures { result ≡ is_dropped_name name.now }
{
    name.starts_with(b"llvm.dbg.".as_slice()) || name.starts_with(b"llvm.lifetime.".as_slice())
}

/// Whether it is the name of an intrinsic function of LLVM: it begins `llvm.`.
pub fn is_intrinsic(name: &[u8]) -> bool
    ensures { result ≡ is_intrinsic name.now }
{
    name.starts_with(b"llvm.".as_slice())
}
