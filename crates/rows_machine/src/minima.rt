//! Minima and maxima of two integers of 8 bits, as rows of what is computed.

ghost use Rattle.std.specs.Prelude.{◌≡◌, codes, pos, negsuc};
ghost use Rattle.ir_model.specs.declared.op.Operand.TheVariants.{Num, Poison, Reg};
ghost use Rattle.ir_meaning.specs.Phases as phase;
ghost use Rattle.ir_meaning.specs.declared.value.Value.TheVariants as value;
ghost use Rattle.ir_meaning.specs.Step.{Gives, Fails};
ghost use Rattle.rows_machine.specs.Calls.{called};

use std::test::Fail;

/// Of -1, which is 255 in the unsigned reading, and 1.
fn of_two_signs()
    ensures umin { called (codes "llvm.umin.i8") (Num (negsuc 0)) (Num (pos 1)) ≡ Gives (value.Number 1) }
    ensures umax { called (codes "llvm.umax.i8") (Num (negsuc 0)) (Num (pos 1)) ≡ Gives (value.Number 255) }
    ensures smin { called (codes "llvm.smin.i8") (Num (negsuc 0)) (Num (pos 1)) ≡ Gives (value.Number 255) }
    ensures smax { called (codes "llvm.smax.i8") (Num (negsuc 0)) (Num (pos 1)) ≡ Gives (value.Number 1) }
{}

/// Of poison on either side.
fn of_poison()
    ensures left { called (codes "llvm.umin.i8") Poison (Num (pos 0)) ≡ Gives value.Poison }
    ensures right { called (codes "llvm.smax.i8") (Num (pos 127)) Poison ≡ Gives value.Poison }
{}

/// A call of another name, and one of an operand that has no value.
fn without_a_row()
    ensures name { called (codes "llvm.umin.i08") (Num (pos 1)) (Num (pos 2)) ≡ Fails phase.Stuck }
    ensures operand { called (codes "llvm.umin.i8") (Reg (record { 0 = 0 })) (Num (pos 2)) ≡ Fails phase.Stuck }
{}

#[test]
fn minima(_rt: HostRuntime) -> Result<(), Fail> {
    of_two_signs();
    of_poison();
    without_a_row();
    Ok(())
}
