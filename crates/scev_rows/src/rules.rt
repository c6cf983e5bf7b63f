//! Modules that break a rule of well-formedness, each with the line about the first one, and modules next to them that
//! break none.

use crate::call::{printed, refused};
use std::test::Fail;

/// What breaks a rule in a function.
const IN_FUNCTIONS: [(&str, &str); 29] = [
    // Names: one that is defined again, of a value and of a block, and a use that nothing defines.
    (
        "define i32 @f(i32 %x) {\na:\n  %x = add i32 1, 2\n  ret i32 %x\n}\n",
        "scev: rule DuplicateName in @f: %x",
    ),
    (
        "define void @f() {\na:\n  br label %b\nb:\n  ret void\nb:\n  ret void\n}\n",
        "scev: rule DuplicateName in @f: %b",
    ),
    (
        "define i32 @f() {\na:\n  ret i32 %y\n}\n",
        "scev: rule UndefinedName in @f: %y in %a",
    ),
    (
        "define void @f() {\na:\n  br label %c\n}\n",
        "scev: rule UndefinedName in @f: %c",
    ),
    (
        "define i32 @f() {\na:\n  %v = load i32, ptr @g\n  ret i32 %v\n}\n",
        "scev: rule UndefinedName in @f: %v",
    ),
    // Types of operands.
    (
        "define i32 @f(i8 %x) {\na:\n  %v = add i32 %x, 1\n  ret i32 %v\n}\n",
        "scev: rule TypeMismatch in @f: %v",
    ),
    (
        "define i32 @f(ptr %p) {\na:\n  %v = add i32 %p, 1\n  ret i32 %v\n}\n",
        "scev: rule TypeMismatch in @f: %v",
    ),
    (
        "define void @f(i32 %x) {\na:\n  br i1 %x, label %b, label %b\nb:\n  ret void\n}\n",
        "scev: rule TypeMismatch in @f: %a",
    ),
    // Numerals and widths: the numeral comes first.
    (
        "define i8 @f() {\na:\n  ret i8 256\n}\n",
        "scev: rule LiteralOutOfRange in @f: %a",
    ),
    (
        "define i65 @f() {\na:\n  ret i65 1\n}\n",
        "scev: rule BadWidth in @f: %a",
    ),
    (
        "define void @f(i65 %x) {\na:\n  ret void\n}\n",
        "scev: rule BadWidth in @f: %x",
    ),
    (
        "define i32 @f(i32 %x) {\na:\n  %v = zext i32 %x to i32\n  ret i32 %v\n}\n",
        "scev: rule BadWidth in @f: %v",
    ),
    // Blocks and phis.
    (
        "define void @f() {\na:\n  br label %a\n}\n",
        "scev: rule EntryHasPredecessor in @f: %a",
    ),
    (
        "define void @f(i32 %x) {
a:
  br label %b
b:
  %v = add i32 %x, 1
  %p = phi i32 [ %x, %a ]
  ret void
}
",
        "scev: rule PhiNotFirst in @f: %p",
    ),
    (
        "define void @f(i32 %x) {\na:\n  br label %b\nb:\n  %p = phi i32 [ %x, %a ], [ 1, %b ]\n  ret void\n}\n",
        "scev: rule PhiEntries in @f: %p",
    ),
    (
        "define void @f(i1 %c) {
a:
  br i1 %c, label %b, label %b
b:
  %p = phi i8 [ 1, %a ], [ 2, %a ]
  ret void
}
",
        "scev: rule PhiEntries in @f: %p",
    ),
    // Single operations.
    (
        "declare void @g()\ndefine void @f() {\na:\n  %v = call void @g()\n  ret void\n}\n",
        "scev: rule VoidValue in @f: %v",
    ),
    (
        "define void @f(i8 %x) {
a:
  switch i8 %x, label %b [
    i8 255, label %b
    i8 -1, label %b
  ]
b:
  ret void
}
",
        "scev: rule DuplicateCase in @f: %a",
    ),
    (
        "define i1 @f(ptr %p) {\na:\n  %v = icmp ult ptr %p, null\n  ret i1 %v\n}\n",
        "scev: rule PointerPredicate in @f: %v",
    ),
    (
        "define ptr @f(ptr %p) {\na:\n  %v = freeze ptr %p\n  ret ptr %v\n}\n",
        "scev: rule PointerPredicate in @f: %v",
    ),
    (
        "define void @f() {\na:\n  call void @g()\n  ret void\n}\n",
        "scev: rule CallMismatch in @f: %a",
    ),
    // A minimum's function is told by its name alone, and has the types that the name says.
    (
        "define i32 @f(i32 %x) {\na:\n  %v = call i64 @llvm.umin.i32(i32 %x, i32 2)\n  ret i32 %x\n}\n",
        "scev: rule CallMismatch in @f: %v",
    ),
    (
        "define i32 @f(i32 %x) {\na:\n  %v = call i32 @llvm.smax.i32(i32 %x)\n  ret i32 %v\n}\n",
        "scev: rule CallMismatch in @f: %v",
    ),
    (
        "define i64 @f() {\na:\n  ret i32 0\n}\n",
        "scev: rule ReturnType in @f: %a",
    ),
    // A definition that a walk goes around, one that comes later in the block, and one that a phi reads too early.
    (
        "define i32 @f(i1 %b) {
entry:
  br i1 %b, label %x, label %y
x:
  %v = add i32 1, 2
  br label %y
y:
  ret i32 %v
}
",
        "scev: rule UseBeforeDef in @f: %v in %y",
    ),
    (
        "define i32 @f() {\na:\n  %u = add i32 %v, 1\n  %v = add i32 1, 2\n  ret i32 %u\n}\n",
        "scev: rule UseBeforeDef in @f: %v in %a",
    ),
    (
        "define i32 @f() {\na:\n  br label %b\nb:\n  %p = phi i32 [ %v, %a ]\n  %v = add i32 1, 2\n  ret i32 %p\n}\n",
        "scev: rule UseBeforeDef in @f: %v in %b",
    ),
    // The lowest rule counts, then the first place; a later function isn't looked at.
    (
        "define i32 @f(i8 %x) {\na:\n  ret i64 %x\n}\n",
        "scev: rule TypeMismatch in @f: %a",
    ),
    (
        "define i32 @f() {
a:
  ret i32 0
}
define i32 @\"g h\"() {
  ret i64 0
}
define i32 @k() {
a:
  ret i32 %y
}
",
        "scev: rule ReturnType in @\"g h\": %0",
    ),
];

/// What breaks a rule outside functions; it comes before all rules of functions.
const IN_ITEMS: [(&str, &str); 7] = [
    (
        "declare void @g()\n@g = global i32 0\n",
        "scev: rule DuplicateName in item 1",
    ),
    (
        "define i32 @f() {\na:\n  ret i32 %y\n}\ndeclare void @g()\ndeclare void @g()\n",
        "scev: rule DuplicateName in item 2",
    ),
    (
        "@g = global i32 null\n",
        "scev: rule TypeMismatch in item 0",
    ),
    (
        "@a = global i8 0\n@g = global [2 x i8] c\"abc\"\n",
        "scev: rule TypeMismatch in item 1",
    ),
    (
        "@g = global i8 256\n",
        "scev: rule LiteralOutOfRange in item 0",
    ),
    ("@g = global i7 0\n", "scev: rule BadWidth in item 0"),
    ("declare i65 @g()\n", "scev: rule BadWidth in item 0"),
];

/// What breaks none, though it looks like it; it is printed as it stands.
const ACCEPTED: [&str; 7] = [
    // A definition that is passed on every walk, and a block that no walk reaches.
    "define i32 @f(i1 %b) {
entry:
  br i1 %b, label %x, label %y
x:
  br label %y
y:
  br i1 %b, label %x, label %loop
loop:
  %i = phi i32 [ 0, %y ], [ %i.next, %loop ]
  %i.next = add i32 %i, 1
  %c = icmp ult i32 %i, 7
  br i1 %c, label %loop, label %exit
exit:
  ret i32 %i
dead:
  %z = add i32 %z, 1
  br label %exit
}
",
    // Two edges of one block with equal operands, read modulo 2^8.
    "define i8 @f(i1 %c) {
a:
  br i1 %c, label %b, label %b
b:
  %p = phi i8 [ -1, %a ], [ -1, %a ]
  ret i8 %p
}
",
    // A value and a block of one name.
    "define i32 @f(i32 %x) {\nx:\n  ret i32 %x\n}\n",
    // A minimum needs no declaration, and may have one.
    "define i32 @f(i32 %x) {\na:\n  %v = call i32 @llvm.umin.i32(i32 %x, i32 2)\n  ret i32 %v\n}\n",
    "declare i8 @llvm.smax.i8(i8, i8)
define i8 @f(i8 %x) {
a:
  %v = call i8 @llvm.smax.i8(i8 %x, i8 2)
  ret i8 %v
}
",
    // A phi that reads a value of its own block, and numerals next to the limits.
    "define i8 @f(i1 %c) {
a:
  br label %b
b:
  %p = phi i8 [ -128, %a ], [ %v, %b ]
  %v = add i8 %p, 127
  br i1 %c, label %b, label %d
d:
  ret i8 %v
}
",
    "@g = global [2 x i16] [i16 1, i16 -32768]\n@h = external global [3 x [4 x i8]]\n",
];

#[test]
fn rules_of_functions(rt: HostRuntime) -> Result<(), Fail> {
    for (input, line) in IN_FUNCTIONS {
        assert!(rt; refused(rt.alloc(), input, line)?, "{input}");
    }
    Ok(())
}

#[test]
fn rules_of_items(rt: HostRuntime) -> Result<(), Fail> {
    for (input, line) in IN_ITEMS {
        assert!(rt; refused(rt.alloc(), input, line)?, "{input}");
    }
    Ok(())
}

#[test]
fn accepted_modules(rt: HostRuntime) -> Result<(), Fail> {
    for input in ACCEPTED {
        assert!(rt; printed(rt.alloc(), input, input)?, "{input}");
    }
    Ok(())
}
