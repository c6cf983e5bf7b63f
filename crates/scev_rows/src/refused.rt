//! Texts that are refused, each with the byte of the refusal.

use crate::call::refused;
use std::test::Fail;

/// What spells no module.
const OUTSIDE: [(&str, &str); 45] = [
    // Bad bytes, and numbers that are too great.
    ("\0", "scev: not in grammar at 0"),
    ("\u{e9}", "scev: not in grammar at 0"),
    (
        "define i32 @f(){a: ret i32 1}\0",
        "scev: not in grammar at 29",
    ),
    (
        "define i32 @f(){a: ret i32 1} \u{e9}",
        "scev: not in grammar at 30",
    ),
    (
        "define i32 @f(i32 %-a){a: ret i32 1}",
        "scev: not in grammar at 18",
    ),
    (
        "define i32 @f() { ret i32 170141183460469231731687303715884105728 }",
        "scev: not in grammar at 26",
    ),
    (
        "define i32 @f() { ret i32 1111111111111111111111111111111111111111 }",
        "scev: not in grammar at 26",
    ),
    (
        "define i32 @f(i32 %18446744073709551616) { ret i32 0 }",
        "scev: not in grammar at 18",
    ),
    (
        "define i32 @f(i32 %\"abc) { ret i32 0 }",
        "scev: not in grammar at 18",
    ),
    (
        "define i32 @f() { ret i32 0x1f }",
        "scev: not in grammar at 27",
    ),
    // A token before a bad byte that can't go on is the place.
    ("define i32 @f(}~", "scev: not in grammar at 14"),
    // Ends that come too early.
    ("define", "scev: not in grammar at 6"),
    ("define i32 @f(){a: ret i32 1", "scev: not in grammar at 28"),
    (
        "define i32 @f() {\nentry:\n  ret i32",
        "scev: not in grammar at 34",
    ),
    ("!0 = !{", "scev: not in grammar at 7"),
    (
        "define void @f(i32 %x) { #dbg_value(i32 %x, !1\n ret void }\n",
        "scev: not in grammar at 57",
    ),
    // Items.
    ("source_filename = c\"ab\"\n", "scev: not in grammar at 18"),
    ("@g = external global i32 0\n", "scev: not in grammar at 25"),
    ("@g = global i32\n", "scev: not in grammar at 16"),
    (
        "@g = external (a) global i32 poison\n",
        "scev: not in grammar at 29",
    ),
    ("$c = comdat any\n", "scev: not in grammar at 0"),
    ("%t = type { i32 }\n", "scev: not in grammar at 0"),
    ("^0 = module\n", "scev: not in grammar at 0"),
    ("!0 = !{(]}\n", "scev: not in grammar at 8"),
    ("! 0 = !{}\n", "scev: not in grammar at 2"),
    ("!0 = \"a\"\n", "scev: not in grammar at 5"),
    (
        "@g = global [18446744073709551616 x i8] undef\n",
        "scev: not in grammar at 13",
    ),
    (
        "@g = global [-1 x i8] undef\n",
        "scev: not in grammar at 13",
    ),
    // Types that stand elsewhere, and one that is too wide.
    (
        "define i4294967296 @f() { ret i32 7 }",
        "scev: not in grammar at 19",
    ),
    (
        "define [2 x i32] @f() { ret [2 x i32] zeroinitializer }",
        "scev: not in grammar at 7",
    ),
    (
        "define void @f([2 x i32] %x) { ret void }",
        "scev: not in grammar at 15",
    ),
    // Parameters and blocks.
    (
        "define i32 @f(i32 %x,){a: ret i32 1}",
        "scev: not in grammar at 21",
    ),
    ("define i32 @f(){}", "scev: not in grammar at 16"),
    ("define void @f() { entry: }", "scev: not in grammar at 26"),
    (
        "define i32 @f(){a: ret i32 1}}",
        "scev: not in grammar at 29",
    ),
    // Instructions.
    ("define i32 @f(){a: ret i32 }", "scev: not in grammar at 27"),
    (
        "define i32 @f(){a: %x = phi i32 ret i32 %x}",
        "scev: not in grammar at 32",
    ),
    (
        "define i32 @f(i32 %x) { %y = add nsw nsw i32 %x, 1 ret i32 %y }",
        "scev: not in grammar at 37",
    ),
    (
        "define i32 @f(i32 %x) { %y = urem exact i32 %x, 2 ret i32 %y }",
        "scev: not in grammar at 34",
    ),
    (
        "define i8 @f(i32 %x) { %t = trunc nsw nuw i32 %x to i8 ret i8 %t }",
        "scev: not in grammar at 38",
    ),
    (
        "define i32 @f(i1 %c) { %s = select i01 %c, i32 1, i32 2 ret i32 %s }",
        "scev: not in grammar at 35",
    ),
    (
        "define void @f() { %a = alloca i32, i32 4 ret void }",
        "scev: not in grammar at 36",
    ),
    (
        "declare i32 @g(i32)\ndefine i32 @f(ptr %p) { %r = call i32 %p(i32 1) ret i32 %r }",
        "scev: not in grammar at 58",
    ),
    (
        "define void @f(i32 %x) { switch i32 %x, label %a [ i32 undef, label %a ]\na: ret void }",
        "scev: not in grammar at 55",
    ),
    (
        "define void @f() { br label %... }",
        "scev: not in grammar at 31",
    ),
];

/// What uses a part of LLVM IR that is left out.
const LEFT_OUT: [(&str, &str); 27] = [
    // Layouts of memory: another order of bytes, and another size of pointers.
    (
        "target datalayout = \"E-m:e\"\n",
        "scev: unsupported E at 21",
    ),
    (
        "target datalayout = \"e-p:32:32\"\n",
        "scev: unsupported p at 23",
    ),
    (
        "target datalayout = \"e-m:e-p0:32:32\"\n",
        "scev: unsupported p at 27",
    ),
    // Items.
    ("module asm \"nop\"\n", "scev: unsupported module at 0"),
    ("@a = alias i32, ptr @g\n", "scev: unsupported alias at 5"),
    ("@a = ifunc i32, ptr @g\n", "scev: unsupported ifunc at 5"),
    ("@g = global ptr null\n", "scev: unsupported ptr at 12"),
    ("@g = global float 0.0\n", "scev: unsupported float at 12"),
    (
        "@g = global [2 x ptr] undef\n",
        "scev: unsupported ptr at 17",
    ),
    (
        "declare i32 @printf(ptr, ...)\n",
        "scev: unsupported ... at 25",
    ),
    // Types.
    (
        "define i1 @f(float %x) { ret i1 true }",
        "scev: unsupported float at 13",
    ),
    (
        "define i1 @f(double* %x) { ret i1 true }",
        "scev: unsupported double at 13",
    ),
    (
        "define <2 x i32> @f() { ret <2 x i32> zeroinitializer }",
        "scev: unsupported < at 7",
    ),
    (
        "define void @f(ptr addrspace(1) %x) { ret void }",
        "scev: unsupported addrspace at 19",
    ),
    // Memory.
    (
        "define void @f(ptr %p, ptr %q) {\nentry:\n  store ptr %p, ptr %q\n",
        "scev: unsupported ptr at 48",
    ),
    (
        "define void @f(ptr %p) { %v = load ptr, ptr %p ret void }",
        "scev: unsupported ptr at 35",
    ),
    (
        "define void @f(ptr %p) { %a = alloca { i32 }\n ret void }",
        "scev: unsupported { at 37",
    ),
    (
        "define void @f(ptr %p) { %v = load float, ptr %p ret void }",
        "scev: unsupported float at 35",
    ),
    (
        "define void @f(ptr %p) { %v = load volatile i32, ptr %p ret void }",
        "scev: unsupported volatile at 35",
    ),
    (
        "define void @f(ptr %p) { store i32 1, ptr getelementptr (i8, ptr @g, i64 4)\n ret void }",
        "scev: unsupported getelementptr at 42",
    ),
    // Operations.
    (
        "define void @f(ptr %p) { %i = ptrtoint ptr %p to i64\n ret void }",
        "scev: unsupported ptrtoint at 30",
    ),
    (
        "define void @f() { invoke void @g() to label %a unwind label %b }",
        "scev: unsupported invoke at 19",
    ),
    (
        "define void @f() { resume i32 1 }",
        "scev: unsupported resume at 19",
    ),
    (
        "define void @f() personality ptr @g { ret void }",
        "scev: unsupported personality at 17",
    ),
    // Calls.
    (
        "declare i32 @g(i32)\ndefine i32 @f() { %r = musttail call i32 @g(i32 1) ret i32 %r }",
        "scev: unsupported musttail at 43",
    ),
    (
        "define i32 @f(i32 %x) { %r = call i32 @llvm.umin.i032(i32 %x, i32 7) ret i32 %r }",
        "scev: unsupported llvm. at 38",
    ),
    (
        "define i32 @f(i32 %x) { %r = call i32 @llvm.abs.i32(i32 %x, i1 true) ret i32 %r }",
        "scev: unsupported llvm. at 38",
    ),
];

#[test]
fn refuses_what_spells_no_module(rt: HostRuntime) -> Result<(), Fail> {
    for (input, line) in OUTSIDE {
        assert!(rt; refused(rt.alloc(), input, line)?, "{input}");
    }
    Ok(())
}

#[test]
fn refuses_by_name_what_is_left_out(rt: HostRuntime) -> Result<(), Fail> {
    for (input, line) in LEFT_OUT {
        assert!(rt; refused(rt.alloc(), input, line)?, "{input}");
    }
    Ok(())
}
