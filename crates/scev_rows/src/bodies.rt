//! `print` on functions: their words, names and instructions.

use crate::call::printed;
use std::test::Fail;

/// What is read, and what is printed for it.
const BODIES: [(&str, &str); 38] = [
    // Blocks and parameters without names are numbered, in one sequence with results.
    (
        "define i32 @f() { ret i32 0 }",
        "define i32 @f() {\n0:\n  ret i32 0\n}\n",
    ),
    (
        "define void @f() { br label %1\n1:\n ret void }",
        "define void @f() {\n0:\n  br label %1\n1:\n  ret void\n}\n",
    ),
    (
        "define i32 @f(i32) { ret i32 %0 }",
        "define i32 @f(i32 %0) {\n1:\n  ret i32 %0\n}\n",
    ),
    (
        "define i32 @f(i32, i32 %x, i32) { %3 = add i32 %0, %1\n ret i32 %3 }",
        "define i32 @f(i32 %0, i32 %x, i32 %1) {\n2:\n  %3 = add i32 %0, %1\n  ret i32 %3\n}\n",
    ),
    (
        "define i32 @f(i32 %7) { %y = add i32 %7, 1\n %8 = add i32 %y, %7\n ret i32 %8 }",
        "define i32 @f(i32 %0) {\n1:\n  %y = add i32 %0, 1\n  %2 = add i32 %y, %0\n  ret i32 %2\n}\n",
    ),
    (
        "define i32 @f(i32 %18446744073709551615) { ret i32 %18446744073709551615 }",
        "define i32 @f(i32 %0) {\n1:\n  ret i32 %0\n}\n",
    ),
    (
        "define i32 @f(i32 %x) { add i32 %x, 1 ret i32 %1 }",
        "define i32 @f(i32 %x) {\n0:\n  %1 = add i32 %x, 1\n  ret i32 %1\n}\n",
    ),
    (
        "define i32 @f() { unreachable ret i32 0 }",
        "define i32 @f() {\n0:\n  unreachable\n1:\n  ret i32 0\n}\n",
    ),
    (
        "define void @f() { entry: ret void\n ret void }",
        "define void @f() {\nentry:\n  ret void\n0:\n  ret void\n}\n",
    ),
    // A name that is a number in quotes is a text, and names are written plain where they can be.
    (
        "define i32 @\"f g\"(i32 %\"x y\", i32 %\"5\", i32 %5) { ret i32 %\"5\" }",
        "define i32 @\"f g\"(i32 %\"x y\", i32 %\"5\", i32 %0) {\n1:\n  ret i32 %\"5\"\n}\n",
    ),
    (
        "define i32 @f(i32 %\"a\\41\") { ret i32 %aA }",
        "define i32 @f(i32 %aA) {\n0:\n  ret i32 %aA\n}\n",
    ),
    (
        "define i32 @f() { \"l l\": ret i32 0 }",
        "define i32 @f() {\n\"l l\":\n  ret i32 0\n}\n",
    ),
    // Numerals with leading zeros, of a number and of a type.
    (
        "define i32 @f() { ret i32 00012 }",
        "define i32 @f() {\n0:\n  ret i32 12\n}\n",
    ),
    (
        "define i032 @f() { ret i032 7 }",
        "define i32 @f() {\n0:\n  ret i32 7\n}\n",
    ),
    // Words of an operation.
    (
        "define i32 @f(i32 %x) { %y = add nsw nuw i32 %x, 1 ret i32 %y }",
        "define i32 @f(i32 %x) {\n0:\n  %y = add nuw nsw i32 %x, 1\n  ret i32 %y\n}\n",
    ),
    (
        "define i32 @f(i32 %x) { %y = udiv exact i32 %x, 2 %z = or disjoint i32 %y, 1
%w = sdiv exact i32 %z, -1 ret i32 %w }",
        "define i32 @f(i32 %x) {
0:
  %y = udiv exact i32 %x, 2
  %z = or disjoint i32 %y, 1
  %w = sdiv exact i32 %z, -1
  ret i32 %w
}
",
    ),
    (
        "define i8 @f(i32 %x) { %t = trunc nuw nsw i32 %x to i8 ret i8 %t }",
        "define i8 @f(i32 %x) {\n0:\n  %t = trunc i32 %x to i8\n  ret i8 %t\n}\n",
    ),
    (
        "define i64 @f(i32 %x) { %t = zext nneg i32 %x to i64 ret i64 %t }",
        "define i64 @f(i32 %x) {\n0:\n  %t = zext nneg i32 %x to i64\n  ret i64 %t\n}\n",
    ),
    (
        "define i1 @f(i32 %x) { %c = icmp samesign ult i32 %x, 5 ret i1 %c }",
        "define i1 @f(i32 %x) {\n0:\n  %c = icmp ult i32 %x, 5\n  ret i1 %c\n}\n",
    ),
    // Choices and casts.
    (
        "define i32 @f(i1 %c) { %s = select i1 %c, i32 1, i32 2 ret i32 %s }",
        "define i32 @f(i1 %c) {\n0:\n  %s = select i1 %c, i32 1, i32 2\n  ret i32 %s\n}\n",
    ),
    (
        "define i32 @f(i32 %x) { %y = freeze i32 %x ret i32 %y }",
        "define i32 @f(i32 %x) {\n0:\n  %y = freeze i32 %x\n  ret i32 %y\n}\n",
    ),
    // Memory.
    (
        "define void @f(ptr %p) { %a = alloca [4 x i32], align 16
%g = getelementptr nuw inbounds nusw [4 x i32], ptr %a, i64 0, i32 1
store i32 undef, ptr %g, align 4 %v = load i32, ptr %p ret void }",
        "define void @f(ptr %p) {
0:
  %a = alloca [4 x i32], align 16
  %g = getelementptr inbounds [4 x i32], ptr %a, i64 0, i32 1
  store i32 undef, ptr %g, align 4
  %v = load i32, ptr %p
  ret void
}
",
    ),
    // Calls, with words of arguments and attachments; a minimum needs no declaration.
    (
        "declare i32 @g(i32, ptr)
define i32 @f(ptr %p) {
%r = tail call noundef i32 @g(i32 noundef 3, ptr nonnull align 8 %p) #2, !srcloc !1
ret i32 %r }",
        "declare i32 @g(i32, ptr)
define i32 @f(ptr %p) {
0:
  %r = tail call noundef i32 @g(i32 noundef 3, ptr nonnull align 8 %p) #2
  ret i32 %r
}
",
    ),
    (
        "define i32 @f(i32 %x) { %r = call i32 @llvm.umin.i32(i32 %x, i32 7) ret i32 %r }",
        "define i32 @f(i32 %x) {\n0:\n  %r = call i32 @llvm.umin.i32(i32 %x, i32 7)\n  ret i32 %r\n}\n",
    ),
    // Calls and records of debugging are dropped.
    (
        "define void @f(i32 %x) { call void @llvm.dbg.value(metadata i32 %x, metadata !1,
  metadata !DIExpression()), !dbg !2
call void @llvm.lifetime.start.p0(i64 4, ptr %x) ret void }
",
        "define void @f(i32 %x) {\n0:\n  ret void\n}\n",
    ),
    (
        "define void @f(i32 %x) { #dbg_value(i32 %x, !1, !DIExpression(), !2)\n ret void, !dbg !3 }\n",
        "define void @f(i32 %x) {\n0:\n  ret void\n}\n",
    ),
    // Switches, with cases and without.
    (
        "define void @f(i32 %x) { switch i32 %x, label %a [ i32 1, label %a i32 -1, label %b ]
a: ret void
b: unreachable }",
        "define void @f(i32 %x) {
0:
  switch i32 %x, label %a [ i32 1, label %a i32 -1, label %b ]
a:
  ret void
b:
  unreachable
}
",
    ),
    (
        "define void @f(i1 %x) { switch i1 %x, label %a [ i1 true, label %a ]\na: ret void }",
        "define void @f(i1 %x) {\n0:\n  switch i1 %x, label %a [ i1 true, label %a ]\na:\n  ret void\n}\n",
    ),
    (
        "define void @f(i32 %x) { switch i32 %x, label %a []\na: ret void }",
        "define void @f(i32 %x) {\n0:\n  switch i32 %x, label %a [ ]\na:\n  ret void\n}\n",
    ),
    // Branches on what is no register.
    (
        "define void @f() { br i1 undef, label %a, label %a
a: br i1 poison, label %a, label %b
b: ret void }",
        "define void @f() {
0:
  br i1 undef, label %a, label %a
a:
  br i1 poison, label %a, label %b
b:
  ret void
}
",
    ),
    (
        "define void @f() { br i1 1, label %a, label %a\na: ret void }",
        "define void @f() {\n0:\n  br i1 true, label %a, label %a\na:\n  ret void\n}\n",
    ),
    // Words of a function, before its type and behind its parameters; its metadata is dropped.
    (
        "define void @f() !dbg !4 { ret void }\n",
        "define void @f() {\n0:\n  ret void\n}\n",
    ),
    (
        "define dso_local noundef i32 @f(i32 noundef %x) local_unnamed_addr #0 align 16 { ret i32 %x }\n",
        "define dso_local noundef i32 @f(i32 noundef %x) local_unnamed_addr #0 align 16 {
0:
  ret i32 %x
}
",
    ),
    (
        "define i32 @f() \"a\" \"b\"=\"c\" { ret i32 0 }\n",
        "define i32 @f() \"a\" \"b\"=\"c\" {\n0:\n  ret i32 0\n}\n",
    ),
    (
        "define i32 @f() cc 10 { ret i32 0 }\n",
        "define i32 @f() cc 10 {\n0:\n  ret i32 0\n}\n",
    ),
    (
        "define cc 10 i32 @f() { ret i32 0 }\n",
        "define cc 10 i32 @f() {\n0:\n  ret i32 0\n}\n",
    ),
    // A pointer that is chosen, and an element behind it.
    (
        "@gl0 = global [4 x i64] zeroinitializer
define ptr @f(ptr %p, i64 %0) {
entry:
  %al = alloca [4 x i32]
  store i32 7, ptr %al
  %1 = icmp eq i64 %0, 4
  %2 = select i1 %1, ptr %p, ptr %p
  %3 = and i64 %0, 7
  %4 = getelementptr inbounds i8, ptr %2, i64 %3
  ret ptr %2
}
",
        "@gl0 = global [4 x i64] zeroinitializer
define ptr @f(ptr %p, i64 %0) {
entry:
  %al = alloca [4 x i32]
  store i32 7, ptr %al
  %1 = icmp eq i64 %0, 4
  %2 = select i1 %1, ptr %p, ptr %p
  %3 = and i64 %0, 7
  %4 = getelementptr inbounds i8, ptr %2, i64 %3
  ret ptr %2
}
",
    ),
    // An odd width.
    (
        "define i7 @f(i7 %n) {
entry:
  br label %loop
loop:
  %i = phi i7 [ -2, %entry ], [ %i.next, %loop ]
  %i.next = add nsw i7 %i, -2
  %c = icmp ne i7 %i.next, %n
  br i1 %c, label %loop, label %exit
exit:
  %lc = phi i7 [ %i, %loop ]
  ret i7 %lc
}
",
        "define i7 @f(i7 %n) {
entry:
  br label %loop
loop:
  %i = phi i7 [ -2, %entry ], [ %i.next, %loop ]
  %i.next = add nsw i7 %i, -2
  %c = icmp ne i7 %i.next, %n
  br i1 %c, label %loop, label %exit
exit:
  %lc = phi i7 [ %i, %loop ]
  ret i7 %lc
}
",
    ),
];

#[test]
fn prints_bodies(rt: HostRuntime) -> Result<(), Fail> {
    for (input, text) in BODIES {
        assert!(rt; printed(rt.alloc(), input, text)?, "{input}");
    }
    Ok(())
}
