//! `eval` on functions: each instruction at its edges, memory, calls, globals and arguments. The numbers are worked out
//! from the LLVM Language Reference and `docs/PROFILE.md`.

use crate::call::{refuses, writes};
use std::test::Fail;

/// An operation of two numbers of 8 bits that is returned: the operation, the two numbers, and what is returned.
const OF_TWO: [(&str, &str, &str); 40] = [
    // Sums, differences and products wrap; with a flag that is broken they are poison.
    ("add", "200,100", "returned 44"),
    ("add nuw", "200,100", "returned poison"),
    ("add nuw", "200,55", "returned 255"),
    ("add nsw", "127,1", "returned poison"),
    ("add nsw", "255,1", "returned 0"),
    ("sub", "1,2", "returned 255"),
    ("sub nuw", "1,2", "returned poison"),
    ("sub nsw", "128,1", "returned poison"),
    ("mul", "16,17", "returned 16"),
    ("mul nuw", "16,16", "returned poison"),
    ("mul nsw", "64,2", "returned poison"),
    ("mul nsw", "255,255", "returned 1"),
    // Divisions: by zero, by poison, of the least number and of poison by -1; poison of a poison dividend else.
    ("udiv", "7,2", "returned 3"),
    ("udiv exact", "7,2", "returned poison"),
    ("udiv exact", "8,2", "returned 4"),
    ("urem", "7,4", "returned 3"),
    ("sdiv", "249,2", "returned 253"),
    ("sdiv exact", "249,2", "returned poison"),
    ("srem", "249,2", "returned 255"),
    ("udiv", "poison,2", "returned poison"),
    ("sdiv", "poison,2", "returned poison"),
    // Shifts: by the width and more, and where a bit leaves.
    ("shl", "129,1", "returned 2"),
    ("shl", "1,7", "returned 128"),
    ("shl", "1,8", "returned poison"),
    ("shl nuw", "128,1", "returned poison"),
    ("shl nsw", "64,1", "returned poison"),
    ("shl nsw", "192,1", "returned 128"),
    ("lshr", "128,7", "returned 1"),
    ("lshr", "128,8", "returned poison"),
    ("lshr exact", "3,1", "returned poison"),
    ("ashr", "128,7", "returned 255"),
    ("ashr exact", "129,1", "returned poison"),
    ("ashr exact", "130,1", "returned 193"),
    // Bits.
    ("and", "12,10", "returned 8"),
    ("or", "12,10", "returned 14"),
    ("or disjoint", "12,10", "returned poison"),
    ("or disjoint", "12,2", "returned 14"),
    ("xor", "12,10", "returned 6"),
    ("xor", "poison,0", "returned poison"),
    ("and", "0,poison", "returned poison"),
];

#[test]
fn operations_of_two(rt: HostRuntime) -> Result<(), Fail> {
    let alloc = rt.alloc();
    for (operation, args, line) in OF_TWO {
        let text = format!(in alloc;
            "define i8 @f(i8 %x, i8 %y) {{\na:\n  %v = {operation} i8 %x, %y\n  ret i8 %v\n}}\n"
        )?;
        let wanted = format!(in alloc; "{line}\nsteps 2\nevents 0\n")?;
        assert!(rt;
            writes(
                alloc,
                &text,
                &["eval", "--function", "f", "--args", args],
                &wanted
            )?
        );
    }
    Ok(())
}

/// Divisions whose behaviour is undefined.
const UNDEFINED: [(&str, &str); 8] = [
    ("udiv", "1,0"),
    ("urem", "1,0"),
    ("sdiv", "1,0"),
    ("srem", "1,poison"),
    ("sdiv", "128,255"),
    ("srem", "128,255"),
    ("sdiv", "poison,255"),
    ("udiv", "poison,poison"),
];

#[test]
fn undefined_divisions(rt: HostRuntime) -> Result<(), Fail> {
    let alloc = rt.alloc();
    for (operation, args) in UNDEFINED {
        let text = format!(in alloc;
            "define i8 @f(i8 %x, i8 %y) {{\na:\n  %v = {operation} i8 %x, %y\n  ret i8 %v\n}}\n"
        )?;
        let words = ["eval", "--function", "f", "--args", args];
        assert!(rt; writes(alloc, &text, &words, "undefined\nsteps 1\nevents 0\n")?);
    }
    Ok(())
}

/// A function, the text of its arguments, and the three lines.
const FUNCTIONS: [(&str, &str, &str); 34] = [
    // Conversions.
    (
        "define i16 @f(i8 %x) {\na:\n  %v = zext nneg i8 %x to i16\n  ret i16 %v\n}\n",
        "128",
        "returned poison\nsteps 2\nevents 0\n",
    ),
    (
        "define i16 @f(i8 %x) {\na:\n  %v = sext i8 %x to i16\n  ret i16 %v\n}\n",
        "128",
        "returned 65408\nsteps 2\nevents 0\n",
    ),
    (
        "define i8 @f(i16 %x) {\na:\n  %v = trunc i16 %x to i8\n  ret i8 %v\n}\n",
        "511",
        "returned 255\nsteps 2\nevents 0\n",
    ),
    // `freeze` of poison chooses 0; a number stays; `undef` is 0 wherever it stands.
    (
        "define i8 @f(i8 %x) {\na:\n  %v = freeze i8 %x\n  %w = add i8 %v, undef\n  ret i8 %w\n}\n",
        "poison",
        "returned 0\nsteps 3\nevents 0\n",
    ),
    (
        "define i8 @f(i8 %x) {\na:\n  %v = freeze i8 %x\n  ret i8 %v\n}\n",
        "7",
        "returned 7\nsteps 2\nevents 0\n",
    ),
    // `select`: only the chosen arm counts, and poison gives poison.
    (
        "define i8 @f(i1 %c) {\na:\n  %v = select i1 %c, i8 1, i8 poison\n  ret i8 %v\n}\n",
        "1",
        "returned 1\nsteps 2\nevents 0\n",
    ),
    (
        "define i8 @f(i1 %c) {\na:\n  %v = select i1 %c, i8 1, i8 2\n  ret i8 %v\n}\n",
        "poison",
        "returned poison\nsteps 2\nevents 0\n",
    ),
    // Branches and switches on poison, and what can't be reached.
    (
        "define void @f(i1 %c) {\na:\n  br i1 %c, label %b, label %b\nb:\n  ret void\n}\n",
        "poison",
        "undefined\nsteps 1\nevents 0\n",
    ),
    (
        "define i8 @f(i8 %x) {\na:\n  switch i8 %x, label %b [ i8 -1, label %c ]\nb:\n  ret i8 1\nc:\n  ret i8 2\n}\n",
        "255",
        "returned 2\nsteps 2\nevents 0\n",
    ),
    (
        "define i8 @f(i8 %x) {\na:\n  switch i8 %x, label %b [ i8 -1, label %c ]\nb:\n  ret i8 1\nc:\n  ret i8 2\n}\n",
        "poison",
        "undefined\nsteps 1\nevents 0\n",
    ),
    (
        "define void @f(i8 %x) {\na:\n  unreachable\n}\n",
        "0",
        "undefined\nsteps 1\nevents 0\n",
    ),
    (
        "define void @f(i8 %x) {\na:\n  ret void\n}\n",
        "0",
        "returned void\nsteps 1\nevents 0\n",
    ),
    // Memory: nothing written gives 0 as a whole, also where a part was written; poison bytes give poison.
    (
        "define i16 @f(i8 %x) {
a:
  %p = alloca i16
  store i8 %x, ptr %p
  %v = load i16, ptr %p
  ret i16 %v
}
",
        "7",
        "returned 0\nsteps 4\nevents 0\n",
    ),
    (
        "define i16 @f(ptr %p) {\na:\n  store i8 poison, ptr %p\n  %v = load i16, ptr %p\n  ret i16 %v\n}\n",
        "b2",
        "returned poison\nsteps 3\nevents 0\n",
    ),
    // The lowest byte stands first.
    (
        "define i8 @f(ptr %p) {\na:\n  store i16 258, ptr %p\n  %v = load i8, ptr %p\n  ret i8 %v\n}\n",
        "b2",
        "returned 2\nsteps 3\nevents 0\n",
    ),
    // A load at the last bytes of a block, one byte past it, at null and at poison.
    (
        "define i32 @f(ptr %p) {\na:\n  %v = load i32, ptr %p\n  ret i32 %v\n}\n",
        "b4",
        "returned 0\nsteps 2\nevents 0\n",
    ),
    (
        "define i32 @f(ptr %p) {\na:\n  %v = load i32, ptr %p\n  ret i32 %v\n}\n",
        "b3",
        "undefined\nsteps 1\nevents 0\n",
    ),
    (
        "define i32 @f(ptr %p) {\na:\n  %v = load i32, ptr %p\n  ret i32 %v\n}\n",
        "null",
        "undefined\nsteps 1\nevents 0\n",
    ),
    (
        "define void @f(ptr %p) {\na:\n  store i32 1, ptr %p\n  ret void\n}\n",
        "poison",
        "undefined\nsteps 1\nevents 0\n",
    ),
    // Addresses: with `inbounds` from 0 to the block's size, without it anywhere, modulo 2^64.
    (
        "define ptr @f(ptr %p, i64 %i) {\na:\n  %q = getelementptr inbounds i8, ptr %p, i64 %i\n  ret ptr %q\n}\n",
        "b4,4",
        "returned block 0 offset 4\nsteps 2\nevents 0\n",
    ),
    (
        "define ptr @f(ptr %p, i64 %i) {\na:\n  %q = getelementptr inbounds i8, ptr %p, i64 %i\n  ret ptr %q\n}\n",
        "b4,5",
        "returned poison\nsteps 2\nevents 0\n",
    ),
    (
        "define ptr @f(ptr %p, i64 %i) {\na:\n  %q = getelementptr inbounds i8, ptr %p, i64 %i\n  ret ptr %q\n}\n",
        "b4,18446744073709551615",
        "returned poison\nsteps 2\nevents 0\n",
    ),
    (
        "define ptr @f(ptr %p, i64 %i) {\na:\n  %q = getelementptr i8, ptr %p, i64 %i\n  ret ptr %q\n}\n",
        "b4,18446744073709551615",
        "returned block 0 offset 18446744073709551615\nsteps 2\nevents 0\n",
    ),
    (
        "define ptr @f(ptr %p, i64 %i) {\na:\n  %q = getelementptr inbounds i8, ptr %p, i64 %i\n  ret ptr %q\n}\n",
        "null,0",
        "returned null\nsteps 2\nevents 0\n",
    ),
    (
        "define ptr @f(ptr %p, i64 %i) {\na:\n  %q = getelementptr inbounds i8, ptr %p, i64 %i\n  ret ptr %q\n}\n",
        "null,1",
        "returned poison\nsteps 2\nevents 0\n",
    ),
    (
        "define ptr @f(ptr %p, i64 %i) {\na:\n  %q = getelementptr i8, ptr %p, i64 %i\n  ret ptr %q\n}\n",
        "null,1",
        "returned null\nsteps 2\nevents 0\n",
    ),
    (
        "define ptr @f(ptr %p, i64 %i) {\na:\n  %q = getelementptr i8, ptr %p, i64 %i\n  ret ptr %q\n}\n",
        "b4,poison",
        "returned poison\nsteps 2\nevents 0\n",
    ),
    // Indices are signed, and step the whole type, then what stands in one dimension less: 12 - 6 + 4.
    (
        "define ptr @f(ptr %p, i8 %i) {
a:
  %q = getelementptr [2 x [3 x i16]], ptr %p, i64 1, i8 %i, i64 2
  ret ptr %q
}
",
        "b16,255",
        "returned block 0 offset 10\nsteps 2\nevents 0\n",
    ),
    // Pointers of two blocks: the choice 0 is the answer of `eq` and of `ne`; of one block their offsets are compared.
    (
        "define i1 @f(ptr %p, ptr %q) {\na:\n  %c = icmp eq ptr %p, %q\n  ret i1 %c\n}\n",
        "b1,b1",
        "returned 0\nsteps 2\nevents 0\n",
    ),
    (
        "define i1 @f(ptr %p, ptr %q) {\na:\n  %c = icmp ne ptr %p, %q\n  ret i1 %c\n}\n",
        "b1,b1",
        "returned 0\nsteps 2\nevents 0\n",
    ),
    (
        "define i1 @f(ptr %p) {
a:
  %q = getelementptr i8, ptr %p, i64 1
  %c = icmp ne ptr %p, %q
  ret i1 %c
}
",
        "b1",
        "returned 1\nsteps 3\nevents 0\n",
    ),
    // Calls: of a minimum, which is no event, and of the outside, which answers 0 or null.
    (
        "define i8 @f(i8 %x) {\na:\n  %v = call i8 @llvm.smin.i8(i8 %x, i8 1)\n  ret i8 %v\n}\n",
        "255",
        "returned 255\nsteps 2\nevents 0\n",
    ),
    (
        "declare i8 @g(i8)
define i8 @f(i8 %x) {
a:
  %v = call i8 @g(i8 %x)
  %w = call i8 @g(i8 undef)
  ret i8 %v
}
",
        "9",
        "returned 0\nsteps 3\nevents 2\n",
    ),
    (
        "declare ptr @g()\ndefine ptr @f(i8 %x) {\na:\n  %v = call ptr @g()\n  ret ptr %v\n}\n",
        "9",
        "returned null\nsteps 2\nevents 1\n",
    ),
];

#[test]
fn functions(rt: HostRuntime) -> Result<(), Fail> {
    let alloc = rt.alloc();
    for (text, args, wanted) in FUNCTIONS {
        assert!(rt;
            writes(
                alloc,
                text,
                &["eval", "--function", "f", "--args", args],
                wanted
            )?
        );
    }
    Ok(())
}

/// Globals, a load of one of them, and what it gives.
const GLOBALS: [(&str, &str, &str); 8] = [
    ("@g = global i32 258\n", "i8, ptr @g", "2"),
    ("@g = external global i16\n", "i16, ptr @g", "0"),
    ("@g = global i16 undef\n", "i16, ptr @g", "0"),
    ("@g = global i16 poison\n", "i16, ptr @g", "poison"),
    ("@g = global i16 -2\n", "i16, ptr @g", "65534"),
    ("@g = constant [2 x i8] c\"ab\"\n", "i16, ptr @g", "25185"),
    (
        "@g = constant [2 x i8] [i8 1, i8 2]\n",
        "i16, ptr @g",
        "513",
    ),
    (
        "@g = global [2 x [2 x i8]] [[2 x i8] zeroinitializer, [2 x i8] c\"\\01\\02\"]\n",
        "i32, ptr @g",
        "33619968",
    ),
];

#[test]
fn globals(rt: HostRuntime) -> Result<(), Fail> {
    let alloc = rt.alloc();
    for (globals, load, value) in GLOBALS {
        let kind = if load.starts_with("i8") {
            "i8"
        } else if load.starts_with("i16") {
            "i16"
        } else {
            "i32"
        };
        let text = format!(in alloc;
            "{globals}define {kind} @f() {{\na:\n  %v = load {load}\n  ret {kind} %v\n}}\n"
        )?;
        let wanted = format!(in alloc; "returned {value}\nsteps 2\nevents 0\n")?;
        assert!(rt; writes(alloc, &text, &["eval", "--function", "f"], &wanted)?);
    }
    let text = "@g = global i8 1
@h = global i8 2
define ptr @f(ptr %p) {
a:
  ret ptr %p
}
define ptr @h2() {
a:
  ret ptr @h
}
";
    assert!(rt;
        writes(
            alloc,
            text,
            &["eval", "--function=f", "--args=b3"],
            "returned block 2 offset 0\nsteps 1\nevents 0\n"
        )?
    );
    assert!(rt;
        writes(
            alloc,
            text,
            &["--function=h2", "eval"],
            "returned block 1 offset 0\nsteps 1\nevents 0\n"
        )?
    );
    Ok(())
}

/// A loop of 8 bits that wraps.
const WRAPPING: &str = "define i8 @f() {
entry:
  br label %loop
loop:
  %i = phi i8 [ 0, %entry ], [ %i.next, %loop ]
  %i.next = add i8 %i, 1
  %c = icmp ne i8 %i.next, 0
  br i1 %c, label %loop, label %exit
exit:
  ret i8 %i
}
";

/// A loop up to a parameter in steps of 2.
const UP_TO: &str = "define i32 @f(i32 %n) {
entry:
  br label %loop
loop:
  %i = phi i32 [ 0, %entry ], [ %i.next, %body ]
  %c = icmp slt i32 %i, %n
  br i1 %c, label %body, label %exit
body:
  %i.next = add nsw i32 %i, 2
  br label %loop
exit:
  ret i32 %i
}
";

/// Two phis, of which one may be poison.
const TWINS: &str = "define i8 @f() {
entry:
  br label %loop
loop:
  %p = phi i8 [ 0, %entry ], [ %p.next, %loop ]
  %q = phi i8 [ 0, %entry ], [ %q.next, %loop ]
  %p.next = add nsw i8 %p, 1
  %q.next = add i8 %q, 1
  %c = icmp ne i8 %q.next, -56
  br i1 %c, label %loop, label %exit
exit:
  ret i8 %q
}
";

/// A loop without end.
const ENDLESS: &str = "define i8 @f() {
entry:
  br label %loop
loop:
  %i = phi i8 [ 0, %entry ], [ %i.next, %body ]
  %c = icmp ule i8 %i, 255
  br i1 %c, label %body, label %exit
body:
  %i.next = add i8 %i, 1
  br label %loop
exit:
  ret i8 %i
}
";

#[test]
fn loops(rt: HostRuntime) -> Result<(), Fail> {
    let alloc = rt.alloc();
    assert!(rt;
        writes(
            alloc,
            WRAPPING,
            &["eval", "--function", "f"],
            "returned 255\nsteps 770\nevents 0\n"
        )?
    );
    let words = ["eval", "--function", "f", "--args", "7"];
    assert!(rt; writes(alloc, UP_TO, &words, "returned 8\nsteps 20\nevents 0\n")?);
    assert!(rt;
        writes(
            alloc,
            TWINS,
            &["eval", "--function", "f"],
            "returned 199\nsteps 802\nevents 0\n"
        )?
    );
    let words = ["eval", "--steps", "1000", "--function", "f"];
    assert!(rt; writes(alloc, ENDLESS, &words, "running\nsteps 1000\nevents 0\n")?);
    let words = ["eval", "--steps", "1000000", "--function", "f"];
    assert!(rt; writes(alloc, ENDLESS, &words, "running\nsteps 1000000\nevents 0\n")?);
    let words = ["eval", "--steps=0", "--function", "f"];
    assert!(rt; writes(alloc, ENDLESS, &words, "running\nsteps 0\nevents 0\n")?);
    Ok(())
}

/// A division by the parameter.
const DIVISION: &str = "define i32 @f(i32 %x) {\na:\n  %q = udiv i32 8, %x\n  ret i32 %q\n}\n";

#[test]
fn arguments_and_names(rt: HostRuntime) -> Result<(), Fail> {
    let alloc = rt.alloc();
    let eval = |args| ["eval", "--function", "f", "--args", args];
    assert!(rt;
        writes(
            alloc,
            DIVISION,
            &eval("0"),
            "undefined\nsteps 1\nevents 0\n"
        )?
    );
    assert!(rt;
        writes(
            alloc,
            DIVISION,
            &eval("poison"),
            "undefined\nsteps 1\nevents 0\n"
        )?
    );
    assert!(rt;
        writes(
            alloc,
            DIVISION,
            &eval("003"),
            "returned 2\nsteps 2\nevents 0\n"
        )?
    );
    assert!(rt;
        writes(
            alloc,
            DIVISION,
            &eval("4294967295"),
            "returned 0\nsteps 2\nevents 0\n"
        )?
    );
    for args in [
        "1,2",
        "1,",
        "4294967296",
        "b4",
        "null",
        "x",
        "0x1",
        "99999999999999999999999999",
    ] {
        assert!(rt; refuses(alloc, DIVISION, &eval(args), "scev: bad arguments")?);
    }
    assert!(rt;
        refuses(
            alloc,
            DIVISION,
            &["eval", "--function", "f"],
            "scev: bad arguments"
        )?
    );
    assert!(rt;
        refuses(
            alloc,
            DIVISION,
            &["eval", "--function", "g"],
            "scev: no function g"
        )?
    );
    assert!(rt;
        refuses(
            alloc,
            DIVISION,
            &["eval", "--function=f=g"],
            "scev: no function \"f=g\""
        )?
    );
    Ok(())
}
