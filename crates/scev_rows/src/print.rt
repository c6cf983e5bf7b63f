//! `print` on whole inputs.

use crate::call::printed;
use std::test::Fail;

/// A loop of ten turns.
const TEN_TURNS: &str = "define i32 @f() {
entry:
  br label %loop
loop:
  %i = phi i32 [ 0, %entry ], [ %i.next, %body ]
  %c = icmp ult i32 %i, 10
  br i1 %c, label %body, label %exit
body:
  %i.next = add i32 %i, 1
  br label %loop
exit:
  ret i32 %i
}
";

/// The same with another operation.
const TEN_TURNS_BACK: &str = "define i32 @f() {
entry:
  br label %loop
loop:
  %i = phi i32 [ 0, %entry ], [ %i.next, %body ]
  %c = icmp ult i32 %i, 10
  br i1 %c, label %body, label %exit
body:
  %i.next = sub i32 %i, 1
  br label %loop
exit:
  ret i32 %i
}
";

/// What is read, and what is printed for it.
const PRINTED: [(&str, &str); 19] = [
    (TEN_TURNS, TEN_TURNS),
    (TEN_TURNS_BACK, TEN_TURNS_BACK),
    (
        "define i32 @f(i32 %x){entry: ret i32 4294967295}",
        "define i32 @f(i32 %x) {\nentry:\n  ret i32 -1\n}\n",
    ),
    // Blanks of every kind, a comment, and no line feed at the end.
    (
        "; a comment\n\tdefine\r\ni32@f ( i32 %x ,i32 %y )\n{a:br label%b;the end\nb:ret i32%y}",
        "define i32 @f(i32 %x, i32 %y) {\na:\n  br label %b\nb:\n  ret i32 %y\n}\n",
    ),
    // Flags in the other order, and the numerals next to the limits of the signed reading.
    (
        "define i32 @f(){a: %x = add nsw nuw i32 2147483647, 2147483648 ret i32 -2147483648}",
        "define i32 @f() {\na:\n  %x = add nuw nsw i32 2147483647, -2147483648\n  ret i32 -2147483648\n}\n",
    ),
    // A numeral with leading zeros, and a minus before zero.
    (
        "define i32 @f(){a: %x = add nsw i32 007, -0 ret i32 %x}",
        "define i32 @f() {\na:\n  %x = add nsw i32 7, 0\n  ret i32 %x\n}\n",
    ),
    // Names of every byte that a word may have, and a value and a block of one name.
    (
        "define i32 @$._-9(i32 %a-){a-:%_ = icmp sge i32 1, %a- br i1 %_, label %a--, label %q a--:br label %q q:ret i32%a-}",
        "define i32 @$._-9(i32 %a-) {
a-:
  %_ = icmp sge i32 1, %a-
  br i1 %_, label %a--, label %q
a--:
  br label %q
q:
  ret i32 %a-
}
",
    ),
    // Two entries of a phi for one block, which has two edges.
    (
        "define i32 @f(i1 %c){a:br i1%c,label%b,label%b b:%p=phi i32[1,%a],[1,%a]ret i32%p}",
        "define i32 @f(i1 %c) {
a:
  br i1 %c, label %b, label %b
b:
  %p = phi i32 [ 1, %a ], [ 1, %a ]
  ret i32 %p
}
",
    ),
    // Nothing but gaps is a module without items.
    ("", ""),
    (" \t\r\n", ""),
    ("; only a comment", ""),
    // Two functions.
    (
        "define i32 @f(){a: ret i32 1} define i32 @g(){a: ret i32 1}",
        "define i32 @f() {\na:\n  ret i32 1\n}\ndefine i32 @g() {\na:\n  ret i32 1\n}\n",
    ),
    // What has no name, or a number for one.
    (
        "define i32 @f(){ret i32 1}",
        "define i32 @f() {\n0:\n  ret i32 1\n}\n",
    ),
    (
        "define i32 @f(){1: ret i32 1}",
        "define i32 @f() {\n0:\n  ret i32 1\n}\n",
    ),
    (
        "define i32 @f(i32){a: ret i32 1}",
        "define i32 @f(i32 %0) {\na:\n  ret i32 1\n}\n",
    ),
    (
        "define i32 @f(i32 %1){a: ret i32 1}",
        "define i32 @f(i32 %0) {\na:\n  ret i32 1\n}\n",
    ),
    (
        "define i32 @f(){a: add i32 1, 2 ret i32 1}",
        "define i32 @f() {\na:\n  %0 = add i32 1, 2\n  ret i32 1\n}\n",
    ),
    // Quotes that a name doesn't need, and another width.
    (
        "define i32 @f(i32 %\"x\"){a: ret i32 1}",
        "define i32 @f(i32 %x) {\na:\n  ret i32 1\n}\n",
    ),
    (
        "define i64 @f(){a: ret i64 1}",
        "define i64 @f() {\na:\n  ret i64 1\n}\n",
    ),
];

#[test]
fn prints_modules(rt: HostRuntime) -> Result<(), Fail> {
    for (input, text) in PRINTED {
        assert!(rt; printed(rt.alloc(), input, text)?, "{input}");
    }
    Ok(())
}
