//! `report` on whole inputs.

use crate::call::report;
use scev_tool::Status;
use std::test::Fail;

/// What is read, and what is reported of it.
const REPORTED: [(&str, &str); 16] = [
    // A start and a step by their signed readings.
    (
        "define i32 @f() {
entry:
  br label %loop
loop:
  %i = phi i32 [ 4294967295, %entry ], [ %i.next, %loop ]
  %i.next = add i32 %i, -3
  %c = icmp ult i32 %i, 10
  br i1 %c, label %loop, label %exit
exit:
  ret i32 %i
}
",
        "; scev report 1\n; function @f\n; loop %loop depth 1\n; phi %i = {-1,+,-3}<%loop>\n",
    ),
    // Two entries from outside that start at one number, written in two ways.
    (
        "define i32 @f(i32 %n){a: %c = icmp eq i32 %n, 0 br i1 %c, label %b, label %l
b: br label %l
l: %i = phi i32 [ -1, %a ], [ 4294967295, %b ], [ %j, %l ] %j = add i32 %i, 1
%d = icmp ne i32 %j, %n br i1 %d, label %l, label %e
e: ret i32 %i}",
        "; scev report 1\n; function @f\n; loop %l depth 1\n; phi %i = {-1,+,1}<%l>\n",
    ),
    // Two that start at different ones.
    (
        "define i32 @f(i32 %n){a: %c = icmp eq i32 %n, 0 br i1 %c, label %b, label %l
b: br label %l
l: %i = phi i32 [ 1, %a ], [ 2, %b ], [ %j, %l ] %j = add i32 %i, 1
%d = icmp ne i32 %j, %n br i1 %d, label %l, label %e
e: ret i32 %i}",
        "; scev report 1\n; function @f\n; loop %l depth 1\n; phi %i = %i\n",
    ),
    // A step by a register.
    (
        "define i32 @f(i32 %n){a: br label %l
l: %i = phi i32 [ 0, %a ], [ %j, %l ] %j = add i32 %i, %n
%d = icmp ne i32 %j, 7 br i1 %d, label %l, label %e
e: ret i32 %i}",
        "; scev report 1\n; function @f\n; loop %l depth 1\n; phi %i = %i\n",
    ),
    // The numeral on the left, behind flags; and steps and starts at the limits of the signed reading.
    (
        "define i32 @f(i32 %n){a: br label %l
l: %i = phi i32 [ %j, %l ], [ 2147483648, %a ]
%k = phi i32 [ 2147483647, %a ], [ %m, %l ]
%j = add nuw nsw i32 2147483647, %i %m = add nsw i32 %k, 2147483648
%d = icmp ne i32 %j, %n br i1 %d, label %l, label %e
e: ret i32 %i}",
        "; scev report 1
; function @f
; loop %l depth 1
; phi %i = {-2147483648,+,2147483647}<%l>
; phi %k = {2147483647,+,-2147483648}<%l>
",
    ),
    // A step of zero.
    (
        "define i32 @f(){a: br label %l
l: %i = phi i32 [ 5, %a ], [ %j, %l ] %j = add i32 0, %i br label %l}",
        "; scev report 1\n; function @f\n; loop %l depth 1\n; phi %i = {5,+,0}<%l>\n",
    ),
    // Two loops in one function, in text order and not in that of control.
    (
        "define i32 @f(i32 %n){a: br label %s
r: %i = phi i32 [ 0, %s ], [ %j, %r ] %j = add i32 %i, 1
%c = icmp ult i32 %j, %n br i1 %c, label %r, label %e
s: %k = phi i32 [ 9, %a ], [ %m, %s ] %m = add i32 %k, -1
%d = icmp ne i32 %m, 0 br i1 %d, label %s, label %r
e: ret i32 %i}",
        "; scev report 1
; function @f
; loop %r depth 1
; phi %i = {0,+,1}<%r>
; loop %s depth 1
; phi %k = {9,+,-1}<%s>
",
    ),
    // A block with an edge to itself is no such loop where a second walk leads back to it.
    (
        "define i32 @f(i32 %n){a: br label %l
l: %i = phi i32 [ 0, %a ], [ %j, %l ], [ 0, %b ] %j = add i32 %i, 1
%c = icmp ult i32 %j, %n br i1 %c, label %l, label %b
b: %d = icmp ne i32 %j, 3 br i1 %d, label %l, label %e
e: ret i32 %i}",
        "; scev report 1\n; function @f\n",
    ),
    // A loop that control doesn't reach.
    (
        "define i32 @f(i32 %n){a: ret i32 %n
l: %i = phi i32 [ %j, %l ] %j = add i32 %i, 1 br label %l}",
        "; scev report 1\n; function @f\n",
    ),
    // Both targets of a branch are the block itself, so that its phi has two entries from there.
    (
        "define i32 @f(i32 %n){a: br label %l
l: %i = phi i32 [ 0, %a ], [ %j, %l ], [ %j, %l ] %j = add i32 %i, 1
%c = icmp ult i32 %j, %n br i1 %c, label %l, label %l}",
        "; scev report 1\n; function @f\n; loop %l depth 1\n; phi %i = %i\n",
    ),
    // What is added isn't the phi itself; and what comes back is no sum.
    (
        "define i32 @f(i32 %n){a: br label %l
l: %i = phi i32 [ 0, %a ], [ %j, %l ] %k = phi i32 [ 0, %a ], [ %i, %l ]
%j = add i32 %k, 1 br label %l}",
        "; scev report 1\n; function @f\n; loop %l depth 1\n; phi %i = %i\n; phi %k = %k\n",
    ),
    // A loop without phis.
    (
        "define i32 @f(){a: br label %l l: br label %l}",
        "; scev report 1\n; function @f\n; loop %l depth 1\n",
    ),
    // A module without functions.
    ("; nothing\n", "; scev report 1\n"),
    (
        "@g = global i32 0\ndeclare i32 @h(i32)",
        "; scev report 1\n",
    ),
    // A function of other forms is named alone, and one behind it is reported.
    (
        "define i64 @f(){a: br label %l
l: %i = phi i64 [ 0, %a ], [ %j, %l ] %j = add i64 %i, 1 br label %l}
define i32 @g(){a: br label %l
l: %i = phi i32 [ 5, %a ], [ %j, %l ] %j = add i32 0, %i br label %l}",
        "; scev report 1\n; function @f\n; function @g\n; loop %l depth 1\n; phi %i = {5,+,0}<%l>\n",
    ),
    (
        "define i32 @f(i32 %n){a: br label %l
l: %i = phi i32 [ 0, %a ], [ %j, %l ] %j = sub i32 %i, 1
%c = icmp ult i32 %j, %n br i1 %c, label %l, label %e
e: ret i32 %i}",
        "; scev report 1\n; function @f\n",
    ),
];

/// What breaks a rule, and has no report.
const ILL: [(&str, &str); 9] = [
    // A register that is defined twice.
    (
        "define i32 @f(i32 %n){a: br label %l
l: %i = phi i32 [ 0, %a ], [ %j, %l ] %i = phi i32 [ 0, %a ], [ %j, %l ] %j = add i32 %i, 1
%c = icmp ult i32 %j, %n br i1 %c, label %l, label %e
e: ret i32 %i}",
        "scev: rule DuplicateName in @f: %i\n",
    ),
    // A register that an instruction defines again, behind the loop.
    (
        "define i32 @f(i32 %n){a: br label %l
l: %i = phi i32 [ 0, %a ], [ %j, %l ] %j = add i32 %i, 1
%c = icmp ult i32 %j, %n br i1 %c, label %l, label %e
e: %j = add i32 %i, 2 ret i32 %i}",
        "scev: rule DuplicateName in @f: %j\n",
    ),
    // A parameter that an instruction defines again.
    (
        "define i32 @f(i32 %n){a: br label %l
l: %i = phi i32 [ 0, %a ], [ %j, %l ] %j = add i32 %i, 1
%c = icmp ult i32 %j, 9 br i1 %c, label %l, label %e
e: %n = add i32 %i, 2 ret i32 %i}",
        "scev: rule DuplicateName in @f: %n\n",
    ),
    // A register that nothing defines.
    (
        "define i32 @f(i32 %n){a: br label %l
l: %i = phi i32 [ 0, %a ], [ %j, %l ] %j = add i32 %i, 1
%c = icmp ult i32 %j, %m br i1 %c, label %l, label %e
e: ret i32 %i}",
        "scev: rule UndefinedName in @f: %m in %l\n",
    ),
    // A label that stands twice.
    (
        "define i32 @f(i32 %n){a: br label %l
l: %i = phi i32 [ 0, %a ], [ %j, %l ] %j = add i32 %i, 1
%c = icmp ult i32 %j, %n br i1 %c, label %l, label %e
e: ret i32 %i
e: ret i32 %j}",
        "scev: rule DuplicateName in @f: %e\n",
    ),
    // A label that stands nowhere.
    (
        "define i32 @f(i32 %n){a: br label %l
l: %i = phi i32 [ 0, %a ], [ %j, %l ] %j = add i32 %i, 1
%c = icmp ult i32 %j, %n br i1 %c, label %l, label %e}",
        "scev: rule UndefinedName in @f: %e\n",
    ),
    // A phi behind another instruction.
    (
        "define i32 @f(i32 %n){a: br label %l
l: %i = phi i32 [ 0, %a ], [ %j, %l ] %j = add i32 %i, 1 %k = phi i32 [ 0, %a ], [ 1, %l ]
%c = icmp ult i32 %j, %n br i1 %c, label %l, label %e
e: ret i32 %i}",
        "scev: rule PhiNotFirst in @f: %k\n",
    ),
    // No entry from outside.
    (
        "define i32 @f(i32 %n){a: br label %l
l: %i = phi i32 [ %j, %l ] %j = add i32 %i, 1 br label %l}",
        "scev: rule PhiEntries in @f: %i\n",
    ),
    // The first block is a loop.
    (
        "define i32 @f(i32 %n){a: %c = icmp eq i32 %n, 0 br i1 %c, label %a, label %b b: ret i32 0}",
        "scev: rule EntryHasPredecessor in @f: %a\n",
    ),
];

#[test]
fn reported(rt: HostRuntime) -> Result<(), Fail> {
    for (input, text) in REPORTED {
        let outcome = report(rt.alloc(), input.as_bytes())?;
        assert_eq!(rt; outcome.status, Status::Done);
        assert_eq!(rt; outcome.out.as_slice(), text.as_bytes());
        assert_eq!(rt; outcome.err.as_slice(), b"".as_slice());
    }
    Ok(())
}

#[test]
fn what_breaks_a_rule_has_no_report(rt: HostRuntime) -> Result<(), Fail> {
    for (input, line) in ILL {
        let outcome = report(rt.alloc(), input.as_bytes())?;
        assert_eq!(rt; outcome.status.code(), 3);
        assert_eq!(rt; outcome.out.as_slice(), b"".as_slice());
        assert_eq!(rt; outcome.err.as_slice(), line.as_bytes());
    }
    Ok(())
}

#[test]
fn what_is_no_module_has_no_report(rt: HostRuntime) -> Result<(), Fail> {
    let outcome = report(rt.alloc(), b"define i32 @f(){a: ret i32}")?;
    assert_eq!(rt; outcome.status, Status::NotInGrammar { at: 26 });
    assert_eq!(rt; outcome.out.as_slice(), b"".as_slice());
    assert_eq!(rt;
        outcome.err.as_slice(),
        b"scev: not in grammar at 26\n".as_slice()
    );
    Ok(())
}
