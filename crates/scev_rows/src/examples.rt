//! The files of the folder `examples` at the top, with what the program writes for them.

use crate::call::{print, report, writes};
use scev_tool::Status;
use std::test::Fail;

/// `report.ll`: a loop by clang, with two recurrences and a sum.
const SPREAD: &str =
    "; int spread(int n) { int i = 0, k = 100, s = 0; do { s += i; i += 4; k -= 3; } while (i < n);
;   return s + k; }
; by clang and opt -passes=mem2reg,simplifycfg,instcombine, without attributes and metadata
define i32 @spread(i32 %n) {
entry:
  br label %do.body

do.body:                                          ; preds = %do.body, %entry
  %k.0 = phi i32 [ 100, %entry ], [ %sub, %do.body ]
  %i.0 = phi i32 [ 0, %entry ], [ %add1, %do.body ]
  %s.0 = phi i32 [ 0, %entry ], [ %add, %do.body ]
  %add = add nuw nsw i32 %s.0, %i.0
  %add1 = add nuw nsw i32 %i.0, 4
  %sub = add nsw i32 %k.0, -3
  %cmp = icmp slt i32 %add1, %n
  br i1 %cmp, label %do.body, label %do.end

do.end:                                           ; preds = %do.body
  %add2 = add nsw i32 %add, %sub
  ret i32 %add2
}
";

/// `report.out`.
const SPREAD_REPORT: &str = "; scev report 1
; function @spread
; loop %do.body depth 1
; phi %k.0 = {100,+,-3}<%do.body>
; phi %i.0 = {0,+,4}<%do.body>
; phi %s.0 = %s.0
";

/// `untidy.ll`: blanks and comments where they like, flags in any order.
const UNTIDY: &str = "; Blanks and comments stand where they like, flags in any order.
define
i32 @count(i32 %n){entry: br label %loop ; in
loop: %i = phi i32 [4294967295, %entry], [%i.next, %loop]
  %i.next = add nsw nuw i32 %i,  -3
  %more = icmp ult i32 %i, 010
  br i1 %more, label %loop, label %exit
exit: ret i32 %i}
";

/// `untidy.out`.
const TIDY: &str = "define i32 @count(i32 %n) {
entry:
  br label %loop
loop:
  %i = phi i32 [ -1, %entry ], [ %i.next, %loop ]
  %i.next = add nuw nsw i32 %i, -3
  %more = icmp ult i32 %i, 10
  br i1 %more, label %loop, label %exit
exit:
  ret i32 %i
}
";

/// `sum.ll`: a loop over an array with a call in it, by clang.
const SUM: &str = "; ModuleID = 'sum.c'
source_filename = \"sum.c\"
target datalayout = \"e-m:e-p270:32:32-p271:32:32-p272:64:64-i64:64-i128:128-f80:128-n8:16:32:64-S128\"
target triple = \"x86_64-pc-linux-gnu\"

; Function Attrs: nounwind uwtable
define dso_local i32 @sum(ptr noundef readonly captures(none) %0, i32 noundef %1) local_unnamed_addr #0 {
  %3 = icmp sgt i32 %1, 0
  br i1 %3, label %4, label %6

4:                                                ; preds = %2
  %5 = zext nneg i32 %1 to i64
  br label %8

6:                                                ; preds = %8, %2
  %7 = phi i32 [ 0, %2 ], [ %14, %8 ]
  ret i32 %7

8:                                                ; preds = %4, %8
  %9 = phi i64 [ 0, %4 ], [ %15, %8 ]
  %10 = phi i32 [ 0, %4 ], [ %14, %8 ]
  %11 = getelementptr inbounds nuw i32, ptr %0, i64 %9
  %12 = load i32, ptr %11, align 4, !tbaa !5
  %13 = tail call i32 @measure(i32 noundef %12) #2
  %14 = add nsw i32 %13, %10
  %15 = add nuw nsw i64 %9, 1
  %16 = icmp eq i64 %15, %5
  br i1 %16, label %6, label %8, !llvm.loop !9
}

declare i32 @measure(i32 noundef) local_unnamed_addr #1

attributes #0 = { nounwind uwtable \"min-legal-vector-width\"=\"0\" \"no-builtins\" \
\"no-trapping-math\"=\"true\" \"stack-protector-buffer-size\"=\"8\" \"target-cpu\"=\"x86-64\" \
\"target-features\"=\"+cmov,+cx8,+fxsr,+mmx,+sse,+sse2,+x87\" \"tune-cpu\"=\"generic\" }
attributes #1 = { \"no-builtins\" \"no-trapping-math\"=\"true\" \"stack-protector-buffer-size\"=\"8\" \
\"target-cpu\"=\"x86-64\" \"target-features\"=\"+cmov,+cx8,+fxsr,+mmx,+sse,+sse2,+x87\" \
\"tune-cpu\"=\"generic\" }
attributes #2 = { nobuiltin nounwind \"no-builtins\" }

!llvm.module.flags = !{!0, !1, !2, !3}
!llvm.ident = !{!4}
!llvm.errno.tbaa = !{!5}

!0 = !{i32 1, !\"wchar_size\", i32 4}
!1 = !{i32 8, !\"PIC Level\", i32 2}
!2 = !{i32 7, !\"PIE Level\", i32 2}
!3 = !{i32 7, !\"uwtable\", i32 2}
!4 = !{!\"Debian clang version 22.1.8 (1~deb12u1)\"}
!5 = !{!6, !6, i64 0}
!6 = !{!\"int\", !7, i64 0}
!7 = !{!\"omnipotent char\", !8, i64 0}
!8 = !{!\"Simple C/C++ TBAA\"}
!9 = distinct !{!9, !10, !11}
!10 = !{!\"llvm.loop.mustprogress\"}
!11 = !{!\"llvm.loop.unroll.disable\"}
";

/// `sum.out`.
const SUM_PRINTED: &str = "source_filename = \"sum.c\"
target datalayout = \"e-m:e-p270:32:32-p271:32:32-p272:64:64-i64:64-i128:128-f80:128-n8:16:32:64-S128\"
target triple = \"x86_64-pc-linux-gnu\"
define dso_local i32 @sum(ptr noundef readonly captures (none) %0, i32 noundef %1) local_unnamed_addr #0 {
2:
  %3 = icmp sgt i32 %1, 0
  br i1 %3, label %4, label %6
4:
  %5 = zext nneg i32 %1 to i64
  br label %8
6:
  %7 = phi i32 [ 0, %2 ], [ %14, %8 ]
  ret i32 %7
8:
  %9 = phi i64 [ 0, %4 ], [ %15, %8 ]
  %10 = phi i32 [ 0, %4 ], [ %14, %8 ]
  %11 = getelementptr inbounds i32, ptr %0, i64 %9
  %12 = load i32, ptr %11, align 4
  %13 = tail call i32 @measure(i32 noundef %12) #2
  %14 = add nsw i32 %13, %10
  %15 = add nuw nsw i64 %9, 1
  %16 = icmp eq i64 %15, %5
  br i1 %16, label %6, label %8
}
declare i32 @measure(i32 noundef) local_unnamed_addr #1
attributes #0 = { nounwind uwtable \"min-legal-vector-width\"=\"0\" \"no-builtins\" \
\"no-trapping-math\"=\"true\" \"stack-protector-buffer-size\"=\"8\" \"target-cpu\"=\"x86-64\" \
\"target-features\"=\"+cmov,+cx8,+fxsr,+mmx,+sse,+sse2,+x87\" \"tune-cpu\"=\"generic\" }
attributes #1 = { \"no-builtins\" \"no-trapping-math\"=\"true\" \"stack-protector-buffer-size\"=\"8\" \
\"target-cpu\"=\"x86-64\" \"target-features\"=\"+cmov,+cx8,+fxsr,+mmx,+sse,+sse2,+x87\" \
\"tune-cpu\"=\"generic\" }
attributes #2 = { nobuiltin nounwind \"no-builtins\" }
";

#[test]
fn the_example_of_report(rt: HostRuntime) -> Result<(), Fail> {
    let outcome = report(rt.alloc(), SPREAD.as_bytes())?;
    assert_eq!(rt; outcome.status, Status::Done);
    assert_eq!(rt; outcome.out.as_slice(), SPREAD_REPORT.as_bytes());
    Ok(())
}

#[test]
fn the_example_of_print(rt: HostRuntime) -> Result<(), Fail> {
    let outcome = print(rt.alloc(), UNTIDY.as_bytes())?;
    assert_eq!(rt; outcome.status, Status::Done);
    assert_eq!(rt; outcome.out.as_slice(), TIDY.as_bytes());
    Ok(())
}

#[test]
fn the_example_by_clang(rt: HostRuntime) -> Result<(), Fail> {
    let outcome = print(rt.alloc(), SUM.as_bytes())?;
    assert_eq!(rt; outcome.status, Status::Done);
    assert_eq!(rt; outcome.out.as_slice(), SUM_PRINTED.as_bytes());
    Ok(())
}

#[test]
fn a_run_of_the_example_by_clang(rt: HostRuntime) -> Result<(), Fail> {
    let words = ["eval", "--function", "sum", "--args", "b12,3"];
    assert!(rt; writes(rt.alloc(), SUM, &words, "returned 0\nsteps 26\nevents 3\n")?);
    Ok(())
}
