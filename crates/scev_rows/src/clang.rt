//! What clang wrote, with shorter lists of attributes, printed and run.

use crate::call::{printed, writes};
use std::test::Fail;

/// A section, words of globals and of functions, and metadata.
const SECTION: &str = "; ModuleID = 'x_section.c'
source_filename = \"x_section.c\"
target datalayout = \"e-m:e-p270:32:32-p271:32:32-p272:64:64-i64:64-i128:128-f80:128-n8:16:32:64-S128\"
target triple = \"x86_64-pc-linux-gnu\"

@hidden_one = hidden local_unnamed_addr global i32 3, align 4
@placed = dso_local local_unnamed_addr global [8 x i32] zeroinitializer, section \".mine\", align 64

; Function Attrs: nounwind uwtable
define weak dso_local i32 @weak_one(i32 noundef %n) local_unnamed_addr #0 {
entry:
  ret i32 %n
}

; Function Attrs: hot nounwind uwtable
define dso_local i32 @sum_placed(i32 noundef %n) local_unnamed_addr #1 section \".hot\" {
entry:
  %0 = load i32, ptr @hidden_one, align 4, !tbaa !5
  br label %for.body

for.cond.cleanup:                                 ; preds = %for.body
  ret i32 %add

for.body:                                         ; preds = %entry, %for.body
  %indvars.iv = phi i64 [ 0, %entry ], [ %indvars.iv.next, %for.body ]
  %s.04 = phi i32 [ %0, %entry ], [ %add, %for.body ]
  %arrayidx = getelementptr inbounds nuw i32, ptr @placed, i64 %indvars.iv
  %1 = load i32, ptr %arrayidx, align 4, !tbaa !5
  %call = tail call i32 @weak_one(i32 noundef %n)
  %mul = mul nsw i32 %call, %1
  %add = add nsw i32 %mul, %s.04
  %indvars.iv.next = add nuw nsw i64 %indvars.iv, 1
  %exitcond.not = icmp eq i64 %indvars.iv.next, 8
  br i1 %exitcond.not, label %for.cond.cleanup, label %for.body, !llvm.loop !9
}

attributes #0 = { nounwind uwtable \"min-legal-vector-width\"=\"0\" }
attributes #1 = { hot nounwind uwtable \"min-legal-vector-width\"=\"0\" }

!llvm.module.flags = !{!0, !1, !2, !3}
!llvm.ident = !{!4}
!llvm.errno.tbaa = !{!5}

!0 = !{i32 1, !\"wchar_size\", i32 4}
!1 = !{i32 8, !\"PIC Level\", i32 2}
!2 = !{i32 7, !\"PIE Level\", i32 2}
!3 = !{i32 7, !\"uwtable\", i32 2}
!4 = !{!\"Debian clang version 22.1.8 (1~deb12u1)\"}
!5 = !{!6, !6, i64 0}
!6 = !{!\"int\", !7, i64 0}
!7 = !{!\"omnipotent char\", !8, i64 0}
!8 = !{!\"Simple C/C++ TBAA\"}
!9 = distinct !{!9, !10, !11}
!10 = !{!\"llvm.loop.mustprogress\"}
!11 = !{!\"llvm.loop.unroll.disable\"}
";

const SECTION_PRINTED: &str = "source_filename = \"x_section.c\"
target datalayout = \"e-m:e-p270:32:32-p271:32:32-p272:64:64-i64:64-i128:128-f80:128-n8:16:32:64-S128\"
target triple = \"x86_64-pc-linux-gnu\"
@hidden_one = hidden local_unnamed_addr global i32 3, align 4
@placed = dso_local local_unnamed_addr global [8 x i32] zeroinitializer, section \".mine\", align 64
define weak dso_local i32 @weak_one(i32 noundef %n) local_unnamed_addr #0 {
entry:
  ret i32 %n
}
define dso_local i32 @sum_placed(i32 noundef %n) local_unnamed_addr #1 section \".hot\" {
entry:
  %0 = load i32, ptr @hidden_one, align 4
  br label %for.body
for.cond.cleanup:
  ret i32 %add
for.body:
  %indvars.iv = phi i64 [ 0, %entry ], [ %indvars.iv.next, %for.body ]
  %s.04 = phi i32 [ %0, %entry ], [ %add, %for.body ]
  %arrayidx = getelementptr inbounds i32, ptr @placed, i64 %indvars.iv
  %1 = load i32, ptr %arrayidx, align 4
  %call = tail call i32 @weak_one(i32 noundef %n)
  %mul = mul nsw i32 %call, %1
  %add = add nsw i32 %mul, %s.04
  %indvars.iv.next = add nuw nsw i64 %indvars.iv, 1
  %exitcond.not = icmp eq i64 %indvars.iv.next, 8
  br i1 %exitcond.not, label %for.cond.cleanup, label %for.body
}
attributes #0 = { nounwind uwtable \"min-legal-vector-width\"=\"0\" }
attributes #1 = { hot nounwind uwtable \"min-legal-vector-width\"=\"0\" }
";

/// Arrays from outside, with elements of elements.
const ARRAYS: &str = "; ModuleID = '<stdin>'
source_filename = \"x_extern_array.c\"
target datalayout = \"e-m:e-p270:32:32-p271:32:32-p272:64:64-i64:64-i128:128-f80:128-n8:16:32:64-S128\"
target triple = \"x86_64-pc-linux-gnu\"

@outside_table = external global [0 x i32], align 4
@outside_grid = external constant [4 x [8 x i8]], align 16

; Function Attrs: noinline nounwind uwtable
define dso_local i32 @look(i32 noundef %n) #0 {
entry:
  br label %for.cond

for.cond:                                         ; preds = %for.inc, %entry
  %s.0 = phi i32 [ 0, %entry ], [ %add6, %for.inc ]
  %i.0 = phi i32 [ 0, %entry ], [ %inc, %for.inc ]
  %cmp = icmp slt i32 %i.0, %n
  br i1 %cmp, label %for.body, label %for.end

for.body:                                         ; preds = %for.cond
  %idxprom = sext i32 %i.0 to i64
  %arrayidx = getelementptr inbounds [0 x i32], ptr @outside_table, i64 0, i64 %idxprom
  %0 = load i32, ptr %arrayidx, align 4
  %and = and i32 %i.0, 3
  %idxprom1 = sext i32 %and to i64
  %arrayidx2 = getelementptr inbounds [4 x [8 x i8]], ptr @outside_grid, i64 0, i64 %idxprom1
  %and3 = and i32 %i.0, 7
  %idxprom4 = sext i32 %and3 to i64
  %arrayidx5 = getelementptr inbounds [8 x i8], ptr %arrayidx2, i64 0, i64 %idxprom4
  %1 = load i8, ptr %arrayidx5, align 1
  %conv = zext i8 %1 to i32
  %add = add nsw i32 %0, %conv
  %add6 = add nsw i32 %s.0, %add
  br label %for.inc

for.inc:                                          ; preds = %for.body
  %inc = add nsw i32 %i.0, 1
  br label %for.cond, !llvm.loop !6

for.end:                                          ; preds = %for.cond
  ret i32 %s.0
}

attributes #0 = { noinline nounwind uwtable \"frame-pointer\"=\"all\" \"min-legal-vector-width\"=\"0\" }

!llvm.module.flags = !{!0, !1, !2, !3, !4}
!llvm.ident = !{!5}

!0 = !{i32 1, !\"wchar_size\", i32 4}
!1 = !{i32 8, !\"PIC Level\", i32 2}
!2 = !{i32 7, !\"PIE Level\", i32 0}
!3 = !{i32 7, !\"uwtable\", i32 2}
!4 = !{i32 7, !\"frame-pointer\", i32 2}
!5 = !{!\"Debian clang version 22.1.8 (1~deb12u1)\"}
!6 = distinct !{!6, !7}
!7 = !{!\"llvm.loop.mustprogress\"}
";

const ARRAYS_PRINTED: &str = "source_filename = \"x_extern_array.c\"
target datalayout = \"e-m:e-p270:32:32-p271:32:32-p272:64:64-i64:64-i128:128-f80:128-n8:16:32:64-S128\"
target triple = \"x86_64-pc-linux-gnu\"
@outside_table = external global [0 x i32], align 4
@outside_grid = external constant [4 x [8 x i8]], align 16
define dso_local i32 @look(i32 noundef %n) #0 {
entry:
  br label %for.cond
for.cond:
  %s.0 = phi i32 [ 0, %entry ], [ %add6, %for.inc ]
  %i.0 = phi i32 [ 0, %entry ], [ %inc, %for.inc ]
  %cmp = icmp slt i32 %i.0, %n
  br i1 %cmp, label %for.body, label %for.end
for.body:
  %idxprom = sext i32 %i.0 to i64
  %arrayidx = getelementptr inbounds [0 x i32], ptr @outside_table, i64 0, i64 %idxprom
  %0 = load i32, ptr %arrayidx, align 4
  %and = and i32 %i.0, 3
  %idxprom1 = sext i32 %and to i64
  %arrayidx2 = getelementptr inbounds [4 x [8 x i8]], ptr @outside_grid, i64 0, i64 %idxprom1
  %and3 = and i32 %i.0, 7
  %idxprom4 = sext i32 %and3 to i64
  %arrayidx5 = getelementptr inbounds [8 x i8], ptr %arrayidx2, i64 0, i64 %idxprom4
  %1 = load i8, ptr %arrayidx5, align 1
  %conv = zext i8 %1 to i32
  %add = add nsw i32 %0, %conv
  %add6 = add nsw i32 %s.0, %add
  br label %for.inc
for.inc:
  %inc = add nsw i32 %i.0, 1
  br label %for.cond
for.end:
  ret i32 %s.0
}
attributes #0 = { noinline nounwind uwtable \"frame-pointer\"=\"all\" \"min-legal-vector-width\"=\"0\" }
";

/// A sum over an array, with a block before its loop.
const SUM: &str = "; ModuleID = 'sum.c'
source_filename = \"sum.c\"
target datalayout = \"e-m:e-p270:32:32-p271:32:32-p272:64:64-i64:64-n8:16:32:64-S128\"
target triple = \"x86_64-unknown-linux-gnu\"

define dso_local i32 @sum(ptr noundef %a, i32 noundef %n) local_unnamed_addr #0 {
entry:
  %cmp3 = icmp sgt i32 %n, 0
  br i1 %cmp3, label %for.body.preheader, label %for.cond.cleanup

for.body.preheader:                               ; preds = %entry
  %wide.trip.count = zext nneg i32 %n to i64
  br label %for.body

for.cond.cleanup:                                 ; preds = %for.body, %entry
  %s.0.lcssa = phi i32 [ 0, %entry ], [ %add, %for.body ]
  ret i32 %s.0.lcssa

for.body:                                         ; preds = %for.body.preheader, %for.body
  %indvars.iv = phi i64 [ 0, %for.body.preheader ], [ %indvars.iv.next, %for.body ]
  %s.04 = phi i32 [ 0, %for.body.preheader ], [ %add, %for.body ]
  %arrayidx = getelementptr inbounds i32, ptr %a, i64 %indvars.iv
  %0 = load i32, ptr %arrayidx, align 4, !tbaa !3
  %add = add nsw i32 %0, %s.04
  %indvars.iv.next = add nuw nsw i64 %indvars.iv, 1
  %exitcond.not = icmp eq i64 %indvars.iv.next, %wide.trip.count
  br i1 %exitcond.not, label %for.cond.cleanup, label %for.body, !llvm.loop !7
}

attributes #0 = { nounwind \"frame-pointer\"=\"all\" }

!0 = !{i32 1, !\"wchar_size\", i32 4}
!3 = !{!0, !0, i64 0}
!7 = distinct !{!7, !0}
";

const SUM_PRINTED: &str = "source_filename = \"sum.c\"
target datalayout = \"e-m:e-p270:32:32-p271:32:32-p272:64:64-i64:64-n8:16:32:64-S128\"
target triple = \"x86_64-unknown-linux-gnu\"
define dso_local i32 @sum(ptr noundef %a, i32 noundef %n) local_unnamed_addr #0 {
entry:
  %cmp3 = icmp sgt i32 %n, 0
  br i1 %cmp3, label %for.body.preheader, label %for.cond.cleanup
for.body.preheader:
  %wide.trip.count = zext nneg i32 %n to i64
  br label %for.body
for.cond.cleanup:
  %s.0.lcssa = phi i32 [ 0, %entry ], [ %add, %for.body ]
  ret i32 %s.0.lcssa
for.body:
  %indvars.iv = phi i64 [ 0, %for.body.preheader ], [ %indvars.iv.next, %for.body ]
  %s.04 = phi i32 [ 0, %for.body.preheader ], [ %add, %for.body ]
  %arrayidx = getelementptr inbounds i32, ptr %a, i64 %indvars.iv
  %0 = load i32, ptr %arrayidx, align 4
  %add = add nsw i32 %0, %s.04
  %indvars.iv.next = add nuw nsw i64 %indvars.iv, 1
  %exitcond.not = icmp eq i64 %indvars.iv.next, %wide.trip.count
  br i1 %exitcond.not, label %for.cond.cleanup, label %for.body
}
attributes #0 = { nounwind \"frame-pointer\"=\"all\" }
";

#[test]
fn prints_what_clang_wrote(rt: HostRuntime) -> Result<(), Fail> {
    for (input, text) in [
        (SECTION, SECTION_PRINTED),
        (ARRAYS, ARRAYS_PRINTED),
        (SUM, SUM_PRINTED),
    ] {
        assert!(rt; printed(rt.alloc(), input, text)?, "{input}");
    }
    Ok(())
}

#[test]
fn runs_what_clang_wrote(rt: HostRuntime) -> Result<(), Fail> {
    let words = ["eval", "--function", "sum", "--args", "b12,3"];
    for input in [SUM, SUM_PRINTED] {
        assert!(rt;
            writes(
                rt.alloc(),
                input,
                &words,
                "returned 0\nsteps 23\nevents 0\n"
            )?
        );
    }
    Ok(())
}
