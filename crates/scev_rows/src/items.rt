//! `print` on items outside bodies.

use crate::call::printed;
use std::test::Fail;

/// What is read, and what is printed for it.
const ITEMS: [(&str, &str); 18] = [
    // Items that are passed on, with their strings as they stood.
    (
        "source_filename = \"a\\0Ab\"\n",
        "source_filename = \"a\\0Ab\"\n",
    ),
    (
        "target triple = \"x\"\ntarget datalayout = \"e-p:64:64\"\n",
        "target triple = \"x\"\ntarget datalayout = \"e-p:64:64\"\n",
    ),
    (
        "target datalayout = \"e-p270:32:32\"\n",
        "target datalayout = \"e-p270:32:32\"\n",
    ),
    (
        "attributes #0 = { nounwind \"a\"=\"b\" memory(none) }\n",
        "attributes #0 = { nounwind \"a\"=\"b\" memory (none) }\n",
    ),
    // Globals: initialisers, words before and behind, and attachments that are dropped.
    ("@g = global i32 0\n", "@g = global i32 0\n"),
    (
        "@g = constant [2 x i32] [i32 1, i32 -1]\n",
        "@g = constant [2 x i32] [i32 1, i32 -1]\n",
    ),
    ("@g = external global i32\n", "@g = external global i32\n"),
    (
        "@g = internal global [3 x i8] c\"a\\00b\", align 1\n",
        "@g = internal global [3 x i8] c\"a\\00b\", align 1\n",
    ),
    (
        "@\"g g\" = private unnamed_addr constant [2 x [2 x i16]] zeroinitializer, align 2, !dbg !0
!0 = !{}
",
        "@\"g g\" = private unnamed_addr constant [2 x [2 x i16]] zeroinitializer, align 2\n",
    ),
    (
        "@g = thread_local global i8 1\n",
        "@g = thread_local global i8 1\n",
    ),
    ("@1 = global i8 7\n", "@\"1\" = global i8 7\n"),
    (
        "@g = global [2 x [3 x [2 x i8]]] undef\n",
        "@g = global [2 x [3 x [2 x i8]]] undef\n",
    ),
    // Declarations; those of debugging are dropped, with the metadata of others.
    (
        "declare void @llvm.dbg.value(metadata, metadata, metadata) #1
declare !dbg !4 i32 @g(i32 noundef)
",
        "declare i32 @g(i32 noundef)\n",
    ),
    (
        "declare void @llvm.memset.p0.i64(ptr, i8, i64, i1)\n",
        "declare void @llvm.memset.p0.i64(ptr, i8, i64, i1)\n",
    ),
    (
        "declare void @g(i32 noundef signext, ptr nocapture readonly) local_unnamed_addr #0\n",
        "declare void @g(i32 noundef signext, ptr nocapture readonly) local_unnamed_addr #0\n",
    ),
    // Metadata.
    (
        "!0 = distinct !{!0, !1}
!1 = !DIFile(filename: \"a\", directory: \"b\")
!llvm.module.flags = !{!0}
",
        "",
    ),
    ("!0 = !{!{!{}}}\n", ""),
    ("!-5 = !{}\n", ""),
];

#[test]
fn prints_items(rt: HostRuntime) -> Result<(), Fail> {
    for (input, text) in ITEMS {
        assert!(rt; printed(rt.alloc(), input, text)?, "{input}");
    }
    Ok(())
}
