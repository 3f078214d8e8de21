//! Texts of modules and certificates for several tests.
use std::alloc::{AllocError, Global};

/// The seven lines before the functions.
pub(crate) const HEAD: &str =
    "%Node = type { i64, %Node* }\n@g = global %Node* null\ndeclare i8* @dg_alloc(i32)\ndeclare void @dg_safepoint()\ndeclare void @llvm.gcroot(i8**, i8*)\ndeclare i8* @llvm.gcread(i8*, i8**)\ndeclare void @llvm.gcwrite(i8*, i8*, i8**)\n";

/// Claims a cell and keeps it in its slot, if it is not null.
pub(crate) const TWO: &str =
    "define void @two() gc \"shadow-stack\" {\nentry:\n  %s = alloca %Node*\n  %r = bitcast %Node** %s to i8**\n  call void @llvm.gcroot(i8** %r, i8* null)\n  %a = call i8* @dg_alloc(i32 0)\n  %x = bitcast i8* %a to %Node*\n  %c = icmp eq %Node* %x, null\n  br i1 %c, label %no, label %ok\nno:\n  ret void\nok:\n  store %Node* %x, %Node** %s\n  ret void\n}\n";

/// Loads its root again after the safepoints.
pub(crate) const FOUR: &str =
    "define void @four() gc \"shadow-stack\" {\nentry:\n  %s = alloca %Node*\n  %r = bitcast %Node** %s to i8**\n  call void @llvm.gcroot(i8** %r, i8* null)\n  %a = call i8* @dg_alloc(i32 0)\n  %x = bitcast i8* %a to %Node*\n  %c = icmp eq %Node* %x, null\n  br i1 %c, label %no, label %ok\nno:\n  ret void\nok:\n  store %Node* %x, %Node** %s\n  call void @dg_safepoint()\n  call void @dg_safepoint()\n  call void @dg_safepoint()\n  %y = load %Node*, %Node** %s\n  %p = getelementptr %Node, %Node* %y, i32 0, i32 0\n  %v = load i64, i64* %p\n  ret void\n}\n";

/// A thread publishes a cell, loads it again after safepoints and keeps it in its slot. Another clears the global.
pub(crate) const PUBLISHER_AND_CLEARER: &str =
    "define void @zero() gc \"shadow-stack\" {\nentry:\n  %s = alloca %Node*\n  %r = bitcast %Node** %s to i8**\n  call void @llvm.gcroot(i8** %r, i8* null)\n  %a = call i8* @dg_alloc(i32 0)\n  call void @llvm.gcwrite(i8* %a, i8* null, i8** bitcast (%Node** @g to i8**))\n  call void @dg_safepoint()\n  call void @dg_safepoint()\n  call void @dg_safepoint()\n  %x = load %Node*, %Node** @g\n  store %Node* %x, %Node** %s\n  call void @dg_safepoint()\n  %y = load %Node*, %Node** %s\n  ret void\n}\ndefine void @one() gc \"shadow-stack\" {\nentry:\n  call void @dg_safepoint()\n  call void @llvm.gcwrite(i8* null, i8* null, i8** bitcast (%Node** @g to i8**))\n  call void @dg_safepoint()\n  call void @dg_safepoint()\n  ret void\n}\n";

/// Claims a cell, writes its words and publishes it.
pub(crate) const SIX: &str =
    "define void @six(i64 %k) gc \"shadow-stack\" {\nentry:\n  %a = call i8* @dg_alloc(i32 0)\n  %x = bitcast i8* %a to %Node*\n  %c = icmp eq %Node* %x, null\n  br i1 %c, label %no, label %ok\nno:\n  ret void\nok:\n  %v = getelementptr %Node, %Node* %x, i32 0, i32 0\n  store i64 %k, i64* %v\n  %f = getelementptr %Node, %Node* %x, i32 0, i32 1\n  store %Node* null, %Node** %f\n  %b = bitcast %Node* %x to i8*\n  call void @llvm.gcwrite(i8* %b, i8* null, i8** bitcast (%Node** @g to i8**))\n  ret void\n}\n";

/// Certificates of it.
pub(crate) const SIX_CERTIFICATES: &str =
    "cert 1\nfunction @six none\nblock %no\nblock %ok\n%x ref Node nonnull fresh\n%k i64\nend\n";

/// The same function in a module as a compiler prints it.
pub(crate) const SIX_AS_PRINTED: &str =
    "source_filename = \"six.c\"\ntarget triple = \"x86_64-pc-linux-gnu\"\n%Node = type { i64, %Node* }\n@g = internal global %Node* null, align 8\ndeclare i8* @dg_alloc(i32)\ndeclare void @dg_safepoint()\ndeclare void @llvm.gcroot(i8**, i8*)\ndeclare i8* @llvm.gcread(i8*, i8**)\ndeclare void @llvm.gcwrite(i8*, i8*, i8**)\ndefine dso_local void @six(i64 %0) local_unnamed_addr #0 gc \"shadow-stack\" {\n  %2 = call i8* @dg_alloc(i32 0)\n  %3 = bitcast i8* %2 to %Node*\n  %4 = icmp eq %Node* %3, null\n  br i1 %4, label %5, label %6\n\n5:                                      ; preds = %1\n  ret void\n\n6:                                      ; preds = %1\n  %7 = getelementptr inbounds %Node, %Node* %3, i32 0, i32 0\n  store i64 %0, i64* %7, align 8, !tbaa !0\n  %8 = getelementptr inbounds %Node, %Node* %3, i32 0, i32 1\n  store %Node* null, %Node** %8, align 8\n  %9 = bitcast %Node* %3 to i8*\n  tail call void @llvm.gcwrite(i8* %9, i8* null, i8** bitcast (%Node** @g to i8**))\n  ret void\n}\nattributes #0 = { nounwind }\n!0 = !{!1, !1, i64 0}\n!1 = !{!\"long\", !2, i64 0}\n!2 = !{!\"omnipotent char\", !3, i64 0}\n!3 = !{!\"Simple C/C++ TBAA\"}\n";

/// Certificates of it.
pub(crate) const SIX_AS_PRINTED_CERTIFICATES: &str =
    "cert 1\nfunction @six none\nblock %5\nblock %6\n%3 ref Node nonnull fresh\n%0 i64\nend\n";

/// Two functions. The second calls the first, and reads a number of the cell that it is given.
pub(crate) const LEAF_AND_TOP: &str =
    "define void @leaf() gc \"shadow-stack\" {\nentry:\n  ret void\n}\ndefine i64 @top(%Node* %n) gc \"shadow-stack\" {\nentry:\n  call void @leaf()\n  %p = getelementptr %Node, %Node* %n, i32 0, i32 0\n  %v = load i64, i64* %p\n  ret i64 %v\n}\n";

/// Certificates of them.
pub(crate) const LEAF_AND_TOP_CERTIFICATES: &str =
    "cert 1\nfunction @leaf none\nend\nfunction @top may\nparam %n nonnull\nend\n";

/// The bytes of these texts, one after the other.
pub(crate) fn joined(alloc: Global, texts: &[&str]) -> Result<Vec<u8>, AllocError> {
    let mut bytes = Vec::new(alloc);
    for text in texts {
        bytes.extend_from_slice(text.as_bytes())?;
    }
    Ok(bytes)
}
