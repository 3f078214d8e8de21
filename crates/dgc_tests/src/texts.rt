//! Module texts.
use std::alloc::{AllocError, Global};

/// The seven lines before the functions.
const HEAD: &str =
    "%Node = type { i64, %Node* }\n@g = global %Node* null\ndeclare i8* @dg_alloc(i32)\ndeclare void @dg_safepoint()\ndeclare void @llvm.gcroot(i8**, i8*)\ndeclare i8* @llvm.gcread(i8*, i8**)\ndeclare void @llvm.gcwrite(i8*, i8*, i8**)\n";

/// Loads its root again after the safepoints.
pub const FOUR: &str =
    "define void @four() gc \"shadow-stack\" {\nentry:\n  %s = alloca %Node*\n  %r = bitcast %Node** %s to i8**\n  call void @llvm.gcroot(i8** %r, i8* null)\n  %a = call i8* @dg_alloc(i32 0)\n  %x = bitcast i8* %a to %Node*\n  %c = icmp eq %Node* %x, null\n  br i1 %c, label %no, label %ok\nno:\n  ret void\nok:\n  store %Node* %x, %Node** %s\n  call void @dg_safepoint()\n  call void @dg_safepoint()\n  call void @dg_safepoint()\n  %y = load %Node*, %Node** %s\n  %p = getelementptr %Node, %Node* %y, i32 0, i32 0\n  %v = load i64, i64* %p\n  ret void\n}\n";

/// A thread publishes a cell, loads it again after safepoints and keeps it in its slot. Another clears the global.
pub const PUBLISHER_AND_CLEARER: &str =
    "define void @zero() gc \"shadow-stack\" {\nentry:\n  %s = alloca %Node*\n  %r = bitcast %Node** %s to i8**\n  call void @llvm.gcroot(i8** %r, i8* null)\n  %a = call i8* @dg_alloc(i32 0)\n  call void @llvm.gcwrite(i8* %a, i8* null, i8** bitcast (%Node** @g to i8**))\n  call void @dg_safepoint()\n  call void @dg_safepoint()\n  call void @dg_safepoint()\n  %x = load %Node*, %Node** @g\n  store %Node* %x, %Node** %s\n  call void @dg_safepoint()\n  %y = load %Node*, %Node** %s\n  ret void\n}\ndefine void @one() gc \"shadow-stack\" {\nentry:\n  call void @dg_safepoint()\n  call void @llvm.gcwrite(i8* null, i8* null, i8** bitcast (%Node** @g to i8**))\n  call void @dg_safepoint()\n  call void @dg_safepoint()\n  ret void\n}\n";

/// Claims three cells.
pub const CLAIMER: &str =
    "define void @thrice() gc \"shadow-stack\" {\nentry:\n  %a = call i8* @dg_alloc(i32 0)\n  %b = call i8* @dg_alloc(i32 0)\n  call void @dg_safepoint()\n  call void @dg_safepoint()\n  call void @dg_safepoint()\n  %d = call i8* @dg_alloc(i32 0)\n  ret void\n}\n";

/// The bytes of a module with these functions.
pub fn module_of(alloc: Global, functions: &str) -> Result<Vec<u8>, AllocError> {
    let mut bytes = Vec::from_slice(alloc, HEAD.as_bytes())?;
    bytes.extend_from_slice(functions.as_bytes())?;
    Ok(bytes)
}
