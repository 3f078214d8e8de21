//! K6: llvm.gcwrite in place of a plain store of the same value at the same place.
use block_rules::Refusal;
use certs::Certs;
use layout::Program;
use messages::{Change, NamedText, Pen};
use printing::{Printer, ReadText};
use std::alloc::AllocError;

/// What mends a store that K6 refuses, to be made together: the declaration of llvm.gcwrite, where the module has none, and a call of it
/// in place of the store. Nothing where the store is not found in the text.
pub fn barrier_changes(
    pen: Pen,
    text: &[u8],
    program: &Program,
    certs: &Certs,
    refusal: Refusal,
) -> Result<Vec<Change>, AllocError> {
    let Some(read) = ReadText::of(pen.alloc, NamedText { path: "", text })? else {
        return Ok(Vec::new(pen.alloc));
    };
    let certificate = NamedText {
        path: "",
        text: &[],
    };
    let mut printer = Printer::new(pen, &read, certificate, program, certs);
    let changes = printer.changes_of(refusal);
    drop(printer);
    drop(read);
    changes
}
