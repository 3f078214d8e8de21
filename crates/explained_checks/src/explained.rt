//! Explains refusals in a program, and faults of texts.
use block_rules::Refusal;
use certs::Certs;
use fault_texts::{CheckedTexts, put_cert_fault, put_read_fault};
use layout::Program;
use messages::{Message, NamedText, Pen};
use printing::{Printer, ReadText};
use reports::{File, Unread, bytes_of, path_of};

/// A file's path and text, empty where it is not given.
pub(crate) fn named<'a>(file: Option<File<'a>>) -> NamedText<'a> {
    let text: &[u8] = match bytes_of(file) {
        Some(bytes) => bytes,
        None => &[],
    };
    NamedText {
        path: path_of(file),
        text,
    }
}

/// Explains each of some refusals in a program, with a blank line between.
pub(crate) fn put_each(
    pen: Pen,
    out: &mut Message,
    texts: CheckedTexts,
    program: &Program,
    certs: &Certs,
    refusals: &[Refusal],
) {
    match ReadText::of(pen.alloc, texts.of_module) {
        Ok(Some(read)) => {
            let mut printer = Printer::new(pen, &read, texts.of_certs, program, certs);
            for (number, refusal) in refusals.iter().enumerate() {
                out.put(if number == 0 { "" } else { "\n" });
                printer.put_refusal(out, *refusal);
            }
            drop(printer);
            drop(read)
        }
        Ok(None) => {}
        Err(_) => out.refuse(),
    }
}

/// Explains the first fault of the texts of the files. The wide forms may stand in the module or not.
pub(crate) fn put_unread(
    pen: Pen,
    out: &mut Message,
    texts: CheckedTexts,
    wide: bool,
    unread: &Unread,
) {
    match unread {
        Unread::NoModule(fault) => put_read_fault(pen, out, texts.of_module, wide, fault),
        Unread::NoCertificate(of_module, fault) => {
            put_cert_fault(pen, out, texts, of_module, *fault)
        }
        _ => {}
    }
}
