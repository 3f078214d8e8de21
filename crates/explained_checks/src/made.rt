//! Explains the first refusal with the boldest of the certificates that were tried.
use crate::explained::put_each;
use block_rules::Refusal;
use certificate::print_cert;
use certs::Certs;
use fault_texts::CheckedTexts;
use layout::Program;
use messages::{Message, NamedText, Pen};

/// How the certificate is named that stands in no file.
pub(crate) const TRIED: &str = "certificate";

/// Explains refusals of a program with certificates, whose text is made for that. It has the shapes of the module.
pub(crate) fn put_tried(
    pen: Pen,
    out: &mut Message,
    of_module: NamedText,
    program: &Program,
    certs: &Certs,
    refusals: &[Refusal],
) {
    match print_cert(pen.alloc, certs, program.module()) {
        Ok(text) => {
            let texts = CheckedTexts {
                of_module,
                of_certs: NamedText {
                    path: TRIED,
                    text: text.as_slice(),
                },
            };
            put_each(pen, out, texts, program, certs, refusals);
            drop(text);
        }
        Err(_) => out.refuse(),
    }
}
