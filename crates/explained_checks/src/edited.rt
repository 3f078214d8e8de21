//! Explains each edit of a session that is refused, and the last verdict.
use crate::explained::put_each;
use certificate::{CertFault, print_cert};
use explain::Code;
use fault_codes::{cert_code, edit_code};
use fault_texts::{CheckedTexts, put_cert_fault, put_fault_of, put_read_fault};
use ir_print::print;
use messages::{Message, NamedText, Pen};
use recheck::{Edit, EditFault, Session};
use std::alloc::{AllocError, Global};

/// How a module is named that stands in no file.
pub(crate) const EDITED_MODULE: &str = "edited module";

/// How certificates are named that stand in no file.
pub(crate) const EDITED_CERTS: &str = "edited certificate";

const NO_SUCH_FUNCTION: &str = "the edit names a function that the module does not define";

/// The code in an edit, empty where there is none.
fn code_in(edit: &Edit) -> &[u8] {
    match edit {
        Edit::Code { code, .. } => code.as_slice(),
        Edit::Both { code, .. } => code.as_slice(),
        Edit::Cert { .. } => &[],
    }
}

/// The section in an edit, empty where there is none.
fn section_in(edit: &Edit) -> &[u8] {
    match edit {
        Edit::Cert { section, .. } => section.as_slice(),
        Edit::Both { section, .. } => section.as_slice(),
        Edit::Code { .. } => &[],
    }
}

/// Explains why the section that stands does not fit the code of an edit.
fn put_kept_fault(pen: Pen, out: &mut Message, path: &str, fault: &CertFault) {
    match cert_code(fault) {
        Some(code) => put_fault_of(
            pen,
            out,
            path,
            code,
            "the section that stands does not fit the new code",
            "`edit both` gives a section with the code",
        ),
        None => out.refuse(),
    }
}

/// Explains why the section of an edit does not fit its code.
fn put_section_fault(
    pen: Pen,
    out: &mut Message,
    session: &Session,
    texts: CheckedTexts,
    fault: &CertFault,
) {
    match fault {
        CertFault::Missing(_) | CertFault::MissingBlock(..) => put_fault_of(
            pen,
            out,
            texts.of_certs.path,
            Code::C5,
            "the section does not list each block of the code",
            "list each block of the code but the entry one in the section, as `block %b`",
        ),
        fault => put_cert_fault(pen, out, texts, session.program().module(), *fault),
    }
}

/// Explains why a section of an edit, or the one that stands, does not fit the code.
fn put_cert_fault_of(
    pen: Pen,
    out: &mut Message,
    session: &Session,
    path: &str,
    edit: &Edit,
    fault: &CertFault,
) {
    if matches!(edit, Edit::Code { .. }) {
        return put_kept_fault(pen, out, path, fault);
    }
    let texts = CheckedTexts {
        of_module: NamedText {
            path,
            text: code_in(edit),
        },
        of_certs: NamedText {
            path,
            text: section_in(edit),
        },
    };
    put_section_fault(pen, out, session, texts, fault)
}

/// What is found of an edit that is refused as a whole, and what mends it.
fn found_of_edit(fault: &EditFault) -> (&'static str, &'static str) {
    match fault {
        EditFault::ShapesWanted => (
            "this code writes `ptr`, and the certificate has no shapes",
            "begin the certificate with `cert 2` and its shapes",
        ),
        _ => (NO_SUCH_FUNCTION, ""),
    }
}

/// Explains why an edit of this name is refused.
fn put_edit_fault(
    pen: Pen,
    out: &mut Message,
    session: &Session,
    path: &str,
    edit: &Edit,
    fault: &EditFault,
) {
    match fault {
        EditFault::Code(fault) => {
            let text = code_in(edit);
            let wide = session.program().module().wide;
            put_read_fault(pen, out, NamedText { path, text }, wide, fault)
        }
        EditFault::Cert(fault) => put_cert_fault_of(pen, out, session, path, edit, fault),
        fault => match edit_code(fault) {
            Some(code) => {
                let (found, mend) = found_of_edit(fault);
                put_fault_of(pen, out, path, code, found, mend)
            }
            None => out.refuse(),
        },
    }
}

/// How the edit with this number is named.
fn edit_name(alloc: Global, number: usize) -> Result<String, AllocError> {
    let digits = number.to_string(alloc)?;
    let mut name = String::new(alloc);
    name.push_str("edit ")?;
    name.push_str(digits.as_str())?;
    Ok(name)
}

/// Explains why the edit with this number is refused.
pub(crate) fn put_refused_edit(
    pen: Pen,
    out: &mut Message,
    session: &Session,
    number: usize,
    edit: &Edit,
    fault: &EditFault,
) {
    let Ok(name) = edit_name(pen.alloc, number) else {
        return out.refuse();
    };
    put_edit_fault(pen, out, session, name.as_str(), edit, fault)
}

/// Explains the verdict on the edited module, by the text that is printed of it.
pub(crate) fn put_last(pen: Pen, out: &mut Message, session: &Session) {
    let Some(refusal) = session.verdict() else {
        return;
    };
    let program = session.program();
    let Ok(module_text) = print(pen.alloc, program.module()) else {
        return out.refuse();
    };
    let Ok(cert_text) = print_cert(pen.alloc, session.certs(), program.module()) else {
        return out.refuse();
    };
    let texts = CheckedTexts {
        of_module: NamedText {
            path: EDITED_MODULE,
            text: module_text.as_slice(),
        },
        of_certs: NamedText {
            path: EDITED_CERTS,
            text: cert_text.as_slice(),
        },
    };
    put_each(
        pen,
        out,
        texts,
        program,
        session.certs(),
        [refusal].as_slice(),
    )
}
