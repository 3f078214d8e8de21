//! A module and its certificate, of which further commands are made.
ghost use Rattle.command_line.specs.Asked.{HasWorkers};

use crate::done::{done, printed_of};
use crate::printed::{Printed, bytes_of};
use crate::row_failure::RowFailure;
use command_line::{
    CheckOptions, Command, Explained, Forms, MakeOptions, Paths, Refusals, What, Why, Written,
};
use commands::{Contents, STATUS_YES};
use ir_print::print;
use ir_text::read_in;
use std::alloc::{AllocError, Global};
use std::rt::Runtime;
use std::thread::Threads;

/// A check of texts that are made.
pub const CHECK: Command<'static> = Command {
    paths: Paths {
        of_module: Some("module.ll"),
        certificate: Some("module.cert"),
        ..Paths::NONE
    },
    explained: Explained::Never,
    forms: Forms::Core,
    written: Written::NotAtAll,
    what: What::Check(CheckOptions {
        workers: 1,
        refusals: Refusals::First,
    }),
};

/// The same of a module that may have these forms.
fn check_in(forms: Forms) -> Command<'static>
    ensures { HasWorkers result.what }
{
    Command { forms, ..CHECK }
}

/// A folder with a module, its certificate, and the forms that the module may have.
#[derive(Clone, Copy)]
pub struct Certified<'a> {
    pub folder: &'a str,
    pub module_path: &'a str,
    pub certificate_path: &'a str,
    pub forms: Forms,
}

impl<'a> Certified<'a> {
    /// The paths of both.
    fn paths(self) -> Paths<'a> {
        Paths {
            of_module: Some(self.module_path),
            certificate: Some(self.certificate_path),
            ..Paths::NONE
        }
    }
}

/// The texts of a check, as far as they can be read.
pub fn checked_texts(of_module: Option<Vec<u8>>, certificate: Option<Vec<u8>>) -> Contents {
    Contents {
        of_module,
        certificate,
        shapes: None,
        trace: None,
        edits: None,
        of_record: None,
        list: None,
        why: None,
    }
}

/// What a check by three workers prints.
pub fn checked_by_three(
    rt: &(impl Runtime + AllocGlobal + Threads + Sync),
    row: Certified<'_>,
) -> Result<Printed, RowFailure> {
    let command = Command {
        paths: row.paths(),
        explained: Explained::Never,
        forms: row.forms,
        written: Written::NotAtAll,
        what: What::Check(CheckOptions {
            workers: 3,
            refusals: Refusals::First,
        }),
    };
    done(rt, row.folder, &command)
}

/// Whether a certificate has shapes, or lists numbers of layouts.
fn has_shapes(certificate: &str) -> bool {
    certificate.starts_with("cert 2") || certificate.lines().any(|line| line.starts_with("number "))
}

/// A text of the shapes and the numbers of layouts of a certificate, if it has some: its lines between the first one and the first section,
/// but for those of functions outside of the module.
fn shapes_in(alloc: Global, certificate: &str) -> Result<Option<Vec<u8>>, AllocError> {
    if !has_shapes(certificate) {
        return Ok(None);
    }
    let mut shapes = Vec::from_slice(alloc, b"shapes 1\n")?;
    for line in certificate.lines().skip(1) {
        if line.starts_with("function") {
            break;
        }
        if !line.starts_with("foreign") {
            shapes.extend_from_slice(line.as_bytes())?;
            shapes.push(b'\n')?;
        }
    }
    Ok(Some(shapes))
}

/// The same of the bytes of a certificate, if it can be read.
fn shapes_of(alloc: Global, certificate: &Option<Vec<u8>>) -> Result<Option<Vec<u8>>, AllocError> {
    let Some(bytes) = certificate else {
        return Ok(None);
    };
    match str::from_utf8(bytes.as_slice()) {
        Ok(text) => shapes_in(alloc, text),
        Err(_) => Ok(None),
    }
}

/// The same of the certificate of a row.
fn shapes(
    rt: &(impl Runtime + AllocGlobal),
    row: Certified<'_>,
) -> Result<Option<Vec<u8>>, RowFailure> {
    let certificate = bytes_of(rt, row.folder, row.certificate_path)?;
    let shapes = shapes_of(rt.alloc(), &certificate);
    drop(certificate);
    Ok(shapes?)
}

/// The bytes of the module of a row, as far as it can be read.
fn module_of(
    rt: &(impl Runtime + AllocGlobal),
    row: Certified<'_>,
) -> Result<Option<Vec<u8>>, RowFailure> {
    bytes_of(rt, row.folder, row.module_path)
}

/// The making of a certificate of the module, with shapes if there are some.
fn making<'a>(row: Certified<'a>, shapes: &Option<Vec<u8>>) -> Command<'a>
    ensures { HasWorkers result.what }
{
    let shapes_path = if shapes.is_some() {
        Some("module.shapes")
    } else {
        None
    };
    Command {
        paths: Paths {
            of_module: Some(row.module_path),
            shapes: shapes_path,
            ..Paths::NONE
        },
        explained: Explained::Never,
        forms: row.forms,
        written: Written::NotAtAll,
        what: What::Make(MakeOptions {
            why: Why::NotWanted,
        }),
    }
}

/// What `make` prints of the module, with the shapes of its certificate, if that has some.
fn made(
    rt: &(impl Runtime + AllocGlobal + Threads + Sync),
    row: Certified<'_>,
) -> Result<Printed, RowFailure> {
    let shapes = shapes(rt, row)?;
    let command = making(row, &shapes);
    let contents = Contents {
        of_module: module_of(rt, row)?,
        certificate: None,
        shapes,
        trace: None,
        edits: None,
        of_record: None,
        list: None,
        why: None,
    };
    let printed = printed_of(rt, &command, &contents);
    drop(contents);
    Ok(printed)
}

/// What a check prints of the module and this certificate.
fn checked_with(
    rt: &(impl Runtime + AllocGlobal + Threads + Sync),
    row: Certified<'_>,
    certificate: Vec<u8>,
) -> Result<Printed, RowFailure> {
    let contents = checked_texts(module_of(rt, row)?, Some(certificate));
    let printed = printed_of(rt, &check_in(row.forms), &contents);
    drop(contents);
    Ok(printed)
}

/// What a check prints of the module and the certificate that is made of it. What is printed in place of the certificate, if there is none.
pub fn checked_as_made(
    rt: &(impl Runtime + AllocGlobal + Threads + Sync),
    row: Certified<'_>,
) -> Result<Printed, RowFailure> {
    match text_in(made(rt, row)?) {
        Ok(certificate) => checked_with(rt, row, certificate),
        Err(printed) => Ok(printed),
    }
}

/// The text that was printed, if the status says so; otherwise what was printed.
fn text_in(printed: Printed) -> Result<Vec<u8>, Printed> {
    if printed.status == STATUS_YES {
        Ok(printed.out)
    } else {
        Err(printed)
    }
}

/// What `migrate` prints of the files of these paths in a row.
fn migrated(
    rt: &(impl Runtime + AllocGlobal + Threads + Sync),
    row: Certified<'_>,
    paths: Paths<'_>,
) -> Result<Printed, RowFailure> {
    let command = Command {
        paths,
        explained: Explained::Never,
        forms: row.forms,
        written: Written::NotAtAll,
        what: What::Migrate,
    };
    done(rt, row.folder, &command)
}

/// What `migrate` prints of the module.
pub fn migrated_module(
    rt: &(impl Runtime + AllocGlobal + Threads + Sync),
    row: Certified<'_>,
) -> Result<Printed, RowFailure> {
    let paths = Paths {
        of_module: Some(row.module_path),
        ..Paths::NONE
    };
    migrated(rt, row, paths)
}

/// What `migrate` prints of the certificate.
fn migrated_certificate(
    rt: &(impl Runtime + AllocGlobal + Threads + Sync),
    row: Certified<'_>,
) -> Result<Printed, RowFailure> {
    migrated(rt, row, row.paths())
}

/// What a check prints of these two texts.
fn checked(
    rt: &(impl Runtime + AllocGlobal + Threads + Sync),
    forms: Forms,
    of_module: Vec<u8>,
    certificate: Vec<u8>,
) -> Printed {
    let contents = checked_texts(Some(of_module), Some(certificate));
    let printed = printed_of(rt, &check_in(forms), &contents);
    drop(contents);
    printed
}

/// What a check prints of this opaque text of the module and the migrated certificate. What is printed in place of one of them, if it is not there.
pub fn checked_as_migrated(
    rt: &(impl Runtime + AllocGlobal + Threads + Sync),
    row: Certified<'_>,
    migrated: Printed,
) -> Result<Printed, RowFailure> {
    if migrated.status != STATUS_YES {
        return Ok(migrated);
    }
    match text_in(migrated_certificate(rt, row)?) {
        Ok(certificate) => Ok(checked(rt, row.forms, migrated.out, certificate)),
        Err(printed) => Ok(printed),
    }
}

/// Whether a text of a module is printed as it is, once it is read.
fn is_printed_again(alloc: Global, forms: Forms, text: &[u8]) -> Result<bool, AllocError> {
    match read_in(alloc, text, forms.is_wide()) {
        Ok(of_module) => {
            let printed = print(alloc, &of_module);
            drop(of_module);
            Ok(printed?.as_slice() == text)
        }
        Err(_) => Ok(false),
    }
}

/// Whether the module is this text.
fn is_module(
    rt: &(impl Runtime + AllocGlobal),
    row: Certified<'_>,
    text: &[u8],
) -> Result<bool, RowFailure> {
    let own = bytes_of(rt, row.folder, row.module_path)?;
    let is_module = matches!(&own, Some(own) if own.as_slice() == text);
    drop(own);
    Ok(is_module)
}

/// Whether this opaque text of the module is printed as it is, once it is read. Text that has no typed pointer is left as it is.
pub fn is_opaque_text(
    rt: &(impl Runtime + AllocGlobal),
    row: Certified<'_>,
    text: &[u8],
) -> Result<bool, RowFailure> {
    if is_printed_again(rt.alloc(), row.forms, text)? {
        return Ok(true);
    }
    is_module(rt, row, text)
}
