//! The files of a command in a folder, as a call of the program reads them. The file `stdin` is what the standard input has.
use crate::row_failure::RowFailure;
use command_line::{INPUT, Paths};
use commands::{Contents, NoFile, is_ended};
use std::rt::Runtime;
use std::{fs, io};

/// Why a file is not read, for which the system has this error.
fn why_of(error: &io::Error) -> NoFile {
    match error.kind() {
        io::ErrorKind::NotFound => NoFile::Missing,
        io::ErrorKind::IsADirectory => NoFile::Folder,
        _ => NoFile::Failed,
    }
}

/// The bytes of the file of this path in a folder, or why it is not read.
fn bytes_or_why(
    rt: &(impl Runtime + AllocGlobal),
    folder: &str,
    path: &str,
) -> Result<Result<Vec<u8>, NoFile>, RowFailure> {
    let whole = format!(in rt.alloc(); "{folder}/{path}")?;
    let bytes = fs::read(rt, whole.as_str());
    drop(whole);
    match bytes {
        Ok(bytes) => Ok(Ok(bytes)),
        Err(error) => {
            let why = why_of(&error);
            match RowFailure::from(error) {
                RowFailure::Memory => Err(RowFailure::Memory),
                RowFailure::Outside => Ok(Err(why)),
            }
        }
    }
}

/// What the standard input has, which has to end in the line `; end`.
fn ended_input(
    rt: &(impl Runtime + AllocGlobal),
    folder: &str,
) -> Result<Result<Vec<u8>, NoFile>, RowFailure> {
    match bytes_or_why(rt, folder, "stdin")? {
        Ok(bytes) => {
            if is_ended(bytes.as_slice()) {
                return Ok(Ok(bytes));
            }
            drop(bytes);
            Ok(Err(NoFile::NotEnded))
        }
        Err(_) => Ok(Err(NoFile::NotEnded)),
    }
}

/// What can be read of a text of this path in a folder, if it is given. It is remembered why the first one is not read.
fn text_if(
    rt: &(impl Runtime + AllocGlobal),
    folder: &str,
    path: Option<&str>,
    why: &mut Option<NoFile>,
) -> Result<Option<Vec<u8>>, RowFailure> {
    let bytes = match path {
        None => return Ok(None),
        Some(INPUT) => ended_input(rt, folder)?,
        Some(path) => bytes_or_why(rt, folder, path)?,
    };
    match bytes {
        Ok(bytes) => Ok(Some(bytes)),
        Err(first) => {
            if why.is_none() {
                *why = Some(first);
            }
            Ok(None)
        }
    }
}

/// The path of a record, in a folder.
fn record_path(path: Option<&str>) -> Option<&str> {
    match path {
        Some(INPUT) => Some("stdin"),
        path => path,
    }
}

/// What can be read of the files of these paths in a folder.
pub fn contents_of(
    rt: &(impl Runtime + AllocGlobal),
    folder: &str,
    paths: Paths<'_>,
) -> Result<Contents, RowFailure> {
    let mut why = None;
    let mut contents = Contents {
        of_module: text_if(rt, folder, paths.of_module, &mut why)?,
        certificate: text_if(rt, folder, paths.certificate, &mut why)?,
        shapes: text_if(rt, folder, paths.shapes, &mut why)?,
        trace: text_if(rt, folder, paths.trace, &mut why)?,
        edits: text_if(rt, folder, paths.edits, &mut why)?,
        of_record: text_if(rt, folder, record_path(paths.of_record), &mut why)?,
        list: text_if(rt, folder, paths.list, &mut why)?,
        why: None,
    };
    contents.why = why;
    Ok(contents)
}
