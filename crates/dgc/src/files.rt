//! The files of a command. Each is read up to its limit. One may be written, or a module and its certificate.
use crate::failure::Failure;
use command_line::{Command, INPUT, Paths};
use commands::{Contents, NoFile, Results, is_ended};
use ir_tokens::TEXT_LIMIT;
use std::fs::OpenFile;
use std::io::Read;
use std::os::unix::fs::{FileTypeExt, MetadataExt};
use std::rt::Runtime;
use std::{fs, io};

/// How many bytes a file may have that is no module.
const FILE_LIMIT: u64 = 1 << 30;

/// How many bytes are read at once.
const PIECE: usize = 1 << 16;

/// Why a file is not read.
#[derive(Clone, Copy)]
enum Unread {
    Memory,
    For(NoFile),
}

impl From<io::Error> for Unread {
    fn from(error: io::Error) -> Unread {
        match error.kind() {
            io::ErrorKind::OutOfMemory => Unread::Memory,
            io::ErrorKind::NotFound => Unread::For(NoFile::Missing),
            io::ErrorKind::IsADirectory => Unread::For(NoFile::Folder),
            io::ErrorKind::PermissionDenied => Unread::For(NoFile::Forbidden),
            _ => Unread::For(NoFile::Failed),
        }
    }
}

/// Appends what a file has from here on. Each piece is read into the same room, so no byte of the whole is written before it is read.
fn append_all(source: &mut impl Read, bytes: &mut Vec<u8>) -> io::Result<()> {
    let mut room = [0; PIECE];
    for _turn in 0..u64::MAX {
        match source.read(&mut room) {
            Ok(0) => return Ok(()),
            Ok(count) => bytes.extend_from_slice(&room[..count])?,
            Err(error) => {
                if error.kind() != io::ErrorKind::Interrupted {
                    return Err(error);
                }
            }
        }
    }
    Err(io::Error::from(io::ErrorKind::TimedOut))
}

/// The first bytes of a file or a pipe, at most this many. A file that becomes shorter meanwhile is not read.
fn first_of_file(
    rt: &(impl Runtime + AllocGlobal),
    path: &str,
    most: u64,
) -> Result<Vec<u8>, Unread> {
    let file = fs::open(rt, path)?;
    let length = file.metadata()?.len().min(most);
    let mut bytes = Vec::new(rt.alloc());
    append_all(&mut file.take(most), &mut bytes)?;
    if (bytes.len() as u64) < length {
        drop(bytes);
        return Err(Unread::For(NoFile::Shorter));
    }
    Ok(bytes)
}

/// The first bytes of the standard input, at most this many.
fn first_of_input(rt: &(impl Runtime + AllocGlobal), most: u64) -> Result<Vec<u8>, Unread> {
    let mut bytes = Vec::new(rt.alloc());
    append_all(&mut rt.reader().take(most), &mut bytes)?;
    Ok(bytes)
}

/// The first bytes of a file or of the standard input, at most this many.
fn first_bytes(
    rt: &(impl Runtime + AllocGlobal),
    path: &str,
    most: u64,
) -> Result<Vec<u8>, Unread> {
    if path == INPUT {
        first_of_input(rt, most)
    } else {
        first_of_file(rt, path, most)
    }
}

/// The first bytes of the standard input, which holds a text. Where these are all, the last line of the text has to be `; end`.
fn first_of_ended(rt: &(impl Runtime + AllocGlobal), most: u64) -> Result<Vec<u8>, Unread> {
    let bytes = first_of_input(rt, most)?;
    if (bytes.len() as u64) < most && !is_ended(bytes.as_slice()) {
        drop(bytes);
        return Err(Unread::For(NoFile::NotEnded));
    }
    Ok(bytes)
}

/// The first bytes of a file that holds a text. A pipe is no such file: nobody may write to it, or one who ends too early.
fn first_of_text(
    rt: &(impl Runtime + AllocGlobal),
    path: &str,
    most: u64,
) -> Result<Vec<u8>, Unread> {
    if path == INPUT {
        return first_of_ended(rt, most);
    }
    if fs::metadata(rt, path)?.file_type().is_fifo() {
        return Err(Unread::For(NoFile::Pipe));
    }
    first_of_file(rt, path, most)
}

/// The bytes of a module's file. Of one that is too long these are the first ones, and the reader refuses it.
fn module_bytes(rt: &(impl Runtime + AllocGlobal), path: &str) -> Result<Vec<u8>, Unread> {
    first_of_text(rt, path, TEXT_LIMIT as u64 + 1)
}

/// These bytes of a file, if they are within the limit.
fn within_limit(bytes: Vec<u8>) -> Result<Vec<u8>, Unread> {
    if bytes.len() as u64 > FILE_LIMIT {
        drop(bytes);
        return Err(Unread::For(NoFile::TooLong));
    }
    Ok(bytes)
}

/// The bytes of another text, if it is within the limit.
fn other_bytes(rt: &(impl Runtime + AllocGlobal), path: &str) -> Result<Vec<u8>, Unread> {
    let bytes = first_of_text(rt, path, FILE_LIMIT + 1)?;
    within_limit(bytes)
}

/// The bytes of a record, if it is within the limit. It may be a pipe: as much of a run as was written to it is a run.
fn record_bytes(rt: &(impl Runtime + AllocGlobal), path: &str) -> Result<Vec<u8>, Unread> {
    let bytes = first_bytes(rt, path, FILE_LIMIT + 1)?;
    within_limit(bytes)
}

/// What is remembered of files that were not read: that memory was refused, and why the first one was not.
#[derive(Clone, Copy)]
struct Lacks {
    is_refused: bool,
    why: Option<NoFile>,
}

/// The bytes that were read of a file, if it could be read. Otherwise it is remembered why.
fn if_read(bytes: Result<Vec<u8>, Unread>, lacks: &mut Lacks) -> Option<Vec<u8>> {
    match bytes {
        Ok(bytes) => return Some(bytes),
        Err(Unread::Memory) => lacks.is_refused = true,
        Err(Unread::For(why)) => {
            if lacks.why.is_none() {
                lacks.why = Some(why);
            }
        }
    }
    None
}

/// What is read of a module's file, if it is given.
fn of_module(
    rt: &(impl Runtime + AllocGlobal),
    path: Option<&str>,
    lacks: &mut Lacks,
) -> Option<Vec<u8>> {
    if_read(module_bytes(rt, path?), lacks)
}

/// What is read of another file, if it is given.
fn of_other(
    rt: &(impl Runtime + AllocGlobal),
    path: Option<&str>,
    lacks: &mut Lacks,
) -> Option<Vec<u8>> {
    if_read(other_bytes(rt, path?), lacks)
}

/// What is read of a record, if it is given.
fn of_record(
    rt: &(impl Runtime + AllocGlobal),
    path: Option<&str>,
    lacks: &mut Lacks,
) -> Option<Vec<u8>> {
    if_read(record_bytes(rt, path?), lacks)
}

/// Reads the files of these paths.
pub fn read_files(
    rt: &(impl Runtime + AllocGlobal),
    paths: Paths<'_>,
) -> Result<Contents, Failure> {
    let mut lacks = Lacks {
        is_refused: false,
        why: None,
    };
    let mut contents = Contents {
        of_module: of_module(rt, paths.of_module, &mut lacks),
        certificate: of_other(rt, paths.certificate, &mut lacks),
        shapes: of_other(rt, paths.shapes, &mut lacks),
        trace: of_other(rt, paths.trace, &mut lacks),
        edits: of_other(rt, paths.edits, &mut lacks),
        of_record: of_record(rt, paths.of_record, &mut lacks),
        list: of_other(rt, paths.list, &mut lacks),
        why: None,
    };
    if lacks.is_refused {
        drop(contents);
        return Err(Failure::Memory);
    }
    contents.why = lacks.why;
    Ok(contents)
}

/// What tells a file that is no device from all others: the numbers of its device and of its node. None where there is no such file.
fn identity_of(rt: &(impl Runtime + AllocGlobal), path: &str) -> Option<(u64, u64)> {
    match fs::metadata(rt, path) {
        Ok(metadata) if metadata.is_file() => Some((metadata.dev(), metadata.ino())),
        _ => None,
    }
}

/// The path of what is read where a command's line has this path.
fn read_path(path: &str) -> &str {
    if path == INPUT { "/dev/stdin" } else { path }
}

/// Whether this path, if it is given, leads to the file of this identity.
fn leads_to(rt: &(impl Runtime + AllocGlobal), path: Option<&str>, file: (u64, u64)) -> bool {
    let Some(path) = path else {
        return false;
    };
    match identity_of(rt, read_path(path)) {
        Some((device, node)) => device == file.0 && node == file.1,
        None => false,
    }
}

/// Whether the file of this path, if it is given, is one of those that a command reads.
fn is_read(rt: &(impl Runtime + AllocGlobal), paths: Paths<'_>, path: Option<&str>) -> bool {
    let Some(path) = path else {
        return false;
    };
    let Some(file) = identity_of(rt, path) else {
        return false;
    };
    leads_to(rt, paths.of_module, file)
        || leads_to(rt, paths.certificate, file)
        || leads_to(rt, paths.shapes, file)
        || leads_to(rt, paths.trace, file)
        || leads_to(rt, paths.edits, file)
        || leads_to(rt, paths.of_record, file)
}

/// Writes the object of an answer to the file of its command, if there is one.
pub fn save_answer(
    rt: &(impl Runtime + AllocGlobal),
    command: &Command<'_>,
    answer: &[u8],
) -> Result<(), Failure> {
    if answer.is_empty() {
        return Ok(());
    }
    if let Some(path) = command.paths.saved {
        fs::write(rt, path, answer)?;
    }
    Ok(())
}

/// Whether both files that a command writes are one, by their paths or as files that are there.
pub fn is_written_twice(rt: &(impl Runtime + AllocGlobal), paths: Paths<'_>) -> bool {
    let (Some(path), Some(other)) = (paths.saved, paths.saved_cert) else {
        return false;
    };
    if path == other {
        return true;
    }
    match identity_of(rt, path) {
        Some(file) => leads_to(rt, Some(other), file),
        None => false,
    }
}

/// Whether a file that a command writes is one of those that it reads.
pub fn is_overwritten(rt: &(impl Runtime + AllocGlobal), paths: Paths<'_>) -> bool {
    is_read(rt, paths, paths.saved) || is_read(rt, paths, paths.saved_cert)
}

/// Writes what a command saves to its files, if there is anything, or if it may be empty.
pub fn save(
    rt: &(impl Runtime + AllocGlobal),
    command: &Command<'_>,
    results: &Results,
) -> Result<(), Failure> {
    if results.saved.is_empty() && !command.what.writes_empty() {
        return Ok(());
    }
    if let Some(path) = command.paths.saved {
        fs::write(rt, path, results.saved.as_slice())?;
    }
    if is_written_twice(rt, command.paths) {
        return Err(Failure::WrittenTwice);
    }
    if let Some(path) = command.paths.saved_cert {
        fs::write(rt, path, results.saved_cert.as_slice())?;
    }
    Ok(())
}
