//! What a command prints, compared with what is wanted.
use crate::row_failure::RowFailure;
use commands::{Outputs, Results};
use std::alloc::{AllocError, Global};
use std::io::Write;
use std::rt::Runtime;
use std::{fs, io};

/// The number of bytes that are shown of a text.
const SHOWN: usize = 100;

/// The exit status of a command, and the bytes of its two outputs and of the file that it writes.
#[derive(Drop)]
pub struct Printed {
    pub status: u8,
    pub out: Vec<u8>,
    pub err: Vec<u8>,
    /// None of what is wanted where it does not matter.
    pub saved: Option<Vec<u8>>,
    /// Of the certificate that it writes beside a module.
    pub saved_cert: Option<Vec<u8>>,
}

/// Reads an exit status.
fn status_in(text: &str) -> Result<u8, RowFailure> {
    match text.trim().parse::<u8>() {
        Ok(status) => Ok(status),
        Err(_) => Err(RowFailure::Outside),
    }
}

/// Reads the file `status` of a folder.
fn status_at(rt: &(impl Runtime + AllocGlobal), folder: &str) -> Result<u8, RowFailure> {
    let text = needed(rt, folder, "status")?;
    let status = match str::from_utf8(text.as_slice()) {
        Ok(text) => status_in(text),
        Err(_) => Err(RowFailure::Outside),
    };
    drop(text);
    status
}

/// The bytes of a file of a folder, if it can be read.
pub fn bytes_of(
    rt: &(impl Runtime + AllocGlobal),
    folder: &str,
    name: &str,
) -> Result<Option<Vec<u8>>, RowFailure> {
    let path = format!(in rt.alloc(); "{folder}/{name}")?;
    let bytes = fs::read(rt, path.as_str());
    drop(path);
    match bytes {
        Ok(bytes) => Ok(Some(bytes)),
        Err(error) => match RowFailure::from(error) {
            RowFailure::Memory => Err(RowFailure::Memory),
            RowFailure::Outside => Ok(None),
        },
    }
}

/// The bytes of a file of a folder, which has to be there.
pub fn needed(
    rt: &(impl Runtime + AllocGlobal),
    folder: &str,
    name: &str,
) -> Result<Vec<u8>, RowFailure> {
    match bytes_of(rt, folder, name)? {
        Some(bytes) => Ok(bytes),
        None => Err(RowFailure::Outside),
    }
}

/// Whether a text is as wanted. Where the wanted one ends within a line, it is the front of what has to be printed.
fn is_as_wanted(wanted: &[u8], text: &[u8]) -> bool {
    match wanted.last() {
        None | Some(b'\n') => text == wanted,
        Some(_) => text.starts_with(wanted),
    }
}

/// Adds the first bytes of a text, a line end as `\n`.
fn add_front(lines: &mut Vec<u8>, text: &[u8]) -> Result<(), AllocError> {
    for byte in text.iter().take(SHOWN) {
        if *byte == b'\n' {
            lines.extend_from_slice(b"\\n")?;
        } else {
            lines.push(*byte)?;
        }
    }
    Ok(())
}

/// Writes the wanted and the printed text if they differ.
fn write_difference(lines: &mut Vec<u8>, name: &str, wanted: &[u8], text: &[u8]) -> io::Result<()> {
    if is_as_wanted(wanted, text) {
        return Ok(());
    }
    write!(lines, "{name}: wanted '")?;
    add_front(lines, wanted)?;
    write!(lines, "', not '")?;
    add_front(lines, text)?;
    writeln!(lines, "'")
}

/// What a command writes to its file: what it saves, or the object of its answer.
fn written_of(saved: Vec<u8>, answer: Vec<u8>) -> Vec<u8> {
    if answer.is_empty() {
        drop(answer);
        saved
    } else {
        drop(saved);
        answer
    }
}

/// What was written to a file, if anything.
fn written(saved: &Option<Vec<u8>>) -> &[u8] {
    match saved {
        Some(saved) => saved.as_slice(),
        None => &[],
    }
}

/// Writes what differs in a file, if what is wanted of it matters.
fn compare_file(
    wanted: &Option<Vec<u8>>,
    saved: &Option<Vec<u8>>,
    name: &str,
    lines: &mut Vec<u8>,
) -> io::Result<()> {
    match wanted {
        Some(wanted) => write_difference(lines, name, wanted.as_slice(), written(saved)),
        None => Ok(()),
    }
}

impl Printed {
    /// Reads the files `status`, `stdout`, `stderr`, `saved` and `saved_cert` of a folder. The last two need not be there.
    pub fn read(rt: &(impl Runtime + AllocGlobal), folder: &str) -> Result<Printed, RowFailure> {
        let status = status_at(rt, folder)?;
        let out = needed(rt, folder, "stdout")?;
        let err = needed(rt, folder, "stderr")?;
        let saved = bytes_of(rt, folder, "saved")?;
        let saved_cert = bytes_of(rt, folder, "saved_cert")?;
        Ok(Printed {
            status,
            out,
            err,
            saved,
            saved_cert,
        })
    }

    /// The status and the results of a command.
    pub fn of_results(status: u8, results: Results) -> Printed {
        let Results {
            outputs,
            saved,
            answer,
            saved_cert,
        } = results;
        let Outputs { out, err } = outputs;
        Printed {
            status,
            out,
            err,
            saved: Some(written_of(saved, answer)),
            saved_cert: Some(saved_cert),
        }
    }

    /// What is printed on the standard error before the program ends with this status.
    pub fn of_error(alloc: Global, status: u8, err: Vec<u8>) -> Printed {
        Printed {
            status,
            out: Vec::new(alloc),
            err,
            saved: None,
            saved_cert: None,
        }
    }

    /// What is printed on the standard output before the program ends with this status.
    pub fn of_output(alloc: Global, status: u8, out: Vec<u8>) -> Printed {
        Printed {
            status,
            out,
            err: Vec::new(alloc),
            saved: None,
            saved_cert: None,
        }
    }

    /// Writes the status and both outputs after a name, and ends the line.
    pub fn write(&self, lines: &mut Vec<u8>, name: &str) -> io::Result<()> {
        write!(lines, "{name}: {} '", self.status)?;
        add_front(lines, self.out.as_slice())?;
        write!(lines, "' '")?;
        add_front(lines, self.err.as_slice())?;
        writeln!(lines, "'")
    }

    /// Writes what differs from what is wanted in the row of this name.
    pub fn compare(&self, wanted: &Printed, name: &str, lines: &mut Vec<u8>) -> io::Result<()> {
        if self.status != wanted.status {
            writeln!(
                lines,
                "{name}: wanted status {}, not {}",
                wanted.status, self.status
            )?;
        }
        write_difference(lines, name, wanted.out.as_slice(), self.out.as_slice())?;
        write_difference(lines, name, wanted.err.as_slice(), self.err.as_slice())?;
        compare_file(&wanted.saved, &self.saved, name, lines)?;
        compare_file(&wanted.saved_cert, &self.saved_cert, name, lines)
    }
}
