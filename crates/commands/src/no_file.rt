//! Why a file is not read, and what is told of it where explanations are wanted.
ghost use Rattle.std.specs.Prelude.{◌&&◌, OnOk, nat_eq};
ghost use Rattle.command_line.specs.Asked.{is_wanted};
ghost use Rattle.reports.specs.Said.{GivesText, GivesTextIf};

use crate::files::Contents;
use command_line::Command;
use messages::{Ink, Message, Pen};
use reports::STATUS_USAGE;
use std::io;
use std::io::Write;

/// Why a file is not read.
#[derive(Clone, Copy)]
pub enum NoFile {
    /// No file has this path.
    Missing,
    Folder,
    Pipe,
    /// Who runs the command may not read it.
    Forbidden,
    /// It has more than 2^30 bytes.
    TooLong,
    /// It became shorter while it was read.
    Shorter,
    /// It is the standard input, and its last line is not `; end`.
    NotEnded,
    /// It is a list, and no UTF-8.
    NotText,
    /// A read failed for another reason.
    Failed,
}

/// What is told of a file: what is wrong, and what mends it.
#[derive(Clone, Copy)]
struct Told {
    fault: &'static str,
    mend: &'static str,
}

/// What is told of a line of a list that is no pair.
const NO_PAIR: Told = Told {
    fault: "This line is no pair of a module and its certificate.",
    mend: "write the two paths with one tab between, or with one space where none of them has a space or a tab",
};

/// What is wrong with a file that is not read.
fn fault_of(why: NoFile) -> &'static str {
    match why {
        NoFile::Missing => "There is no file of this path.",
        NoFile::Folder => "This is a folder.",
        NoFile::Pipe =>
            "This is a pipe: who writes to it may end too early, and the front of a text may be another text.",
        NoFile::Forbidden => "The system does not let dgc read this file.",
        NoFile::TooLong => "This file has more than 1073741824 bytes.",
        NoFile::Shorter => "This file became shorter while it was read.",
        NoFile::NotEnded =>
            "The last line of the standard input is not `; end`: the text may be the front of one that was cut off.",
        NoFile::NotText => "This list has bytes that are no UTF-8, and so no paths.",
        NoFile::Failed => "The system failed to read this file.",
    }
}

/// What mends that.
fn mend_of(why: NoFile) -> &'static str {
    match why {
        NoFile::Missing =>
            "a path that does not begin with `/` counts from the folder in which dgc is called",
        NoFile::Folder => "name a file in it",
        NoFile::Pipe =>
            "write `-` for this file, and send its text to the standard input, with `; end` as its last line",
        NoFile::Forbidden => "let its owner allow it to be read",
        NoFile::TooLong => "take a shorter one",
        NoFile::Shorter => "write it under another name, and rename it when it is whole",
        NoFile::NotEnded =>
            "let the program that writes the text write `; end` after it, as a line of its own",
        NoFile::NotText => "write the paths in UTF-8",
        NoFile::Failed => "see whether another program reads it",
    }
}

/// The same of a file of this path, in which the mark of a list may stand that it is UTF-8.
fn mend_of_path(path: &str, why: NoFile) -> &'static str {
    match (path.as_bytes(), why) {
        ([0xef, 0xbb, 0xbf, ..], NoFile::Missing) => {
            "the path begins with a byte order mark: save the list without one"
        }
        (_, why) => mend_of(why),
    }
}

/// Writes what is told of a file, or of a line of it.
fn write_told(pen: Pen, out: Message, told: Told, err: &mut Vec<u8>) -> io::Result<()>
    ensures { OnOk result (GivesText err.old.items err.new.items) }
{
    let mut out = out;
    out.put(": ");
    out.put_inked(pen.look, Ink::Fault, told.fault);
    out.put("\n");
    out.put_inked(pen.look, Ink::Mend, "  mend:  ");
    out.put(told.mend);
    out.put("\n");
    match out.finish() {
        Ok(text) => err.write_all(text.as_slice()),
        Err(_) => writeln!(err, "no memory to explain it"),
    }
}

/// Writes why a line of a list is no pair.
pub(crate) fn explain_line(pen: Pen, path: &str, line: usize, err: &mut Vec<u8>) -> io::Result<()>
    ensures { OnOk result (GivesText err.old.items err.new.items) }
{
    let mut out = Message::new(pen.alloc);
    out.begin_ink(pen.look, Ink::Place);
    out.put(path);
    out.put(":");
    out.put_number(line as u64);
    out.end_ink(pen.look);
    write_told(pen, out, NO_PAIR, err)
}

/// Writes why a file is not read.
pub(crate) fn explain_file(pen: Pen, path: &str, why: NoFile, err: &mut Vec<u8>) -> io::Result<()>
    ensures { OnOk result (GivesText err.old.items err.new.items) }
{
    let mut out = Message::new(pen.alloc);
    out.put_inked(pen.look, Ink::Place, path);
    let told = Told {
        fault: fault_of(why),
        mend: mend_of_path(path, why),
    };
    write_told(pen, out, told, err)
}

/// Explains why the first file that cannot be read is not, where a command ended with this status for that, and if its line asks for
/// explanations.
pub fn explain_no_file(
    pen: Pen,
    command: &Command<'_>,
    contents: &Contents,
    status: u8,
    err: &mut Vec<u8>,
) -> io::Result<()>
    ensures { OnOk result (GivesTextIf (is_wanted command.now.explained && nat_eq status 4) err.old.items err.new.items) }
{
    if !(command.explained.is_wanted() && status == STATUS_USAGE) {
        return Ok(());
    }
    match (contents.first_unread(command), contents.why) {
        (Some(path), Some(why)) => explain_file(pen, path, why, err),
        _ => Ok(()),
    }
}
