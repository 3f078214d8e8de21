//! Commands on the files of a folder.
ghost use Rattle.command_line.specs.Asked.{HasWorkers};

use crate::contents::contents_of;
use crate::listing::listed;
use crate::printed::Printed;
use crate::row_failure::RowFailure;
use command_line::{Command, LineFault, read_command};
use commands::{
    Contents, Look, Nobody, Pen, Results, STATUS_USAGE, STATUS_YES, explain_no_file, status_of,
    work,
};
use std::alloc::{AllocError, Global};
use std::io;
use std::rt::Runtime;
use std::thread::Threads;

/// The same, or why a write failed.
fn status_or_failure(
    rt: &(impl Runtime + AllocGlobal + Threads + Sync),
    command: &Command<'_>,
    contents: &Contents,
    results: &mut Results,
) -> io::Result<u8>
    requires { HasWorkers command.now.what }
{
    let files = contents.of_command(command);
    let status = work(rt, Look::Plain, command, &files, results, &mut Nobody)?;
    let pen = Pen {
        alloc: rt.alloc(),
        look: Look::Plain,
    };
    explain_no_file(pen, command, contents, status, &mut results.outputs.err)?;
    Ok(status)
}

/// The status of a command on files with these contents, and what it results in.
pub fn status_with(
    rt: &(impl Runtime + AllocGlobal + Threads + Sync),
    command: &Command<'_>,
    contents: &Contents,
    results: &mut Results,
) -> u8
    requires { HasWorkers command.now.what }
{
    status_of(status_or_failure(rt, command, contents, results))
}

/// What a command prints of files with these contents.
pub fn printed_of(
    rt: &(impl Runtime + AllocGlobal + Threads + Sync),
    command: &Command<'_>,
    contents: &Contents,
) -> Printed
    requires { HasWorkers command.now.what }
{
    let mut results = Results::new(rt.alloc());
    let status = status_with(rt, command, contents, &mut results);
    Printed::of_results(status, results)
}

/// What a command prints of the files of a folder.
pub fn done(
    rt: &(impl Runtime + AllocGlobal + Threads + Sync),
    folder: &str,
    command: &Command<'_>,
) -> Result<Printed, RowFailure>
    requires { HasWorkers command.now.what }
{
    let contents = contents_of(rt, folder, command.paths)?;
    let printed = if command.paths.list.is_some() {
        listed(rt, folder, command, &contents)
    } else {
        printed_of(rt, command, &contents)
    };
    drop(contents);
    Ok(printed)
}

/// What is printed of words that are no command line: a fault, or the help or version that was asked for.
fn printed_fault(alloc: Global, fault: &LineFault) -> Result<Printed, AllocError> {
    match fault {
        LineFault::Words(error) => {
            let text = format!(in alloc; "{error}")?;
            if error.use_stderr() {
                Ok(Printed::of_error(alloc, STATUS_USAGE, text.into_bytes()))
            } else {
                Ok(Printed::of_output(alloc, STATUS_YES, text.into_bytes()))
            }
        }
        LineFault::NoCommand(lack) => {
            let text = format!(in alloc; "error: {lack}\n")?;
            Ok(Printed::of_error(alloc, STATUS_USAGE, text.into_bytes()))
        }
        LineFault::Memory => Err(AllocError),
    }
}

/// What is printed of these words, the program's name first, and of the files of a folder.
pub fn done_by(
    rt: &(impl Runtime + AllocGlobal + Threads + Sync),
    folder: &str,
    words: &[&str],
) -> Result<Printed, RowFailure> {
    match read_command(rt.alloc(), words) {
        Ok(command) => done(rt, folder, &command),
        Err(fault) => {
            let printed = printed_fault(rt.alloc(), &fault);
            drop(fault);
            Ok(printed?)
        }
    }
}
