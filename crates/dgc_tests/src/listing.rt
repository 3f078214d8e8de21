//! A command on each pair of a list, with the files of a folder.
ghost use Rattle.command_line.specs.Asked.{HasWorkers};

use crate::contents::contents_of;
use crate::printed::Printed;
use command_line::{Command, Paths};
use commands::{Contents, Listed, Look, Outputs, Outside, Results, check_list, status_of};
use std::io;
use std::io::Write;
use std::rt::Runtime;
use std::thread::Threads;

/// The files of a folder, and what is printed.
#[derive(Drop)]
struct Folder<'a, R> {
    rt: &'a R,
    folder: &'a str,
    outputs: &'a mut Outputs,
}

impl<'a, R: Runtime + AllocGlobal> Outside for Folder<'a, R> {
    fn contents(&mut self, paths: Paths<'_>) -> io::Result<Contents> {
        match contents_of(self.rt, self.folder, paths) {
            Ok(contents) => Ok(contents),
            Err(_) => Err(io::Error::from(io::ErrorKind::OutOfMemory)),
        }
    }

    fn answered(&mut self, listed: &Listed) -> io::Result<()> {
        self.outputs.out.write_all(listed.line.as_slice())?;
        self.outputs.err.write_all(listed.told.as_slice())
    }
}

/// What a command on a list prints.
pub fn listed(
    rt: &(impl Runtime + AllocGlobal + Threads + Sync),
    folder: &str,
    command: &Command<'_>,
    contents: &Contents,
) -> Printed
    requires { HasWorkers command.now.what }
{
    let mut results = Results::new(rt.alloc());
    let mut told = Vec::new(rt.alloc());
    let mut outside = Folder {
        rt,
        folder,
        outputs: &mut results.outputs,
    };
    let status = check_list(rt, Look::Plain, command, contents, &mut outside, &mut told);
    let written = results.outputs.err.extend_from_slice(told.as_slice());
    drop(told);
    let status = match (status, written) {
        (Ok(status), Ok(())) => Ok(status),
        _ => Err(io::Error::from(io::ErrorKind::OutOfMemory)),
    };
    Printed::of_results(status_of(status), results)
}
