//! A command on each pair of a list: the files of the pairs are read, and their answers are written as they are ready.
ghost use Rattle.command_line.specs.Asked.{HasWorkers};

use crate::failure::Failure;
use crate::files::read_files;
use command_line::{Command, Paths};
use commands::{Contents, Listed, Look, Outside, check_list};
use std::io;
use std::io::Write;
use std::rt::Runtime;
use std::thread::Threads;

/// The files of the system, and the outputs.
#[derive(Drop)]
struct Streams<'r, 'o, 'e, R, O, E> {
    rt: &'r R,
    out: &'o mut O,
    err: &'e mut E,
}

impl<'r, 'o, 'e, R: Runtime + AllocGlobal, O: Write, E: Write> Outside
    for Streams<'r, 'o, 'e, R, O, E> {
    fn contents(&mut self, paths: Paths<'_>) -> io::Result<Contents> {
        match read_files(self.rt, paths) {
            Ok(contents) => Ok(contents),
            Err(_) => Err(io::Error::from(io::ErrorKind::OutOfMemory)),
        }
    }

    fn answered(&mut self, listed: &Listed) -> io::Result<()> {
        self.out.write_all(listed.line.as_slice())?;
        self.out.flush()?;
        self.err.write_all(listed.told.as_slice())
    }
}

/// Answers a command on each pair of its list. Returns the status with which the program ends.
pub fn answer_list<O: Write, E: Write>(
    rt: &(impl Runtime + AllocGlobal + Threads + Sync),
    look: Look,
    command: &Command<'_>,
    contents: &Contents,
    out: &mut O,
    err: &mut E,
) -> Result<u8, Failure>
    requires { HasWorkers command.now.what }
{
    let mut told = Vec::new(rt.alloc());
    let mut streams = Streams {
        rt,
        out,
        err: &mut *err,
    };
    let status = check_list(rt, look, command, contents, &mut streams, &mut told)?;
    err.write_all(told.as_slice())?;
    Ok(status)
}
