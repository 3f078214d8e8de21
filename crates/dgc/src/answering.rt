//! The answer of a command whose files were read. It is written once the command is over.
ghost use Rattle.command_line.specs.Asked.{HasWorkers};

use crate::failure::Failure;
use crate::files::{save, save_answer};
use crate::progress::Watcher;
use command_line::Command;
use commands::{Contents, Look, Pen, Results, STATUS_NO, STATUS_YES, explain_no_file, work};
use std::io::Write;
use std::rt::Runtime;
use std::thread::Threads;

/// What a command answers, before it is written.
#[derive(Drop)]
pub struct Answer {
    status: u8,
    results: Results,
}

impl Answer {
    /// Writes the answer, and then the files that the command writes, if the answer is yes or no, or if a file has the object of the answer.
    /// Returns the status with which the program ends.
    pub fn write<O: Write, E: Write>(
        &self,
        rt: &(impl Runtime + AllocGlobal),
        command: &Command<'_>,
        out: &mut O,
        err: &mut E,
    ) -> Result<u8, Failure> {
        self.results.outputs.write(out, err)?;
        if self.status == STATUS_YES || self.status == STATUS_NO {
            save(rt, command, &self.results)?;
        }
        save_answer(rt, command, self.results.answer.as_slice())?;
        Ok(self.status)
    }
}

/// What a command answers. The watcher is told how far a search is.
pub fn answer_of(
    rt: &(impl Runtime + AllocGlobal + Threads + Sync),
    look: Look,
    command: &Command<'_>,
    contents: &Contents,
    watcher: &mut Watcher,
) -> Result<Answer, Failure>
    requires { HasWorkers command.now.what }
{
    let alloc = rt.alloc();
    let mut results = Results::new(alloc);
    let files = contents.of_command(command);
    let status = work(rt, look, command, &files, &mut results, watcher)?;
    let pen = Pen { alloc, look };
    explain_no_file(pen, command, contents, status, &mut results.outputs.err)?;
    Ok(Answer { status, results })
}
