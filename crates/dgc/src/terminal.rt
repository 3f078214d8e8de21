//! A command whose standard error is a terminal. It is shown there how far the command is; what it answers is written when that is gone.
ghost use Rattle.command_line.specs.Asked.{HasWorkers};

use crate::answering::{Answer, answer_of};
use crate::failure::Failure;
use crate::progress::{Progress, Watcher};
use crate::ticking::shown_while;
use command_line::Command;
use commands::{Contents, Look};
use std::io::Stderr;
use std::rt::Runtime;
use std::sync::Wait;
use std::thread::Threads;

/// A terminal, and how text looks there.
#[derive(Clone, Copy)]
pub struct Terminal {
    pub stream: Stderr,
    pub look: Look,
}

/// What a command answers. It is shown on the terminal meanwhile how far that is: by a second thread, if the command does not tell it itself.
pub fn answer_on_terminal(
    rt: &(impl Runtime + AllocGlobal + Threads + Wait + Sync),
    terminal: Terminal,
    command: &Command<'_>,
    contents: &Contents,
) -> Result<Answer, Failure>
    requires { HasWorkers command.now.what }
{
    let Terminal { stream, look } = terminal;
    let Some(name) = command.what.timed_name() else {
        let mut watcher = Watcher::Terminal(Progress::on(stream));
        return answer_of(rt, look, command, contents, &mut watcher);
    };
    shown_while(
        rt,
        stream,
        name,
        || -> Result<Answer, Failure>
            requires { HasWorkers command.now.what }
        { answer_of(rt, look, command, contents, &mut Watcher::Nobody) },
    )
}
