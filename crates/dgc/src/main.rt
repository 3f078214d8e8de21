//! `dgc`, the program: reads the command line and the files, does the command, and ends with its status.
#![tactic(auto)]

mod answering;
mod failure;
mod files;
mod listing;
mod progress;
mod terminal;
mod ticking;

ghost use Rattle.std.specs.Prelude.{◌≡◌, IfOk};
ghost use Rattle.command_line.specs.Asked.{HasWorkers};

use answering::{Answer, answer_of};
use command_line::{Command, Explained, LineFault, explained_by, read_command};
use commands::{Contents, Look, STATUS_USAGE, STATUS_YES, memory, status_of};
use failure::Failure;
use files::{is_overwritten, is_written_twice, read_files};
use listing::answer_list;
use progress::Watcher;
use std::env::VarError;
use std::io::{IsTerminal, Stderr, Write};
use std::process::ExitCode;
use std::rt::Runtime;
use std::sync::Wait;
use std::thread::Threads;
use std::{env, io};
use terminal::{Terminal, answer_on_terminal};

/// Where the standard error goes.
#[derive(Clone, Copy)]
enum Errors {
    Elsewhere,
    Terminal(Terminal),
}

/// What a command answers of its files.
fn answer_on(
    rt: &(impl Runtime + AllocGlobal + Threads + Wait + Sync),
    errors: Errors,
    command: &Command<'_>,
    contents: &Contents,
) -> Result<Answer, Failure>
    requires { HasWorkers command.now.what }
{
    match errors {
        Errors::Elsewhere => answer_of(rt, Look::Plain, command, contents, &mut Watcher::Nobody),
        Errors::Terminal(terminal) => answer_on_terminal(rt, terminal, command, contents),
    }
}

/// Does a command.
fn answer<O: Write, E: Write>(
    rt: &(impl Runtime + AllocGlobal + Threads + Wait + Sync),
    errors: Errors,
    command: &Command<'_>,
    out: &mut O,
    err: &mut E,
) -> Result<u8, Failure>
    requires { HasWorkers command.now.what }
{
    if is_overwritten(rt, command.paths) {
        return Err(Failure::Overwritten);
    }
    if is_written_twice(rt, command.paths) {
        return Err(Failure::WrittenTwice);
    }
    let contents = read_files(rt, command.paths)?;
    if command.paths.list.is_some() {
        let status = answer_list(rt, look_of(errors), command, &contents, out, err);
        drop(contents);
        return status;
    }
    let answer = answer_on(rt, errors, command, &contents);
    drop(contents);
    answer?.write(rt, command, out, err)
}

/// The words of the command line.
fn words_given(rt: &(impl Runtime + AllocGlobal)) -> Result<Vec<String>, Failure> {
    match env::args(rt) {
        Ok(words) => {
            let words: Vec<String> = words.collect(rt.alloc())?;
            Ok(words)
        }
        Err(error) => match Failure::from(error) {
            Failure::Memory => Err(Failure::Memory),
            _ => Err(Failure::Words),
        },
    }
}

/// When a refusal is explained where the line does not say: by the variable DGC_EXPLAIN, if it is set and not empty.
fn explained_by_default(rt: &(impl Runtime + AllocGlobal)) -> Result<Explained, Failure> {
    match env::var(rt, "DGC_EXPLAIN") {
        Err(VarError::NotPresent) => Ok(Explained::OnTerminal),
        Ok(value) if value.is_empty() => Ok(Explained::OnTerminal),
        Ok(value) => explained_by(value.as_str()).ok_or(Failure::Setting),
        Err(VarError::OutOfMemory) => Err(Failure::Memory),
        Err(_) => Err(Failure::Setting),
    }
}

/// The command with that default. The variable is not read where the line says when a refusal is explained.
fn with_default<'a>(
    rt: &(impl Runtime + AllocGlobal),
    command: Command<'a>,
) -> Result<Command<'a>, Failure>
    ensures { IfOk result (λ done. done.what ≡ command.entry.what) }
{
    match command.explained {
        Explained::ByDefault => Ok(command.by_default(explained_by_default(rt)?)),
        _ => Ok(command),
    }
}

/// The command as it is where the standard error goes there.
fn command_on(command: Command<'_>, errors: Errors) -> Command<'_>
    ensures { result.what ≡ command.entry.what }
{
    match errors {
        Errors::Elsewhere => command,
        Errors::Terminal(_) => command.on_terminal(),
    }
}

/// Reads the command line and does what it asks for.
fn run<O: Write, E: Write>(
    rt: &(impl Runtime + AllocGlobal + Threads + Wait + Sync),
    errors: Errors,
    out: &mut O,
    err: &mut E,
) -> Result<u8, Failure> {
    let alloc = rt.alloc();
    let owned = words_given(rt)?;
    let words: Vec<&str> = owned.iter().map(|word| word.as_str()).collect(alloc)?;
    match read_command(alloc, words.as_slice()) {
        Ok(command) => {
            let command = command_on(with_default(rt, command)?, errors);
            answer(rt, errors, &command, out, err)
        }
        Err(LineFault::Words(error)) => {
            error.print(rt)?;
            Ok(if error.use_stderr() {
                STATUS_USAGE
            } else {
                STATUS_YES
            })
        }
        Err(LineFault::NoCommand(lack)) => {
            writeln!(err, "error: {lack}")?;
            Ok(STATUS_USAGE)
        }
        Err(LineFault::Memory) => Err(Failure::Memory),
    }
}

/// Says what keeps the program from its answer.
fn report<E: Write>(err: &mut E, failure: Failure) -> io::Result<u8> {
    let text = match failure {
        Failure::Memory => return memory(err),
        Failure::Words => "error: the command line is not UTF-8",
        Failure::Output => "error output",
        Failure::Setting => "error: DGC_EXPLAIN takes always, auto or never",
        Failure::Overwritten =>
            "error: the file that is to be written is one of those that are read",
        Failure::WrittenTwice => "error: the two files that are to be written are one",
    };
    writeln!(err, "{text}")?;
    Ok(STATUS_USAGE)
}

/// The status with which the program ends.
fn ended<O: Write, E: Write>(
    rt: &(impl Runtime + AllocGlobal + Threads + Wait + Sync),
    errors: Errors,
    out: &mut O,
    err: &mut E,
) -> u8 {
    match run(rt, errors, out, err) {
        Ok(status) => status,
        Err(failure) => status_of(report(err, failure)),
    }
}

/// How text looks on a terminal: in colours, if the variable NO_COLOR is not set, or is empty.
fn look_on_terminal(rt: &(impl Runtime + AllocGlobal)) -> Look {
    match env::var(rt, "NO_COLOR") {
        Err(VarError::NotPresent) => Look::Coloured,
        Ok(value) if value.is_empty() => Look::Coloured,
        _ => Look::Plain,
    }
}

/// How text looks where the standard error goes.
fn look_of(errors: Errors) -> Look {
    match errors {
        Errors::Elsewhere => Look::Plain,
        Errors::Terminal(terminal) => terminal.look,
    }
}

/// Where the standard error goes, which is this stream.
fn errors_to(rt: &(impl Runtime + AllocGlobal), stream: Stderr) -> Errors {
    if stream.is_terminal() {
        let look = look_on_terminal(rt);
        Errors::Terminal(Terminal { stream, look })
    } else {
        Errors::Elsewhere
    }
}

fn main(rt: HostRuntime) -> ExitCode {
    let errors = errors_to(&rt, rt.stderr());
    ExitCode::from(ended(&rt, errors, &mut rt.stdout(), &mut rt.stderr()))
}
