//! The command `check-list`: each pair of a list is checked, some at a time, and answered in the order of the list.
ghost use Rattle.std.specs.Prelude.{◌≡◌, ◌++◌, ◌≤◌, ◌<◌, [], false, length, IfOk, OnOk};
ghost use Rattle.command_line.specs.Asked.{HasWorkers, is_wanted};
ghost use Rattle.command_line.specs.declared.options.What.TheVariants.{Check as ACheck};
ghost use Rattle.commands.specs.Listing as spec;
ghost use Rattle.commands.specs.Listing.{IsListed, line_of};
ghost use Rattle.reports.specs.Said.{GivesTextIf};

use crate::command::{explain_answer, topic_of};
use crate::files::Contents;
use crate::no_file::{NoFile, explain_file, explain_line, explain_no_file};
use check_commands::check_files;
use command_line::{CheckOptions, Command, INPUT, Paths, What};
use explained_checks::{Explainer, Look};
use messages::Pen;
use pair_lists::{ListFault, Pair, read_pairs};
use reports::{Files, Outputs, STATUS_USAGE, STATUS_YES, Unread, file_of, memory, path_of, unread};
use std::alloc::{AllocError, Global};
use std::io;
use std::io::Write;
use std::thread::{Threads, map_chunks};
use std::time::Clock;

/// How many pairs each worker answers before the next ones are read. To start a thread takes longer than to check a small pair.
const SHARE: usize = 16;

/// What is told of a pair of a list.
#[derive(Drop)]
pub struct Listed {
    pub status: u8,
    /// The line of the pair.
    pub line: Vec<u8>,
    /// Its explanation, which may be empty.
    pub told: Vec<u8>,
}

/// What a list is checked with: the files of its pairs are read, and their answers are written.
pub trait Outside {
    /// What can be read of the files of these paths.
    fn contents(&mut self, paths: Paths<'_>) -> io::Result<Contents>;

    /// Writes the answer of a pair, which is the next one.
    fn answered(&mut self, listed: &Listed) -> io::Result<()>;
}

/// Appends some lines as one.
fn push_in_one_line(text: &[u8], line: &mut Vec<u8>) -> Result<(), AllocError>
    ensures { OnOk result (line.new.items ≡ line.old.items ++ spec.in_one_line text.now) }
{
    for byte in &text[..text.len().saturating_sub(1)] {
        line.push(if *byte == b'\n' { b' ' } else { *byte })?;
    }
    line.push(b'\n')?;
    Ok(())
}

/// The line of a pair of whose module this is the path, and of which this is printed.
fn line_of(alloc: Global, path: &str, outputs: Outputs) -> Result<Vec<u8>, AllocError>
    ensures { IfOk result (λ line. line.items ≡ line_of path.now (outputs.out.items ++ outputs.err.items)) }
{
    let Outputs { out, err } = outputs;
    let mut text = out;
    text.extend_from_slice(err.as_slice())?;
    drop(err);
    let mut line = Vec::from_slice(alloc, path.as_bytes())?;
    line.push(b'\t')?;
    push_in_one_line(text.as_slice(), &mut line)?;
    drop(text);
    Ok(line)
}

/// Checks the files of a pair.
fn list_pair(
    rt: &(impl AllocGlobal + Threads + Clock + Sync),
    look: Look,
    command: &Command<'_>,
    options: CheckOptions,
    files: &Files<'_>,
) -> io::Result<Listed>
    requires { HasWorkers (ACheck options) }
    ensures listed { IfOk result (IsListed options.refusals files.now) }
    ensures told { is_wanted command.now.explained ≡ false → IfOk result (λ listed. listed.told.items ≡ []) }
{
    let alloc = rt.alloc();
    let mut seen = Explainer::new(alloc, look, topic_of(command), files);
    let mut outputs = Outputs::new(alloc);
    let status = check_files(rt, alloc, options, files, &mut outputs, &mut seen)?;
    let mut told = Vec::new(alloc);
    explain_answer(seen, command, files, status, &mut told)?;
    let line = line_of(alloc, path_of(file_of(files.of_module)), outputs)?;
    Ok(Listed { status, line, told })
}

/// How many workers check each of these pairs, where so many work at a time.
fn workers_of_each(workers: u32, pairs: usize) -> u32
    requires some { 1 ≤ workers }
    requires few { workers ≤ 64 }
    ensures some { 1 ≤ result }
    ensures few { result ≤ 64 }
{
    match u32::try_from(pairs) {
        Ok(pairs) if pairs > 0 => (workers / pairs).max(1),
        _ => 1,
    }
}

/// A pair of a list, with what was read of its files.
#[derive(Drop)]
struct Job<'a> {
    pair: Pair<'a>,
    contents: Contents,
}

/// Checks a pair whose files were read, by the command on it.
fn answer_pair(
    rt: &(impl AllocGlobal + Threads + Clock + Sync),
    look: Look,
    command: &Command<'_>,
    options: CheckOptions,
    contents: &Contents,
) -> io::Result<Listed>
    requires { HasWorkers (ACheck options) }
{
    let files = contents.of_command(command);
    let mut listed = list_pair(rt, look, command, options, &files)?;
    let pen = Pen {
        alloc: rt.alloc(),
        look,
    };
    explain_no_file(pen, command, contents, listed.status, &mut listed.told)?;
    Ok(listed)
}

/// Checks the pairs of one worker, one after another.
fn answer_share(
    rt: &(impl AllocGlobal + Threads + Clock + Sync),
    look: Look,
    command: &Command<'_>,
    options: CheckOptions,
    jobs: &[Job<'_>],
) -> io::Result<Vec<io::Result<Listed>>>
    requires { HasWorkers (ACheck options) }
{
    let mut answers = Vec::new(rt.alloc());
    for job in jobs {
        let Pair {
            of_module,
            certificate,
        } = job.pair;
        let command = command.of_pair(of_module, certificate);
        answers.push(answer_pair(rt, look, &command, options, &job.contents))?;
    }
    Ok(answers)
}

/// Checks some pairs: at the same time as many of them as these shares, each by so many workers as the options say.
fn answer_jobs(
    rt: &(impl AllocGlobal + Threads + Clock + Sync),
    look: Look,
    command: &Command<'_>,
    options: CheckOptions,
    share: usize,
    jobs: &[Job<'_>],
) -> io::Result<Vec<io::Result<Vec<io::Result<Listed>>>>>
    requires workers { HasWorkers (ACheck options) }
    requires some { 1 ≤ share }
{
    let answers = map_chunks(
        rt,
        rt.alloc(),
        jobs,
        share,
        &|_start: usize, of_worker: &[Job<'_>]| -> io::Result<Vec<io::Result<Listed>>>
            requires { HasWorkers (ACheck options) }
        { answer_share(rt, look, command, options, of_worker) },
    )?;
    Ok(answers)
}

/// The path of a file of a pair. None is the standard input, which no pair has.
fn path_in_list(path: &str) -> Option<&str> {
    if path == INPUT { None } else { Some(path) }
}

/// The paths of the files of a pair that are read.
fn paths_of<'a>(pair: Pair<'a>) -> Paths<'a> {
    Paths {
        of_module: path_in_list(pair.of_module),
        certificate: path_in_list(pair.certificate),
        ..Paths::NONE
    }
}

/// Reads the files of some pairs.
fn jobs_of<'a>(
    alloc: Global,
    pairs: &[Pair<'a>],
    outside: &mut impl Outside,
) -> io::Result<Vec<Job<'a>>> {
    let mut jobs = Vec::new(alloc);
    for pair in pairs {
        let contents = outside.contents(paths_of(*pair))?;
        jobs.push(Job {
            pair: *pair,
            contents,
        })?;
    }
    Ok(jobs)
}

/// Writes the answers of one worker's pairs. Returns the greatest of this status and theirs.
fn write_share(
    answers: Vec<io::Result<Listed>>,
    status: u8,
    outside: &mut impl Outside,
) -> io::Result<u8> {
    let mut worst = status;
    for listed in answers {
        let listed = listed?;
        outside.answered(&listed)?;
        worst = worst.max(listed.status);
        drop(listed);
    }
    Ok(worst)
}

/// Writes some answers. Returns the greatest of this status and theirs.
fn write_answers(
    shares: Vec<io::Result<Vec<io::Result<Listed>>>>,
    status: u8,
    outside: &mut impl Outside,
) -> io::Result<u8> {
    let mut worst = status;
    for share in shares {
        worst = write_share(share?, worst, outside)?;
    }
    Ok(worst)
}

/// Checks the pairs of a list, so many at a time as there are workers.
fn check_pairs(
    rt: &(impl AllocGlobal + Threads + Clock + Sync),
    look: Look,
    command: &Command<'_>,
    options: CheckOptions,
    pairs: &[Pair<'_>],
    outside: &mut impl Outside,
) -> io::Result<u8>
    requires { HasWorkers (ACheck options) }
{
    let workers = options.workers as usize;
    let mut worst = STATUS_YES;
    for some in pairs.chunks(workers * SHARE) {
        let jobs = jobs_of(rt.alloc(), some, outside)?;
        let of_each = CheckOptions {
            workers: workers_of_each(options.workers, some.len()),
            ..options
        };
        let share = some.len().div_ceil(workers).max(1);
        let answers = answer_jobs(rt, look, command, of_each, share, jobs.as_slice());
        drop(jobs);
        worst = write_answers(answers?, worst, outside)?;
    }
    Ok(worst)
}

/// A list that is not read: `error file PATH`.
fn no_list(
    pen: Pen,
    command: &Command<'_>,
    why: Option<NoFile>,
    err: &mut Vec<u8>,
) -> io::Result<u8> {
    let path = command.paths.list.unwrap_or("");
    let status = unread(err, Unread::NoFile(path))?;
    if let (true, Some(why)) = (command.explained.is_wanted(), why) {
        explain_file(pen, path, why, err)?;
    }
    Ok(status)
}

/// A line of a list that is no pair: `error list 3`.
fn no_pair(pen: Pen, command: &Command<'_>, line: usize, err: &mut Vec<u8>) -> io::Result<u8> {
    writeln!(err, "error list {line}")?;
    if command.explained.is_wanted() {
        explain_line(pen, command.paths.list.unwrap_or(""), line, err)?;
    }
    Ok(STATUS_USAGE)
}

/// Checks each pair of the list of a command, which is a `check`. Nothing is checked where a line of the list is no pair. Returns the greatest
/// status of the pairs.
///
/// No clause says the following. Each pair is answered as `list_pair` promises, in the order of the list; so many of them are checked at a
/// time as there are workers. Sixteen for each worker are read, checked and answered before the next ones.
pub fn check_list(
    rt: &(impl AllocGlobal + Threads + Clock + Sync),
    look: Look,
    command: &Command<'_>,
    contents: &Contents,
    outside: &mut impl Outside,
    err: &mut Vec<u8>,
) -> io::Result<u8>
    requires { HasWorkers command.now.what }
{
    let pen = Pen {
        alloc: rt.alloc(),
        look,
    };
    let (Some(list), What::Check(options)) = (&contents.list, command.what) else {
        return no_list(pen, command, contents.why, err);
    };
    match read_pairs(rt.alloc(), list.as_slice()) {
        Ok(pairs) => {
            let status = check_pairs(rt, look, command, options, pairs.as_slice(), outside);
            drop(pairs);
            status
        }
        Err(ListFault::Line(line)) => no_pair(pen, command, line, err),
        Err(ListFault::NotText) => no_list(pen, command, Some(NoFile::NotText), err),
        Err(ListFault::Memory) => memory(err),
    }
}
