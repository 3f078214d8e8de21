//! The commands, from the bytes of their files to the printed lines and the status.
ghost use Rattle.std.specs.Prelude.{◌≡◌, false, IfOk, OnOk};
ghost use Rattle.command_line.specs.Asked.{asks_for_steps, HasWorkers, is_wanted};
ghost use Rattle.commands.specs.Commands.{OfCommand};
ghost use Rattle.reports.specs.Said.{GivesText, GivesTextIf, saved_in, SaysAndTells};

use crate::conforming::conform_files;
use crate::record_told::explain_record;
use crate::replaying::replay_files;
use crate::running::run_files;
use crate::watching::watch_files;
use crate::written::{put_answer, seen_of, watched_by};
use check_commands::{
    check_files, explain_code, lower_files, make_file, migrate_files, recheck_files,
};
use command_line::{Command, What};
use explained_checks::{Explainer, Look, Question, Topic, explain, explain_hunt};
use fix_commands::fix_files;
use messages::Pen;
use reports::{
    File, Files, Findings, ModuleFile, Results, STATUS_NO, STATUS_UNREADABLE, STATUS_YES,
};
use search_commands::{Onlooker, hunt_files, soak_files, tell_happened};
use std::alloc::{AllocError, Global};
use std::io;
use std::thread::Threads;
use std::time::Clock;

/// Does a command, without explanations. Why a check, a recheck or the making of certificates does not accept its files is seen.
fn answer(
    rt: &(impl AllocGlobal + Threads + Clock + Sync),
    command: &Command<'_>,
    files: &Files<'_>,
    results: &mut Results,
    onlooker: &mut impl Onlooker,
    seen: &mut impl Findings,
) -> io::Result<u8>
    requires { HasWorkers command.now.what }
    ensures said { IfOk result (SaysAndTells (asks_for_steps command.now.what) false (OfCommand command.now.what files.now (saved_in results.old) (saved_in results.new)) results.old.outputs results.new.outputs) }
    ensures kept { files.now.saves ≡ false → results.new.saved.items ≡ results.old.saved.items }
{
    let alloc = rt.alloc();
    let outputs = &mut results.outputs;
    match command.what {
        What::Check(options) => check_files(rt, alloc, options, files, outputs, seen),
        What::Make(options) => make_file(alloc, options, files, outputs, seen),
        What::Fix => fix_files(rt, alloc, files, results),
        What::Recheck => recheck_files(alloc, files, outputs, seen),
        What::Replay(options) => replay_files(alloc, options, files, results),
        What::Soak(options) => soak_files(rt, alloc, options, files, results, onlooker),
        What::Hunt(options) => hunt_files(rt, alloc, options, files, results, onlooker),
        What::Run(options) => run_files(rt, alloc, options, files, outputs),
        What::Watch(options) => watch_files(rt, alloc, options, files, outputs),
        What::Conform => conform_files(alloc, files, outputs),
        What::Explain(options) => explain_code(options, outputs),
        What::Migrate => migrate_files(alloc, files, outputs),
        What::Lower(options) => lower_files(alloc, options, files, outputs),
    }
}

/// What is explained while a command is done, if its line asks for explanations.
pub(crate) fn topic_of(command: &Command<'_>) -> Topic {
    if command.explained.is_wanted() {
        seen_of(command.what)
    } else {
        Topic::Nothing
    }
}

/// What is to be explained after a command that answered with this status, if something is.
fn question_of(what: What<'_>, files: &Files<'_>, status: u8) -> Option<Question> {
    match (what, status) {
        (What::Hunt(_), STATUS_UNREADABLE) => Some(if files.certificate.is_some() {
            Question::Check
        } else {
            Question::Make
        }),
        (What::Run(_), STATUS_NO | STATUS_UNREADABLE) => Some(Question::Run),
        (What::Replay(_) | What::Soak(_) | What::Watch(_) | What::Conform, STATUS_UNREADABLE) => {
            Some(Question::Trace)
        }
        _ => None,
    }
}

/// Explains what was answered with this status, or says how much happens in the runs of sound seeds, or what a sound hunt does not show.
fn explain_outcome(
    pen: Pen,
    what: What<'_>,
    files: &Files<'_>,
    status: u8,
    err: &mut Vec<u8>,
) -> io::Result<()>
    ensures { OnOk result (GivesText err.old.items err.new.items) }
{
    let Pen { alloc, look } = pen;
    if let (What::Soak(options), STATUS_YES) = (what, status) {
        return tell_happened(alloc, options.search, files, err);
    }
    if let (What::Hunt(_), STATUS_YES) = (what, status) {
        return explain_hunt(alloc, files, err);
    }
    if let (What::Conform, STATUS_NO) = (what, status) {
        return explain_record(alloc, look, files, err);
    }
    match question_of(what, files, status) {
        Some(question) => explain(alloc, look, question, files, err),
        None => Ok(()),
    }
}

/// Writes what was seen of the files, or explains what was answered with this status.
fn explain_seen(
    seen: Explainer<'_>,
    what: What<'_>,
    files: &Files<'_>,
    status: u8,
    err: &mut Vec<u8>,
) -> io::Result<()>
    ensures { OnOk result (GivesText err.old.items err.new.items) }
{
    match (what, status) {
        (What::Check(_) | What::Make(_) | What::Recheck, STATUS_NO | STATUS_UNREADABLE) => {
            seen.write(err)
        }
        _ => {
            let pen = seen.pen();
            drop(seen);
            explain_outcome(pen, what, files, status, err)
        }
    }
}

/// Explains what a command answered with this status, if its line asks for that.
pub(crate) fn explain_answer(
    seen: Explainer<'_>,
    command: &Command<'_>,
    files: &Files<'_>,
    status: u8,
    err: &mut Vec<u8>,
) -> io::Result<()>
    ensures { OnOk result (GivesTextIf (is_wanted command.now.explained) err.old.items err.new.items) }
{
    if command.explained.is_wanted() {
        return explain_seen(seen, command.what, files, status, err);
    }
    drop(seen);
    Ok(())
}

/// The two texts that `fix` hands out.
#[derive(Clone, Copy)]
struct Handed<'a> {
    of_module: &'a [u8],
    certificate: &'a [u8],
}

/// A path of a file that is written; empty where the line has none.
fn path_copied(alloc: Global, path: Option<&str>) -> Result<Vec<u8>, AllocError> {
    Vec::from_slice(alloc, path.unwrap_or("").as_bytes())
}

/// A module and its certificate, in files of these paths.
fn files_at<'a>(
    path: &'a str,
    of_module: &'a [u8],
    cert_path: &'a str,
    certificate: &'a [u8],
    wide: bool,
) -> Files<'a> {
    let file = File {
        path,
        bytes: Some(of_module),
    };
    Files {
        of_module: Some(ModuleFile {
            file,
            wide,
            keeps: false,
        }),
        certificate: Some(File {
            path: cert_path,
            bytes: Some(certificate),
        }),
        shapes: None,
        trace: None,
        edits: None,
        of_record: None,
        saves: false,
    }
}

/// Explains why the two texts that a command hands out are not accepted.
fn explain_handed(
    pen: Pen,
    command: &Command<'_>,
    handed: Handed<'_>,
    err: &mut Vec<u8>,
) -> io::Result<()>
    ensures { OnOk result (GivesText err.old.items err.new.items) }
{
    let Pen { alloc, look } = pen;
    let paths = command.paths;
    let path = path_copied(alloc, paths.saved)?;
    let cert_path = path_copied(alloc, paths.saved_cert)?;
    let files = files_at(
        str::from_utf8(path.as_slice()).unwrap_or(""),
        handed.of_module,
        str::from_utf8(cert_path.as_slice()).unwrap_or(""),
        handed.certificate,
        command.forms.is_wide(),
    );
    explain(alloc, look, Question::Check, &files, err)
}

/// The same as `explain_answer`, but for `fix`: what is explained then is what it hands out.
fn explain_done(
    seen: Explainer<'_>,
    command: &Command<'_>,
    files: &Files<'_>,
    handed: Handed<'_>,
    status: u8,
    err: &mut Vec<u8>,
) -> io::Result<()>
    ensures { OnOk result (GivesTextIf (is_wanted command.now.explained) err.old.items err.new.items) }
{
    if command.explained.is_wanted() {
        if let (What::Fix, STATUS_NO | STATUS_UNREADABLE) = (command.what, status) {
            let pen = seen.pen();
            drop(seen);
            return explain_handed(pen, command, handed, err);
        }
    }
    explain_answer(seen, command, files, status, err)
}

/// Does a command on its files. The bytes of the file that it writes are appended to `results.saved`; they are to be written where the
/// status is yes or no. A search is told of to the onlooker while it works. The steps of a replay are told after its answer, and made before
/// it, so that nothing is answered where they find no memory. An explanation has this look. The object of the answer is made where the line
/// asks for it. Returns the status with which the program ends, or an error where memory is refused.
pub fn work(
    rt: &(impl AllocGlobal + Threads + Clock + Sync),
    look: Look,
    command: &Command<'_>,
    files: &Files<'_>,
    results: &mut Results,
    onlooker: &mut impl Onlooker,
) -> io::Result<u8>
    requires { HasWorkers command.now.what }
    ensures said { IfOk result (SaysAndTells (asks_for_steps command.now.what) (is_wanted command.now.explained) (OfCommand command.now.what files.now (saved_in results.old) (saved_in results.new)) results.old.outputs results.new.outputs) }
    ensures kept { files.now.saves ≡ false → results.new.saved.items ≡ results.old.saved.items }
{
    let mut seen = watched_by(rt.alloc(), look, command, files);
    let status = answer(rt, command, files, results, onlooker, &mut seen)?;
    put_answer(
        rt.alloc(),
        &mut seen,
        command,
        status,
        &results.outputs,
        &mut results.answer,
    )?;
    let handed = Handed {
        of_module: results.saved.as_slice(),
        certificate: results.saved_cert.as_slice(),
    };
    explain_done(
        seen,
        command,
        files,
        handed,
        status,
        &mut results.outputs.err,
    )?;
    Ok(status)
}
