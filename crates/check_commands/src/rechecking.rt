//! The command `recheck`. Its lines are kept until the last edit, so that nothing is printed where memory is refused on the way.
ghost use Rattle.std.specs.Prelude.{◌≡◌, ◌≢◌, ◌++◌, ℕ, List, true, IfOk, OnOk};
ghost use Rattle.std.specs.Io.KnownBytes.{Appends};
ghost use Rattle.certs.specs.Fits.{fits};
ghost use Rattle.reports.specs.Said.{OfCertified, Says};
ghost use Rattle.check_commands.specs.EditedFiles.{OfEdited, OfEditsFile, OfRechecked};
ghost use Rattle.check_commands.specs.Rechecks as spec;
ghost use Rattle.fault_codes.specs.FaultCodes.{edit_code};
ghost use Rattle.check_commands.specs.Rechecks.{OfEdit, OfEdits, OfSession};
ghost use Rattle.reports.specs.Report.{Answer, IsTold};
ghost use Rattle.recheck.specs.declared.edit_fault.EditFault.TheVariants as edit_fault;

use fault_codes::edit_code;
use recheck::{Edit, EditFault, Session};
use reports::{
    Certified, Files, Findings, Outputs, STATUS_NO, STATUS_YES, accepted_again, edits_in,
    line_of_refusal, memory, not_laid_out, read_certified, refused, show_layouts, unread,
};
use std::alloc::{AllocError, Global};
use std::io;
use std::io::Write;

/// Writes the verdict on a session in one line, as `check` prints it; where it is accepted, with how many functions outside are trusted, if
/// some are. Returns the status that goes with it.
pub fn write_verdict<W: Write>(alloc: Global, session: &Session, lines: &mut W) -> io::Result<u8>
    ensures { IfOk result (λ status. (verdict : Answer) × OfSession session.now verdict × IsTold (W.contents lines.old) (W.contents lines.new) status verdict) }
{
    let of_module = session.program().module();
    match session.verdict() {
        None => accepted_again(alloc, lines, of_module),
        Some(refusal) => {
            let line = line_of_refusal(alloc, of_module, session.certs(), &refusal)?;
            refused(lines, of_module, &refusal, line.as_slice())
        }
    }
}

/// Writes the line of an edit that was accepted: `1 rechecked 2 yes 2`.
fn write_accepted<W: Write>(
    alloc: Global,
    number: usize,
    session: &Session,
    lines: &mut W,
) -> io::Result<()>
    ensures { OnOk result ((verdict : Answer) × OfSession session.now verdict × Appends (W.contents lines.old) (W.contents lines.new) (spec.accepted_text number session.now.rechecked verdict)) }
{
    write!(lines, "{number} rechecked {} ", session.rechecked())?;
    write_verdict(alloc, session, lines)?;
    Ok(())
}

/// The code for which an edit is refused.
fn code_of(fault: &EditFault) -> &'static str
    ensures { result.now ≡ spec.code_text (edit_code fault.now) }
{
    match edit_code(fault) {
        Some(code) => code.name(),
        None => "memory",
    }
}

/// Writes the line of an edit that was refused: `1 refused L5`. An edit for which memory ran out has no line.
fn write_refused<W: Write>(number: usize, fault: &EditFault, lines: &mut W) -> io::Result<()>
    ensures { OnOk result ((fault.now ≢ edit_fault.Memory) × Appends (W.contents lines.old) (W.contents lines.new) (spec.refused_text number fault.now)) }
{
    match fault {
        EditFault::Memory => Err(io::Error::from(AllocError)),
        fault => writeln!(lines, "{number} refused {}", code_of(fault)),
    }
}

/// Applies an edit and writes its line. It is seen.
fn write_edit<W: Write>(
    alloc: Global,
    number: usize,
    session: &mut Session,
    edit: &Edit,
    lines: &mut W,
    seen: &mut impl Findings,
) -> io::Result<()>
    ensures { OnOk result ((line : List ℕ) × OfEdit number session.old edit.now session.new line × Appends (W.contents lines.old) (W.contents lines.new) line) }
{
    match session.apply(alloc, edit) {
        Ok(()) => {
            seen.edit_made(session, number);
            write_accepted(alloc, number, session, lines)
        }
        Err(fault) => {
            seen.edit_refused(session, number, edit, &fault);
            let written = write_refused(number, &fault, lines);
            drop(fault);
            written
        }
    }
}

/// Applies edits and writes the line of each, numbered from 1. Each is seen.
pub fn write_edits<W: Write>(
    alloc: Global,
    session: &mut Session,
    edits: &[Edit],
    lines: &mut W,
    seen: &mut impl Findings,
) -> io::Result<()>
    ensures { OnOk result ((told : List ℕ) × OfEdits 1 session.old edits.now session.new told × Appends (W.contents lines.old) (W.contents lines.new) told) }
{
    for (place, edit) in edits.iter().enumerate() {
        write_edit(alloc, place + 1, session, edit, lines, seen)?;
    }
    Ok(())
}

/// The status that goes with the verdict on a session.
fn status_of_verdict(session: &Session) -> u8
    ensures { (verdict : Answer) × OfSession session.now verdict × (result ≡ verdict.status) }
{
    match session.verdict() {
        None => STATUS_YES,
        Some(_) => STATUS_NO,
    }
}

/// The lines of a session that is edited: the first verdict, and one for each edit. A write to them fails only where memory is
/// refused.
fn lines_of(
    alloc: Global,
    session: &mut Session,
    edits: &[Edit],
    seen: &mut impl Findings,
) -> io::Result<Vec<u8>>
    ensures { IfOk result (λ lines. (first : Answer) × (told : List ℕ) × OfSession session.old first × OfEdits 1 session.old edits.now session.new told × (lines.items ≡ first.text ++ told)) }
{
    let mut lines = Vec::new(alloc);
    write_verdict(alloc, session, &mut lines)?;
    seen.begun(session);
    write_edits(alloc, session, edits, &mut lines, seen)?;
    seen.edited(session);
    Ok(lines)
}

/// Edits a session that begins, and prints its lines.
fn edit_session(
    alloc: Global,
    session: &mut Session,
    edits: &[Edit],
    outputs: &mut Outputs,
    seen: &mut impl Findings,
) -> io::Result<u8>
    ensures { IfOk result (Says (OfEdited session.old edits.now) outputs.old outputs.new) }
{
    match lines_of(alloc, session, edits, seen) {
        Ok(lines) => {
            outputs.out.write_all(lines.as_slice())?;
            Ok(status_of_verdict(session))
        }
        Err(_) => memory(&mut outputs.err),
    }
}

/// Begins a session of a module with its certificates, and edits it.
fn recheck_certified(
    alloc: Global,
    certified: Certified,
    edits: &[Edit],
    outputs: &mut Outputs,
    seen: &mut impl Findings,
) -> io::Result<u8>
    requires { fits certified.of_module certified.certs.sections ≡ true }
    ensures { IfOk result (Says (OfRechecked certified.of_module certified.certs edits.now) outputs.old outputs.new) }
{
    match Session::new(alloc, certified.of_module, certified.certs) {
        Ok(mut session) => {
            let status = edit_session(alloc, &mut session, edits, outputs, seen);
            drop(session);
            status
        }
        Err(answer) => {
            show_layouts(seen, answer.verdict);
            let status = not_laid_out(&mut outputs.err, &answer);
            drop(answer);
            status
        }
    }
}

/// Reads the edits, and applies them to a module with its certificates.
fn recheck_edits(
    alloc: Global,
    certified: Certified,
    files: &Files<'_>,
    outputs: &mut Outputs,
    seen: &mut impl Findings,
) -> io::Result<u8>
    requires { fits certified.of_module certified.certs.sections ≡ true }
    ensures { IfOk result (Says (OfEditsFile files.now.edits certified.of_module certified.certs) outputs.old outputs.new) }
{
    match edits_in(alloc, files) {
        Ok(edits) => {
            let status = recheck_certified(alloc, certified, edits.as_slice(), outputs, seen);
            drop(edits);
            status
        }
        Err(fault) => {
            drop(certified);
            seen.not_read(&fault);
            unread(&mut outputs.err, fault)
        }
    }
}

/// Checks the module against the certificate, and again after each of the edits. The first fault counts: of each of the three files, its
/// path and then its text, of the edits their frame; then of the layouts. It is seen, and so are the verdicts and each edit.
pub fn recheck_files(
    alloc: Global,
    files: &Files<'_>,
    outputs: &mut Outputs,
    seen: &mut impl Findings,
) -> io::Result<u8>
    ensures { IfOk result (Says (OfCertified (OfEditsFile files.now.edits) files.now.of_module files.now.certificate) outputs.old outputs.new) }
{
    match read_certified(alloc, files) {
        Ok(certified) => recheck_edits(alloc, certified, files, outputs, seen),
        Err(fault) => {
            seen.not_read(&fault);
            unread(&mut outputs.err, fault)
        }
    }
}
