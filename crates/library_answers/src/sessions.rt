//! Sessions: a module with its certificate, and edits of it.
ghost use Rattle.std.specs.Prelude.{◌≡◌, ℕ, IfErr, IfOk, OnOk, true};
ghost use Rattle.certs.specs.Fits.{fits};
ghost use Rattle.check_commands.specs.Rechecks.{IsBegun, OfEdits};
ghost use Rattle.library_answers.specs.Checked.{AreAcceptedTexts};
ghost use Rattle.library_answers.specs.Sessions.{HasBegun, IsAcceptedNow, IsAppliedTo, IsBegunOf, IsEditedBy, IsOfSession, IsStatusOf};
ghost use Rattle.library_answers.specs.Told.{IsAnswered, IsGiven, IsNoVerdict};

use crate::answer::{Answer, answer_of, given, no_memory, nothing};
use crate::checked::not_read;
use crate::code::place_of_layouts;
use crate::place::{Place, numbers_of, place_of_refusal};
use crate::texts::texts_of_check;
use check_commands::{write_edits, write_verdict};
use module_check::{NotAccepted, Reason, Unseen};
use recheck::{Edit, Session, read_edits};
use reports::{Certified, Files, STATUS_NO, STATUS_YES, Unread, not_laid_out, read_certified};
use std::alloc::{AllocError, Global};
use std::io;

/// Where the first refusal in a session is that begins with this text of its module.
fn place_in(alloc: Global, session: &Session, text: &[u8]) -> Result<Place, AllocError> {
    match session.verdict() {
        Some(refusal) => place_of_refusal(alloc, session.program().module(), text, &refusal),
        None => Ok(Place::nowhere()),
    }
}

/// The code of why a module has no layouts.
fn place_of_reason(reason: Reason) -> Place {
    match reason {
        Reason::Layout(fault) => place_of_layouts(fault),
        _ => Place::nowhere(),
    }
}

/// The answer where a module has no layouts.
fn not_begun(alloc: Global, refused: &NotAccepted, room: &mut [u8]) -> Answer
    ensures { IsNoVerdict result }
{
    let place = place_of_reason(refused.verdict);
    let mut outputs = nothing(alloc);
    let printed = not_laid_out(&mut outputs.err, refused);
    answer_of(outputs, printed, place, room)
}

/// Begins a session of what was read of a module and its certificate.
fn begin_certified(alloc: Global, certified: Certified, room: &mut [u8]) -> Result<Session, Answer>
    requires { fits certified.of_module certified.certs.sections ≡ true }
    ensures begun { IfOk result (IsBegun certified.of_module certified.certs) }
    ensures none { IfErr result IsNoVerdict }
    ensures kept { OnOk result (room.new ≡ room.old) }
{
    match Session::new(alloc, certified.of_module, certified.certs) {
        Ok(session) => Ok(session),
        Err(refused) => {
            let answer = not_begun(alloc, &refused, room);
            drop(refused);
            Err(answer)
        }
    }
}

/// Begins a session of the module of some files, with their certificate.
fn begin_files(alloc: Global, files: &Files<'_>, room: &mut [u8]) -> Result<Session, Answer>
    ensures begun { IfOk result (HasBegun files.now.of_module files.now.certificate) }
    ensures none { IfErr result IsNoVerdict }
    ensures kept { OnOk result (room.new ≡ room.old) }
{
    match read_certified(alloc, files) {
        Ok(certified) => begin_certified(alloc, certified, room),
        Err(fault) => Err(not_read(alloc, fault, room)),
    }
}

/// Begins a session of a module with its certificate. Where there is none, the answer says why.
pub fn begin_session(
    alloc: Global,
    wide: bool,
    of_module: &[u8],
    cert: &[u8],
    room: &mut [u8],
) -> Result<Session, Answer>
    ensures begun { IfOk result (IsBegunOf wide of_module.now cert.now) }
    ensures accepted { IfOk result (λ session. IsAcceptedNow session → AreAcceptedTexts wide of_module.now cert.now) }
    ensures none { IfErr result IsNoVerdict }
    ensures kept { OnOk result (room.new ≡ room.old) }
{
    let files = texts_of_check(wide, of_module, cert);
    begin_files(alloc, &files, room)
}

/// The first answer of a session that begins with this text of its module: the verdict on it. Its status is 0 only where the module is
/// accepted.
pub fn first_answer(alloc: Global, session: &Session, text: &[u8], room: &mut [u8]) -> Answer
    ensures said { IsAnswered (IsOfSession session.now) room.old room.new result }
    ensures accepted { result.status ≡ 0 → IsAcceptedNow session.now }
{
    match place_in(alloc, session, text) {
        Ok(place) => {
            let mut outputs = nothing(alloc);
            let printed = write_verdict(alloc, session, &mut outputs.out);
            answer_of(outputs, printed, place, room)
        }
        Err(_) => no_memory(room),
    }
}

/// The lines of edits, which are applied.
fn lines_of(alloc: Global, session: &mut Session, edits: &[Edit]) -> io::Result<Vec<u8>>
    ensures { IfOk result (λ lines. OfEdits 1 session.old edits.now session.new lines.items) }
{
    let mut lines = Vec::new(alloc);
    write_edits(alloc, session, edits, &mut lines, &mut Unseen)?;
    Ok(lines)
}

/// The status that goes with the verdict on a session, and the numbers of its first refusal.
fn verdict_of(session: &Session) -> (u8, Place)
    ensures { IsStatusOf session.now result.0 }
{
    match session.verdict() {
        None => (STATUS_YES, Place::nowhere()),
        Some(refusal) => (STATUS_NO, numbers_of(&refusal, 0, 0)),
    }
}

/// The answer after edits were applied to a session and these lines told of them.
fn answer_after(session: &Session, lines: &[u8], room: &mut [u8]) -> Answer
    ensures given { (status : ℕ) × IsStatusOf session.now status × IsGiven status lines.now room.old room.new result }
    ensures rechecked { result.rechecked ≡ session.now.rechecked }
{
    let (status, place) = verdict_of(session);
    given(status, place, session.rechecked(), lines, room)
}

/// Applies edits to a session.
fn apply_each(alloc: Global, session: &mut Session, edits: &[Edit], room: &mut [u8]) -> Answer
    ensures { IsEditedBy edits.now session.old session.new room.old room.new result }
{
    match lines_of(alloc, session, edits) {
        Ok(lines) => answer_after(session, lines.as_slice(), room),
        Err(_) => no_memory(room),
    }
}

/// Applies the edits of a text to a session: a line for each edit, as `dgc recheck` prints it, and the status of the last verdict. Where
/// memory is refused, the first edits may have been applied. The status is 0 only where the module is accepted then.
pub fn apply_edits(alloc: Global, session: &mut Session, edits: &[u8], room: &mut [u8]) -> Answer
    ensures said { IsAppliedTo edits.now session.old session.new room.old room.new result }
    ensures accepted { result.status ≡ 0 → IsAcceptedNow session.new }
{
    match read_edits(alloc, edits) {
        Ok(edits) => {
            let answer = apply_each(alloc, session, edits.as_slice(), room);
            drop(edits);
            answer
        }
        Err(fault) => not_read(alloc, Unread::NoEdits(fault), room),
    }
}

/// The answer where there is no memory for a session.
pub fn no_session(room: &mut [u8]) -> Answer
    ensures { IsNoVerdict result }
{
    no_memory(room)
}
