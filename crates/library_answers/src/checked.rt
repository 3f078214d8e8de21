//! The check of a module.
ghost use Rattle.std.specs.Prelude.{◌≡◌, ◌<◌, IfOk};
ghost use Rattle.module_check.specs.Accepted.{IsAccepted, IsVerdictOf, shaped};
ghost use Rattle.reports.specs.Files.{of_unread};
ghost use Rattle.reports.specs.Said.{OfAccepted, OfCertified, OfVerdict, OnError};
ghost use Rattle.check_commands.specs.Checks.{OfCerts};
ghost use Rattle.command_line.specs.declared.options.Refusals.TheVariants.{First};
ghost use Rattle.library_answers.specs.Checked.{AreAcceptedTexts, IsCheckOf};
ghost use Rattle.library_answers.specs.Told.{AreAccepted, IsAnswered, IsNoInstruction, IsNoVerdict, IsPlaced, IsRefusedAt};

use crate::answer::{Answer, answer_of, no_memory, nothing};
use crate::code::{place_of_layouts, place_of_unread};
use crate::place::{Place, place_of_refusal};
use crate::texts::texts_of_check;
use module_check::{Accepted, NotAccepted, Reason, check};
use reports::{
    Certified, Files, Unread, bytes_of, file_of, read_certified, report_accepted, report_verdict,
    unread,
};
use std::alloc::{AllocError, Global};

/// The answer where texts are not read.
pub(crate) fn not_read(alloc: Global, fault: Unread<'_>, room: &mut [u8]) -> Answer
    ensures said { IsAnswered (λ said. said ≡ OnError (of_unread fault.entry)) room.old room.new result }
    ensures place { IsNoInstruction result.place }
    ensures no { IsNoVerdict result }
{
    let place = place_of_unread(&fault);
    let mut outputs = nothing(alloc);
    let printed = unread(&mut outputs.err, fault);
    answer_of(outputs, printed, place, room)
}

/// The answer where a module is accepted.
fn is_accepted(alloc: Global, taken: &Accepted, room: &mut [u8]) -> Answer
    ensures said { IsAnswered (OfAccepted taken.now.program.of_module) room.old room.new result }
    ensures place { IsNoInstruction result.place }
{
    let mut outputs = nothing(alloc);
    let printed = report_accepted(alloc, taken.program().module(), &mut outputs);
    answer_of(outputs, printed, Place::nowhere(), room)
}

/// Where a module is at fault.
fn place_of_verdict(alloc: Global, answer: &NotAccepted, text: &[u8]) -> Result<Place, AllocError>
    requires { IsVerdictOf (shaped answer.now.of_module answer.now.certs) answer.now.certs.sections answer.now.verdict }
    ensures { IfOk result (IsRefusedAt answer.now.of_module answer.now.certs) }
{
    match answer.verdict {
        Reason::Refused(refusal) => place_of_refusal(alloc, &answer.of_module, text, &refusal),
        Reason::Layout(fault) => Ok(place_of_layouts(fault)),
        Reason::Memory => Ok(Place::nowhere()),
    }
}

/// The answer where a module is not accepted, which has this text.
fn is_refused(alloc: Global, answer: &NotAccepted, text: &[u8], room: &mut [u8]) -> Answer
    requires { IsVerdictOf (shaped answer.now.of_module answer.now.certs) answer.now.certs.sections answer.now.verdict }
    ensures said { IsAnswered (OfVerdict answer.now.of_module answer.now.certs) room.old room.new result }
    ensures place { IsRefusedAt answer.now.of_module answer.now.certs result.place }
    ensures no { 0 < result.status }
{
    match place_of_verdict(alloc, answer, text) {
        Ok(place) => {
            let mut outputs = nothing(alloc);
            let printed = report_verdict(alloc, answer, &mut outputs);
            answer_of(outputs, printed, place, room)
        }
        Err(_) => no_memory(room),
    }
}

/// Checks what was read of a module, which has this text, and its certificate.
fn check_certified(alloc: Global, certified: Certified, text: &[u8], room: &mut [u8]) -> Answer
    ensures said { IsAnswered (OfCerts First certified.of_module certified.certs) room.old room.new result }
    ensures place { IsRefusedAt certified.of_module certified.certs result.place }
    ensures accepted { result.status ≡ 0 → IsAccepted (shaped certified.of_module certified.certs) certified.certs.sections }
{
    let Certified { of_module, certs } = certified;
    match check(alloc, of_module, certs) {
        Ok(taken) => {
            let answer = is_accepted(alloc, &taken, room);
            drop(taken);
            answer
        }
        Err(refused) => {
            let answer = is_refused(alloc, &refused, text, room);
            drop(refused);
            answer
        }
    }
}

/// Checks the module of some files against their certificate.
fn check_files(alloc: Global, files: &Files<'_>, room: &mut [u8]) -> Answer
    ensures said { IsAnswered (OfCertified (OfCerts First) files.now.of_module files.now.certificate) room.old room.new result }
    ensures accepted { result.status ≡ 0 → AreAccepted files.now.of_module files.now.certificate }
    ensures place { IsPlaced files.now.of_module files.now.certificate result.place }
{
    match read_certified(alloc, files) {
        Ok(certified) => {
            let text = text_in(files);
            check_certified(alloc, certified, text, room)
        }
        Err(fault) => not_read(alloc, fault, room),
    }
}

/// Checks a module against a certificate: the answer of `dgc check`. Its status is 0 only where the module is accepted. `wide` says
/// whether the wide forms may stand in the module.
pub fn check_texts(
    alloc: Global,
    wide: bool,
    of_module: &[u8],
    cert: &[u8],
    room: &mut [u8],
) -> Answer
    ensures said { IsCheckOf wide of_module.now cert.now room.old room.new result }
    ensures accepted { result.status ≡ 0 → AreAcceptedTexts wide of_module.now cert.now }
{
    let files = texts_of_check(wide, of_module, cert);
    check_files(alloc, &files, room)
}

/// The text of the module, empty where there is none.
pub(crate) fn text_in<'a>(files: &Files<'a>) -> &'a [u8] {
    match bytes_of(file_of(files.of_module)) {
        Some(text) => text,
        None => &[],
    }
}
