//! Certificates that are made.
ghost use Rattle.std.specs.Prelude.{◌≡◌, IfSome, true};
ghost use Rattle.certs.specs.Fits.{fits};
ghost use Rattle.module_check.specs.Accepted.{IsAccepted};
ghost use Rattle.ir_ast.specs.declared.module.Module.{Module as AModule};
ghost use Rattle.layout.specs.Layouts.{IsLayoutFault};
ghost use Rattle.cert_maker.specs.Made.{IfLayout, IsPlainlyRefused, IsRefusedWith};
ghost use Rattle.cert_maker.specs.Trusting.{trusting};
ghost use Rattle.cert_maker.specs.declared.made.MakeFault.TheVariants as fault;
ghost use Rattle.command_line.specs.declared.options.Why.TheVariants.{NotWanted};
ghost use Rattle.check_commands.specs.Checks.{OfMade, OfMake};
ghost use Rattle.library_answers.specs.Checked.{IsMakeOf};
ghost use Rattle.library_answers.specs.Told.{IsAnswered};

use crate::answer::{Answer, answer_of, no_memory, nothing};
use crate::checked::{not_read, text_in};
use crate::code::place_of_layouts;
use crate::place::{Place, place_of_refusal};
use crate::texts::texts_of_make;
use cert_maker::{MakeFault, NotMade, make};
use check_commands::{print_made, print_unmade};
use command_line::Why;
use ir_ast::Module;
use module_check::Accepted;
use reports::{Files, shaped_in};
use std::alloc::{AllocError, Global};

/// The answer where certificates are made: their text.
fn is_made(alloc: Global, accepted: &Accepted, room: &mut [u8]) -> Answer
    requires fits { fits accepted.now.program.of_module accepted.now.certs.sections ≡ true }
    requires shapes { accepted.now.certs.shapes ≡ accepted.now.program.of_module.shapes }
    requires foreign { accepted.now.certs.foreign ≡ accepted.now.program.of_module.trusted }
    requires certified { IsAccepted accepted.now.program.of_module accepted.now.certs.sections }
    ensures { (m : AModule) → accepted.now.program.of_module ≡ trusting m → IsAnswered (OfMade NotWanted m) room.old room.new result }
{
    let mut outputs = nothing(alloc);
    let printed = print_made(alloc, accepted, Why::NotWanted, &mut outputs);
    answer_of(outputs, printed, Place::nowhere(), room)
}

/// Where the boldest certificates that were tried are refused, or the code of the fault of the layouts.
fn place_of_unmade(alloc: Global, unmade: &NotMade, text: &[u8]) -> Result<Place, AllocError> {
    match (unmade.fault, &unmade.refused) {
        (MakeFault::Layout(fault), _) => Ok(place_of_layouts(fault)),
        (MakeFault::NoAnswer, Some(tried)) => {
            place_of_refusal(alloc, &unmade.of_module, text, &tried.refusal)
        }
        _ => Ok(Place::nowhere()),
    }
}

/// The answer where no certificates are made of a module, which has this text.
fn is_unmade(alloc: Global, unmade: &NotMade, text: &[u8], room: &mut [u8]) -> Answer
    requires plain { unmade.now.fault ≡ fault.NoAnswer → IsPlainlyRefused (trusting unmade.now.of_module) }
    requires layout { IfLayout unmade.now.fault (IsLayoutFault (trusting unmade.now.of_module)) }
    requires refused { IfSome unmade.now.refused (IsRefusedWith (trusting unmade.now.of_module)) }
    ensures { IsAnswered (OfMade NotWanted unmade.now.of_module) room.old room.new result }
{
    match place_of_unmade(alloc, unmade, text) {
        Ok(place) => {
            let mut outputs = nothing(alloc);
            let printed = print_unmade(alloc, unmade, Why::NotWanted, &mut outputs);
            answer_of(outputs, printed, place, room)
        }
        Err(_) => no_memory(room),
    }
}

/// Makes certificates of a module, which has this text.
fn make_of(alloc: Global, of_module: Module, text: &[u8], room: &mut [u8]) -> Answer
    ensures { IsAnswered (OfMade NotWanted of_module) room.old room.new result }
{
    match make(alloc, of_module) {
        Ok(accepted) => {
            let answer = is_made(alloc, &accepted, room);
            drop(accepted);
            answer
        }
        Err(unmade) => {
            let answer = is_unmade(alloc, &unmade, text, room);
            drop(unmade);
            answer
        }
    }
}

/// Makes certificates of the module of some files.
fn make_files(alloc: Global, files: &Files<'_>, room: &mut [u8]) -> Answer
    ensures { IsAnswered (OfMake NotWanted files.now.of_module files.now.shapes) room.old room.new result }
{
    match shaped_in(alloc, files) {
        Ok(of_module) => {
            let text = text_in(files);
            make_of(alloc, of_module, text, room)
        }
        Err(fault) => not_read(alloc, fault, room),
    }
}

/// Makes certificates of a module, with shapes if they are not empty: the answer of `dgc make`, whose text they are. `wide` says whether
/// the wide forms may stand in the module.
pub fn make_texts(
    alloc: Global,
    wide: bool,
    of_module: &[u8],
    shapes: &[u8],
    room: &mut [u8],
) -> Answer
    ensures { IsMakeOf wide of_module.now shapes.now room.old room.new result }
{
    let files = texts_of_make(wide, of_module, shapes);
    make_files(alloc, &files, room)
}
