//! The command `make`.
ghost use Rattle.std.specs.Prelude.{◌≡◌, IfOk, IfSome, true};
ghost use Rattle.certs.specs.Fits.{fits};
ghost use Rattle.module_check.specs.Accepted.{IsAccepted};
ghost use Rattle.ir_ast.specs.declared.module.Module.{Module as AModule};
ghost use Rattle.layout.specs.Layouts.{IsLayoutFault};
ghost use Rattle.cert_maker.specs.Made.{IfLayout, IsPlainlyRefused, IsRefusedWith};
ghost use Rattle.cert_maker.specs.Trusting.{trusting};
ghost use Rattle.cert_maker.specs.declared.made.MakeFault.TheVariants as fault;
ghost use Rattle.check_commands.specs.Checks.{OfMade, OfMake};
ghost use Rattle.reports.specs.Said.{Says};
ghost use Rattle.command_line.specs.declared.options.Why.TheVariants.{Wanted};
ghost use Rattle.reports.specs.Report.{IsTold, made_text, no_answer};

use cert_maker::{MakeFault, NotMade, Refused, make_seen};
use certificate::print_cert;
use command_line::{MakeOptions, Why};
use ir_ast::Module;
use module_check::Accepted;
use reports::{
    Files, Findings, Outputs, STATUS_NO, STATUS_YES, line_of_refusal, memory, no_layouts, refused,
    shaped_in, show_accepted, unread,
};
use std::alloc::Global;
use std::io;
use std::io::Write;

/// Prints the certificates with which a module is accepted.
pub fn print_made(
    alloc: Global,
    accepted: &Accepted,
    why: Why,
    outputs: &mut Outputs,
) -> io::Result<u8>
    requires fits { fits accepted.now.program.of_module accepted.now.certs.sections ≡ true }
    requires shapes { accepted.now.certs.shapes ≡ accepted.now.program.of_module.shapes }
    requires foreign { accepted.now.certs.foreign ≡ accepted.now.program.of_module.trusted }
    requires certified { IsAccepted accepted.now.program.of_module accepted.now.certs.sections }
    ensures { (m : AModule) → accepted.now.program.of_module ≡ trusting m → IfOk result (Says (OfMade why m) outputs.old outputs.new) }
{
    match print_cert(alloc, accepted.certs(), accepted.program().module()) {
        Ok(text) => print_text(&mut outputs.out, text.as_slice()),
        Err(_) => memory(&mut outputs.err),
    }
}

/// Prints the text of certificates.
fn print_text<O: Write>(out: &mut O, text: &[u8]) -> io::Result<u8>
    ensures { IfOk result (λ status. IsTold (O.contents out.old) (O.contents out.new) status (made_text text.now)) }
{
    out.write_all(text)?;
    Ok(STATUS_YES)
}

/// No certificates are made: `no answer`.
fn print_no_answer<O: Write>(out: &mut O) -> io::Result<u8>
    ensures { IfOk result (λ status. IsTold (O.contents out.old) (O.contents out.new) status no_answer) }
{
    writeln!(out, "no answer")?;
    Ok(STATUS_NO)
}

/// Prints that no certificates are made, and the first refusal with some.
fn print_refused(
    alloc: Global,
    of_module: &Module,
    tried: &Refused,
    outputs: &mut Outputs,
) -> io::Result<u8>
    requires plain { IsPlainlyRefused (trusting of_module.now) }
    requires refused { IsRefusedWith (trusting of_module.now) tried.now }
    ensures { IfOk result (Says (OfMade Wanted of_module.now) outputs.old outputs.new) }
{
    match line_of_refusal(alloc, of_module, &tried.certs, &tried.refusal) {
        Ok(line) => {
            let status = print_no_answer(&mut outputs.out)?;
            refused(&mut outputs.err, of_module, &tried.refusal, line.as_slice())?;
            Ok(status)
        }
        Err(_) => memory(&mut outputs.err),
    }
}

/// Prints that no certificates are made; and if that is wanted, the first refusal with some.
fn print_tried(
    alloc: Global,
    of_module: &Module,
    tried: &Refused,
    why: Why,
    outputs: &mut Outputs,
) -> io::Result<u8>
    requires plain { IsPlainlyRefused (trusting of_module.now) }
    requires refused { IsRefusedWith (trusting of_module.now) tried.now }
    ensures { IfOk result (Says (OfMade why of_module.now) outputs.old outputs.new) }
{
    match why {
        Why::Wanted => print_refused(alloc, of_module, tried, outputs),
        Why::NotWanted => print_no_answer(&mut outputs.out),
    }
}

/// Prints why no certificates are made.
pub fn print_unmade(
    alloc: Global,
    unmade: &NotMade,
    why: Why,
    outputs: &mut Outputs,
) -> io::Result<u8>
    requires plain { unmade.now.fault ≡ fault.NoAnswer → IsPlainlyRefused (trusting unmade.now.of_module) }
    requires layout { IfLayout unmade.now.fault (IsLayoutFault (trusting unmade.now.of_module)) }
    requires refused { IfSome unmade.now.refused (IsRefusedWith (trusting unmade.now.of_module)) }
    ensures { IfOk result (Says (OfMade why unmade.now.of_module) outputs.old outputs.new) }
{
    match (unmade.fault, &unmade.refused) {
        (MakeFault::Layout(fault), _) => no_layouts(&mut outputs.err, &unmade.of_module, fault),
        (MakeFault::Memory, _) => memory(&mut outputs.err),
        (MakeFault::NoAnswer, Some(tried)) => {
            print_tried(alloc, &unmade.of_module, tried, why, outputs)
        }
        (MakeFault::NoAnswer, _) => print_no_answer(&mut outputs.out),
    }
}

/// Shows the fault of the layouts, if it is one.
fn show_fault(seen: &mut impl Findings, fault: MakeFault) {
    if let MakeFault::Layout(fault) = fault {
        seen.no_layouts(fault);
    }
}

/// Makes certificates of a module.
fn make_of(
    alloc: Global,
    of_module: Module,
    why: Why,
    outputs: &mut Outputs,
    seen: &mut impl Findings,
) -> io::Result<u8>
    ensures { IfOk result (Says (OfMade why of_module) outputs.old outputs.new) }
{
    match make_seen(alloc, of_module, seen) {
        Ok(accepted) => {
            show_accepted(seen, &accepted);
            let status = print_made(alloc, &accepted, why, outputs);
            drop(accepted);
            status
        }
        Err(unmade) => {
            show_fault(seen, unmade.fault);
            let status = print_unmade(alloc, &unmade, why, outputs);
            drop(unmade);
            status
        }
    }
}

/// Makes certificates of the module, with the shapes where it writes `ptr`. The first fault counts: of the module, its path and then its
/// text, then of the shapes, their path and then their text, then of the layouts. It is seen, and so is what is refused.
pub fn make_file(
    alloc: Global,
    options: MakeOptions,
    files: &Files<'_>,
    outputs: &mut Outputs,
    seen: &mut impl Findings,
) -> io::Result<u8>
    ensures { IfOk result (Says (OfMake options.why files.now.of_module files.now.shapes) outputs.old outputs.new) }
{
    match shaped_in(alloc, files) {
        Ok(of_module) => make_of(alloc, of_module, options.why, outputs, seen),
        Err(fault) => {
            seen.not_read(&fault);
            unread(&mut outputs.err, fault)
        }
    }
}
