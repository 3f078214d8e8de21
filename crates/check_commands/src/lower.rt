//! The command `lower`.
ghost use Rattle.std.specs.Prelude.{◌≡◌, IfOk, codes};
ghost use Rattle.check_commands.specs.Lowering.{of_lowered, unchecked_text, OfLower, OfLowerGiven, OfLowered, OfMade, OfProgram, OfUnchecked};
ghost use Rattle.copies.specs.Opaque.{opaque_module};
ghost use Rattle.lowering.specs.Lowered.{lowered_text};
ghost use Rattle.reports.specs.Files.{HasProgram};
ghost use Rattle.reports.specs.Report.{IsTold, made_text};
ghost use Rattle.reports.specs.Said.{OfCertified, OnBoth, OnOutput, Says, Tells};

use command_line::LowerOptions;
use copies::opaque;
use layout::Program;
use lowering::{address_giver, lower};
use module_check::check;
use reports::{
    Certified, Files, Outputs, STATUS_YES, address_given, kept_files, memory, program_in,
    read_certified, report_verdict, unread,
};
use std::alloc::{AllocError, Global};
use std::io;
use std::io::Write;

/// The text that LLVM gets of a program.
fn text_of(alloc: Global, program: &Program, recorded: bool) -> Result<Vec<u8>, AllocError>
    ensures { IfOk result (λ text. text.items ≡ lowered_text recorded program.now.layouts (opaque_module program.now.of_module)) }
{
    let made = opaque(alloc, program.module())?;
    let text = lower(alloc, recorded, program.layouts(), &made);
    drop(made);
    text
}

/// Prints the text that LLVM gets.
fn print_lowered<O: Write>(out: &mut O, text: &[u8]) -> io::Result<u8>
    ensures { IfOk result (λ status. IsTold (O.contents out.old) (O.contents out.new) status (made_text text.now)) }
{
    out.write_all(text)?;
    Ok(STATUS_YES)
}

/// Prints the text that LLVM gets of an accepted program.
fn put_program(
    alloc: Global,
    program: &Program,
    recorded: bool,
    outputs: &mut Outputs,
) -> io::Result<u8>
    ensures { IfOk result (Says (OfMade (OnOutput (of_lowered recorded program.now))) outputs.old outputs.new) }
{
    match text_of(alloc, program, recorded) {
        Ok(text) => print_lowered(&mut outputs.out, text.as_slice()),
        Err(_) => memory(&mut outputs.err),
    }
}

/// Lowers an accepted program, unless a function outside gives an address.
fn lower_program(
    alloc: Global,
    program: &Program,
    recorded: bool,
    outputs: &mut Outputs,
) -> io::Result<u8>
    ensures { IfOk result (Says (OfProgram recorded program.now) outputs.old outputs.new) }
{
    let of_module = program.module();
    match address_giver(of_module) {
        Some(symbol) => address_given(&mut outputs.err, of_module, symbol),
        None => put_program(alloc, program, recorded, outputs),
    }
}

/// Checks a module against its certificates, and lowers it if it is accepted.
fn lower_certified(
    alloc: Global,
    certified: Certified,
    recorded: bool,
    outputs: &mut Outputs,
) -> io::Result<u8>
    ensures { IfOk result (Says (OfLowered recorded certified.of_module certified.certs) outputs.old outputs.new) }
{
    match check(alloc, certified.of_module, certified.certs) {
        Ok(accepted) => {
            let status = lower_program(alloc, accepted.program(), recorded, outputs);
            drop(accepted);
            status
        }
        Err(answer) => {
            let status = report_verdict(alloc, &answer, outputs);
            drop(answer);
            status
        }
    }
}

/// Lowers the module if it is accepted with the certificate.
fn lower_checked(
    alloc: Global,
    recorded: bool,
    files: &Files<'_>,
    outputs: &mut Outputs,
) -> io::Result<u8>
    ensures { IfOk result (Says (OfCertified (OfLowered recorded) files.now.of_module files.now.certificate) outputs.old outputs.new) }
{
    match read_certified(alloc, files) {
        Ok(certified) => lower_certified(alloc, certified, recorded, outputs),
        Err(fault) => unread(&mut outputs.err, fault),
    }
}

/// Prints the text that LLVM gets, and on the standard error that nothing was checked.
fn print_unchecked(text: &[u8], outputs: &mut Outputs) -> io::Result<u8>
    ensures { IfOk result (λ status. Tells outputs.old outputs.new status (OnBoth (made_text text.now) (codes "nothing was checked\n"))) }
{
    let status = print_lowered(&mut outputs.out, text)?;
    writeln!(outputs.err, "nothing was checked")?;
    Ok(status)
}

/// Prints the text that LLVM gets of a program that nothing checks.
fn put_unchecked(
    alloc: Global,
    program: &Program,
    recorded: bool,
    outputs: &mut Outputs,
) -> io::Result<u8>
    ensures { IfOk result (Says (OfMade (unchecked_text recorded program.now)) outputs.old outputs.new) }
{
    match text_of(alloc, program, recorded) {
        Ok(text) => print_unchecked(text.as_slice(), outputs),
        Err(_) => memory(&mut outputs.err),
    }
}

/// Lowers a program that nothing checks, unless a function outside gives an address.
fn lower_read(
    alloc: Global,
    program: &Program,
    recorded: bool,
    files: &Files<'_>,
    outputs: &mut Outputs,
) -> io::Result<u8>
    requires { HasProgram files.now.of_module files.now.shapes program.now }
    ensures { IfOk result (Says (OfUnchecked recorded files.now.of_module files.now.shapes) outputs.old outputs.new) }
{
    let of_module = program.module();
    match address_giver(of_module) {
        Some(symbol) => address_given(&mut outputs.err, of_module, symbol),
        None => put_unchecked(alloc, program, recorded, outputs),
    }
}

/// Lowers the module, with the shapes where it writes `ptr`. Nothing checks it.
fn lower_unchecked(
    alloc: Global,
    recorded: bool,
    files: &Files<'_>,
    outputs: &mut Outputs,
) -> io::Result<u8>
    ensures { IfOk result (Says (OfUnchecked recorded files.now.of_module files.now.shapes) outputs.old outputs.new) }
{
    match program_in(alloc, files) {
        Ok(program) => {
            let status = lower_read(alloc, &program, recorded, files, outputs);
            drop(program);
            status
        }
        Err(fault) => unread(&mut outputs.err, fault),
    }
}

/// Prints the text that LLVM gets of the module: where a certificate is given, if the module is accepted with it.
fn lower_given(
    alloc: Global,
    options: LowerOptions,
    files: &Files<'_>,
    outputs: &mut Outputs,
) -> io::Result<u8>
    ensures { IfOk result (Says (OfLowerGiven options.recorded files.now.of_module files.now.certificate files.now.shapes) outputs.old outputs.new) }
{
    match files.certificate {
        Some(_) => lower_checked(alloc, options.recorded, files, outputs),
        None => lower_unchecked(alloc, options.recorded, files, outputs),
    }
}

/// Prints the text that LLVM gets of the module: where a certificate is given, if the module is accepted with it. The first fault counts: of
/// the module, its path and then its text; of the certificate or the shapes likewise; then of the layouts; and then of the check. A text of
/// which something is lost that compiled code needs has L7, and so has one with a function outside that gives an address.
pub fn lower_files(
    alloc: Global,
    options: LowerOptions,
    files: &Files<'_>,
    outputs: &mut Outputs,
) -> io::Result<u8>
    ensures { IfOk result (Says (OfLower options.recorded files.now.of_module files.now.certificate files.now.shapes) outputs.old outputs.new) }
{
    let of_kept = kept_files(files);
    lower_given(alloc, options, &of_kept, outputs)
}
