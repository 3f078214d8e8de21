//! The refusals of all blocks, as `check --all` prints them. The lines are kept until the last one, so that nothing is printed where
//! memory is refused on the way.
ghost use Rattle.std.specs.Prelude.{◌≡◌, length, IfOk, IfSome, OnOk};
ghost use Rattle.std.specs.Io.KnownBytes.{Appends};
ghost use Rattle.module_check.specs.Refusals.{AreOfFunctions};
ghost use Rattle.reports.specs.Said.{Says};
ghost use Rattle.check_commands.specs.Checks as spec;
ghost use Rattle.check_commands.specs.Checks.{OfRefusals, OfRejected};

use certs::Certs;
use ir_ast::Module;
use layout::Program;
use module_check::{Refusal, Refusals, Rejected, UnderCheck};
use reports::{Findings, Outputs, STATUS_NO, line_of_refusal, memory, refused};
use std::alloc::Global;
use std::io;
use std::io::Write;

/// Writes the line of each of these refusals.
fn write_refusals<W: Write>(
    alloc: Global,
    of_module: &Module,
    certs: &Certs,
    refusals: &[Refusal],
    lines: &mut W,
) -> io::Result<()>
    ensures { OnOk result (Appends (W.contents lines.old) (W.contents lines.new) (spec.lines_of of_module.now certs.now.sections refusals.now)) }
{
    for refusal in refusals {
        let line = line_of_refusal(alloc, of_module, certs, refusal)?;
        refused(lines, of_module, refusal, line.as_slice())?;
    }
    Ok(())
}

/// The lines of the refusals up to the limit, and how many there are. A write to them fails only where memory is refused.
fn lines_of(
    alloc: Global,
    program: &Program,
    certs: &Certs,
    refusals: &Refusals,
    limit: u32,
) -> io::Result<Vec<u8>>
    ensures { IfOk result (λ lines. lines.items ≡ (spec.all_refused program.now.of_module certs.now.sections limit refusals.now).text) }
{
    let mut lines = Vec::new(alloc);
    let first = refusals.up_to(limit as usize);
    write_refusals(alloc, program.module(), certs, first, &mut lines)?;
    writeln!(lines, "refusals {}", refusals.beyond(0))?;
    Ok(lines)
}

/// Prints the refusals of a module. Those up to the limit are seen.
fn print_refusals(
    alloc: Global,
    under: &UnderCheck,
    refusals: &Refusals,
    limit: u32,
    outputs: &mut Outputs,
    seen: &mut impl Findings,
) -> io::Result<u8>
    requires { AreOfFunctions under.now.program under.now.certs.sections (length under.now.program.of_module.functions) refusals.now }
    ensures { IfOk result (Says (OfRefusals limit under.now.program under.now.certs.sections) outputs.old outputs.new) }
{
    let program = under.program();
    let certs = under.certs();
    seen.refused(program, certs, refusals.up_to(limit as usize));
    match lines_of(alloc, program, certs, refusals, limit) {
        Ok(lines) => {
            outputs.out.write_all(lines.as_slice())?;
            Ok(STATUS_NO)
        }
        Err(_) => memory(&mut outputs.err),
    }
}

/// Prints why a module is not accepted.
pub(crate) fn print_rejected(
    alloc: Global,
    rejected: Rejected,
    limit: u32,
    outputs: &mut Outputs,
    seen: &mut impl Findings,
) -> io::Result<u8>
    requires { IfSome rejected.refusals (AreOfFunctions rejected.under.program rejected.under.certs.sections (length rejected.under.program.of_module.functions)) }
    ensures { IfOk result (Says (OfRejected limit rejected.under.program rejected.under.certs.sections rejected.refusals) outputs.old outputs.new) }
{
    let Rejected { under, refusals } = rejected;
    match refusals {
        Some(refusals) => {
            let status = print_refusals(alloc, &under, &refusals, limit, outputs, seen);
            drop(refusals);
            drop(under);
            status
        }
        None => {
            drop(under);
            memory(&mut outputs.err)
        }
    }
}
