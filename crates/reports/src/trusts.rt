//! How it is printed that a module is accepted, with the functions outside of it that are trusted.
ghost use Rattle.std.specs.Prelude.{IfOk, OnOk};
ghost use Rattle.std.specs.List.{flat_map};
ghost use Rattle.std.specs.Io.KnownBytes.{Appends};
ghost use Rattle.reports.specs.Report as spec;
ghost use Rattle.reports.specs.Report.{IsTold};
ghost use Rattle.reports.specs.Said.{OfAccepted, Says};

use crate::faults::memory;
use crate::found::write_found_name;
use crate::outputs::Outputs;
use crate::status::STATUS_YES;
use ir_ast::{Module, SymbolId};
use module_check::to_trust;
use std::alloc::Global;
use std::io;
use std::io::Write;

/// The name of a function outside, after a blank.
pub fn write_trusted_name<W: Write>(
    out: &mut W,
    of_module: &Module,
    symbol: SymbolId,
) -> io::Result<()>
    ensures { OnOk result (Appends (W.contents out.old) (W.contents out.new) (spec.trusted_name of_module.now symbol)) }
{
    write!(out, " @")?;
    write_found_name(out, of_module.symbols.get(symbol.number() as usize))
}

fn write_trusted_names<W: Write>(
    out: &mut W,
    of_module: &Module,
    trusts: &[SymbolId],
) -> io::Result<()>
    ensures { OnOk result (Appends (W.contents out.old) (W.contents out.new) (flat_map (spec.trusted_name of_module.now) trusts.now)) }
{
    for symbol in trusts {
        write_trusted_name(out, of_module, *symbol)?;
    }
    Ok(())
}

/// The functions outside that are trusted, if there are some: `trusts @puts @printf`.
fn write_trusts<W: Write>(out: &mut W, of_module: &Module, trusts: &[SymbolId]) -> io::Result<()>
    ensures { OnOk result (Appends (W.contents out.old) (W.contents out.new) (spec.trusts_line of_module.now trusts.now)) }
{
    match trusts {
        [] => Ok(()),
        [_, ..] => {
            write!(out, "trusts")?;
            write_trusted_names(out, of_module, trusts)?;
            writeln!(out, "")
        }
    }
}

/// How many functions a module defines that is accepted, `yes 1`, and a line of the functions outside that are trusted, if there are some.
fn accepted<W: Write>(out: &mut W, of_module: &Module, trusts: &[SymbolId]) -> io::Result<u8>
    ensures { IfOk result (λ status. IsTold (W.contents out.old) (W.contents out.new) status (spec.yes of_module.now trusts.now)) }
{
    writeln!(out, "yes {}", of_module.functions.len())?;
    write_trusts(out, of_module, trusts)?;
    Ok(STATUS_YES)
}

/// Prints that a module is accepted.
pub fn report_accepted(alloc: Global, of_module: &Module, outputs: &mut Outputs) -> io::Result<u8>
    ensures { IfOk result (Says (OfAccepted of_module.now) outputs.old outputs.new) }
{
    match to_trust(alloc, of_module) {
        Ok(trusts) => {
            let status = accepted(&mut outputs.out, of_module, trusts.as_slice());
            drop(trusts);
            status
        }
        Err(_) => memory(&mut outputs.err),
    }
}

fn write_trusts_count<W: Write>(out: &mut W, trusts: usize) -> io::Result<()>
    ensures { OnOk result (Appends (W.contents out.old) (W.contents out.new) (spec.trusts_count trusts)) }
{
    if trusts == 0 {
        return Ok(());
    }
    write!(out, " trusts {trusts}")
}

/// The line of a session whose module is accepted: how many functions it defines, and how many functions outside are trusted, if some are.
pub fn accepted_again<W: Write>(alloc: Global, out: &mut W, of_module: &Module) -> io::Result<u8>
    ensures { IfOk result (λ status. IsTold (W.contents out.old) (W.contents out.new) status (spec.yes_again of_module.now)) }
{
    let trusts = to_trust(alloc, of_module)?;
    let count = trusts.as_slice().len();
    drop(trusts);
    write!(out, "yes {}", of_module.functions.len())?;
    write_trusts_count(out, count)?;
    writeln!(out, "")?;
    Ok(STATUS_YES)
}
