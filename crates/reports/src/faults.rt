//! How faults of texts and layouts are printed, each a line that goes to the standard error.
ghost use Rattle.std.specs.Prelude.{◌≡◌, ◌++◌, [], ◌∷◌, IfOk, None, OnOk, Some, codes};
ghost use Rattle.std.specs.Io.KnownBytes.{Appends};
ghost use Rattle.std.specs.Option.{option_copied};
ghost use Rattle.explain.specs.Codes.{name_of};
ghost use Rattle.reports.specs.Report as spec;
ghost use Rattle.reports.specs.Report.{IsTold};

use crate::found::{
    name_of_block_at, name_of_function, name_of_local, name_of_struct, write_found_local,
    write_found_name,
};
use crate::status::{STATUS_MEMORY, STATUS_UNREADABLE, STATUS_USAGE};
use crate::trusts::write_trusted_name;
use certificate::CertFault;
use explain::Code;
use fault_codes::{
    cert_code, cert_place, layout_code, read_code, read_place, trace_code, trace_place,
};
use ir_ast::{Module, SymbolId};
use ir_text::ReadFault;
use ir_tokens::Position;
use layout::LayoutFault;
use std::io;
use std::io::Write;
use trace_text::TraceFault;

/// Begins the line of a fault, with its place if it has one: `error L4 23:13`, `error C5`.
fn begin_fault<W: Write>(err: &mut W, code: Code, place: Option<Position>) -> io::Result<()>
    ensures { OnOk result (Appends (W.contents err.old) (W.contents err.new) (codes "error " ++ name_of code ++ spec.place_told place)) }
{
    write!(err, "error {}", code.name())?;
    match place {
        Some(Position { line, column }) => write!(err, " {line}:{column}"),
        None => Ok(()),
    }
}

/// Ends the line of a fault.
fn end_fault<W: Write>(err: &mut W) -> io::Result<u8>
    ensures { IfOk result (λ status. (status ≡ 2) × Appends (W.contents err.old) (W.contents err.new) (10 ∷ [])) }
{
    writeln!(err, "")?;
    Ok(STATUS_UNREADABLE)
}

/// Out of memory: `error memory`.
pub fn memory<W: Write>(err: &mut W) -> io::Result<u8>
    ensures { IfOk result (λ status. IsTold (W.contents err.old) (W.contents err.new) status (spec.no_memory)) }
{
    writeln!(err, "error memory")?;
    Ok(STATUS_MEMORY)
}

/// A file that cannot be read: `error file PATH`.
pub fn no_file<W: Write>(err: &mut W, path: &str) -> io::Result<u8>
    ensures { IfOk result (λ status. IsTold (W.contents err.old) (W.contents err.new) status (spec.no_file path.now)) }
{
    writeln!(err, "error file {path}")?;
    Ok(STATUS_USAGE)
}

/// The word at which a form begins that is left out: the last one of `error L7 10:8 sdiv`.
fn write_left_out<W: Write>(err: &mut W, fault: &ReadFault) -> io::Result<()>
    ensures { OnOk result (Appends (W.contents err.old) (W.contents err.new) (spec.left_out_word fault.now)) }
{
    match fault {
        ReadFault::LeftOut { word, .. } => {
            write!(err, " ")?;
            err.write_all(word.as_slice())
        }
        _ => Ok(()),
    }
}

/// A text that is no module.
pub fn no_module<W: Write>(err: &mut W, fault: &ReadFault) -> io::Result<u8>
    ensures { IfOk result (λ status. IsTold (W.contents err.old) (W.contents err.new) status (spec.of_read_fault fault.now)) }
{
    match read_code(fault) {
        Some(code) => {
            begin_fault(err, code, read_place(fault))?;
            write_left_out(err, fault)?;
            end_fault(err)
        }
        None => memory(err),
    }
}

/// The name of a function and the key of something in it: ` @f %b`.
fn write_of_function<W: Write>(
    err: &mut W,
    function: Option<&[u8]>,
    key: Option<&[u8]>,
) -> io::Result<()>
    ensures { OnOk result (Appends (W.contents err.old) (W.contents err.new) (codes " @" ++ spec.found_name (option_copied function.entry) ++ codes " %" ++ spec.found_key (option_copied key.entry))) }
{
    write!(err, " @")?;
    write_found_name(err, function)?;
    write!(err, " %")?;
    write_found_local(err, key)
}

/// What certificates lack: the last words of `error C5 @f %b` and of `error C6 Node 1`.
fn write_lacking<W: Write>(err: &mut W, of_module: &Module, fault: &CertFault) -> io::Result<()>
    ensures { OnOk result (Appends (W.contents err.old) (W.contents err.new) (spec.lacking of_module.now fault.now)) }
{
    match *fault {
        CertFault::Missing(function) => {
            write!(err, " @")?;
            write_found_name(err, name_of_function(of_module, function))
        }
        CertFault::MissingBlock(function, block) => write_of_function(
            err,
            name_of_function(of_module, function),
            name_of_block_at(of_module, function, block),
        ),
        CertFault::MissingWord(layout, word) => {
            write!(err, " ")?;
            write_found_name(err, name_of_struct(of_module, layout))?;
            write!(err, " {word}")
        }
        CertFault::MissingGlobal(symbol) => {
            write!(err, " @")?;
            write_found_name(err, of_module.symbols.get(symbol))
        }
        CertFault::MissingRoot(function, slot) => write_of_function(
            err,
            name_of_function(of_module, function),
            name_of_local(of_module, function, slot),
        ),
        _ => Ok(()),
    }
}

/// A text that is no certificate of the module.
pub fn no_certificate<W: Write>(err: &mut W, of_module: &Module, fault: CertFault) -> io::Result<u8>
    ensures { IfOk result (λ status. IsTold (W.contents err.old) (W.contents err.new) status (spec.of_cert_fault of_module.now fault)) }
{
    match cert_code(&fault) {
        Some(code) => {
            begin_fault(err, code, cert_place(&fault))?;
            write_lacking(err, of_module, &fault)?;
            end_fault(err)
        }
        None => memory(err),
    }
}

/// The struct that has no layout.
fn write_without_layout<W: Write>(
    err: &mut W,
    of_module: &Module,
    fault: &LayoutFault,
) -> io::Result<()>
    ensures { OnOk result (Appends (W.contents err.old) (W.contents err.new) (spec.without_layout of_module.now fault.now)) }
{
    match *fault {
        LayoutFault::HoldsItself(number) | LayoutFault::TooManyWords(number) => {
            write!(err, " ")?;
            write_found_name(err, name_of_struct(of_module, number))
        }
        _ => Ok(()),
    }
}

/// A module that has no layouts.
pub fn no_layouts<W: Write>(err: &mut W, of_module: &Module, fault: LayoutFault) -> io::Result<u8>
    ensures { IfOk result (λ status. IsTold (W.contents err.old) (W.contents err.new) status (spec.of_layout_fault of_module.now fault)) }
{
    match layout_code(&fault) {
        Some(code) => {
            begin_fault(err, code, None)?;
            write_without_layout(err, of_module, &fault)?;
            end_fault(err)
        }
        None => memory(err),
    }
}

/// A fault of a function outside, with its name.
fn of_outside<W: Write>(
    err: &mut W,
    code: Code,
    of_module: &Module,
    symbol: SymbolId,
) -> io::Result<u8>
    ensures { IfOk result (λ status. IsTold (W.contents err.old) (W.contents err.new) status (spec.of_fault (Some code) None (spec.trusted_name of_module.now symbol))) }
{
    begin_fault(err, code, None)?;
    write_trusted_name(err, of_module, symbol)?;
    end_fault(err)
}

/// A text that is to be lowered has a function outside that gives an address: `error L7 @malloc`.
pub fn address_given<W: Write>(err: &mut W, of_module: &Module, symbol: SymbolId) -> io::Result<u8>
    ensures { IfOk result (λ status. IsTold (W.contents err.old) (W.contents err.new) status (spec.of_address_given of_module.now symbol)) }
{
    of_outside(err, Code::L7, of_module, symbol)
}

/// A text that is no text of edits: `error C1 1:6`.
pub fn no_edits<W: Write>(err: &mut W, fault: CertFault) -> io::Result<u8>
    ensures { IfOk result (λ status. IsTold (W.contents err.old) (W.contents err.new) status (spec.of_edits_fault fault)) }
{
    match cert_code(&fault) {
        Some(code) => {
            begin_fault(err, code, cert_place(&fault))?;
            end_fault(err)
        }
        None => memory(err),
    }
}

/// A text that is no trace of the program.
pub fn no_trace<W: Write>(err: &mut W, fault: TraceFault) -> io::Result<u8>
    ensures { IfOk result (λ status. IsTold (W.contents err.old) (W.contents err.new) status (spec.of_trace_fault fault)) }
{
    match trace_code(&fault) {
        Some(code) => {
            begin_fault(err, code, trace_place(&fault))?;
            end_fault(err)
        }
        None => memory(err),
    }
}
