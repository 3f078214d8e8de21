//! How the check's verdicts are printed, each a line that goes to the standard output, and why a module is not accepted.
ghost use Rattle.std.specs.Prelude.{◌≡◌, ◌∷◌, IfOk, OnOk};
ghost use Rattle.std.specs.Io.KnownBytes.{Appends};
ghost use Rattle.reports.specs.Report as spec;
ghost use Rattle.reports.specs.Report.{IsTold};
ghost use Rattle.block_rules.specs.RuleNames.{rule_name};
ghost use Rattle.reports.specs.Said.{OfVerdict, Says};
ghost use Rattle.module_check.specs.Accepted.{IsFirstRefusal, IsVerdictOf, shaped};

use crate::faults::{memory, no_layouts};
use crate::found::{
    name_of_block, name_of_block_at, name_of_function, write_found_local, write_found_name,
};
use crate::outputs::Outputs;
use crate::status::STATUS_NO;
use block_rules::{Detail, Refusal, Rule};
use certificate::print_line;
use certs::Certs;
use ir_ast::{FuncId, Module};
use module_check::{NotAccepted, Reason};
use std::alloc::{AllocError, Global};
use std::io;
use std::io::Write;

/// The target of an edge and the line of the claim that is not implied on it, if there are any, as they come after
/// a rule: ` %loop %p ref Node nonnull`.
fn write_detail<W: Write>(
    out: &mut W,
    of_module: &Module,
    func: FuncId,
    detail: Option<Detail>,
    line: &[u8],
) -> io::Result<()>
    ensures { OnOk result (Appends (W.contents out.old) (W.contents out.new) (spec.detail_text of_module.now func line.now detail)) }
{
    let Some(detail) = detail else {
        return Ok(());
    };
    write!(out, " %")?;
    write_found_local(out, name_of_block(of_module, func, detail.target))?;
    write!(out, " ")?;
    out.write_all(line)
}

/// The line of a certificate that a refusal names, as the certificates' text writes it; none is empty.
pub fn line_of_refusal(
    alloc: Global,
    of_module: &Module,
    certs: &Certs,
    refusal: &Refusal,
) -> Result<Vec<u8>, AllocError>
    ensures { IfOk result (λ line. line.items ≡ spec.line_of certs.now.sections of_module.now refusal.now.func refusal.now.detail) }
{
    match refusal.detail {
        Some(Detail { target, claim }) => {
            print_line(alloc, certs, of_module, refusal.func, target, claim)
        }
        None => Ok(Vec::new(alloc)),
    }
}

/// Writes a function and a block of it, by their places: `@f %b`.
pub fn write_block<W: Write>(
    out: &mut W,
    of_module: &Module,
    func: usize,
    block: usize,
) -> io::Result<()>
    ensures { OnOk result (Appends (W.contents out.old) (W.contents out.new) (spec.block_text of_module.now func block)) }
{
    write!(out, "@")?;
    write_found_name(out, name_of_function(of_module, func))?;
    write!(out, " %")?;
    write_found_local(out, name_of_block_at(of_module, func, block))
}

/// Writes where an instruction is: `@f %b 3`.
fn write_place<W: Write>(out: &mut W, of_module: &Module, refusal: &Refusal) -> io::Result<()>
    ensures { OnOk result (Appends (W.contents out.old) (W.contents out.new) (spec.place_text of_module.now refusal.now)) }
{
    let func = refusal.func.number() as usize;
    write_block(out, of_module, func, refusal.block.number() as usize)?;
    write!(out, " {}", refusal.instr)
}

/// Writes the code of a rule after a blank.
fn write_rule<W: Write>(out: &mut W, rule: Rule) -> io::Result<()>
    ensures { OnOk result (Appends (W.contents out.old) (W.contents out.new) (32 ∷ rule_name rule)) }
{
    write!(out, " {rule}")
}

/// The first refused instruction, by its function, its block and its place there, and the rule that it breaks:
/// `no @f %b 3 K6`. After K15 come the target and the line of its claim that is not implied.
pub fn refused<W: Write>(
    out: &mut W,
    of_module: &Module,
    refusal: &Refusal,
    line: &[u8],
) -> io::Result<u8>
    ensures { IfOk result (λ status. IsTold (W.contents out.old) (W.contents out.new) status (spec.no of_module.now line.now refusal.now)) }
{
    write!(out, "no ")?;
    write_place(out, of_module, refusal)?;
    write_rule(out, refusal.rule)?;
    write_detail(out, of_module, refusal.func, refusal.detail, line)?;
    writeln!(out, "")?;
    Ok(STATUS_NO)
}

/// Prints the first refusal of a module.
fn report_refusal(
    alloc: Global,
    answer: &NotAccepted,
    refusal: &Refusal,
    outputs: &mut Outputs,
) -> io::Result<u8>
    requires { IsFirstRefusal (shaped answer.now.of_module answer.now.certs) answer.now.certs.sections refusal.now }
    ensures { IfOk result (Says (OfVerdict answer.now.of_module answer.now.certs) outputs.old outputs.new) }
{
    match line_of_refusal(alloc, &answer.of_module, &answer.certs, refusal) {
        Ok(line) => refused(
            &mut outputs.out,
            &answer.of_module,
            refusal,
            line.as_slice(),
        ),
        Err(_) => memory(&mut outputs.err),
    }
}

/// Why no instruction of a module is checked: the fault of its layouts, or that memory was refused.
pub fn not_laid_out<W: Write>(err: &mut W, answer: &NotAccepted) -> io::Result<u8>
    ensures { IfOk result (λ status. IsTold (W.contents err.old) (W.contents err.new) status (spec.of_layout_reason answer.now.of_module answer.now.verdict)) }
{
    match answer.verdict {
        Reason::Layout(fault) => no_layouts(err, &answer.of_module, fault),
        _ => memory(err),
    }
}

/// Prints why a module is not accepted.
pub fn report_verdict(alloc: Global, answer: &NotAccepted, outputs: &mut Outputs) -> io::Result<u8>
    requires { IsVerdictOf (shaped answer.now.of_module answer.now.certs) answer.now.certs.sections answer.now.verdict }
    ensures { IfOk result (Says (OfVerdict answer.now.of_module answer.now.certs) outputs.old outputs.new) }
{
    match answer.verdict {
        Reason::Refused(refusal) => report_refusal(alloc, answer, &refusal, outputs),
        Reason::Layout(fault) => no_layouts(&mut outputs.err, &answer.of_module, fault),
        Reason::Memory => memory(&mut outputs.err),
    }
}
