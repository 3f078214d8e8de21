//! The command `watch`: the threads of a module that need not be checked, on real threads.
ghost use Rattle.std.specs.Prelude.{◌≡◌, IfOk, OnOk};
ghost use Rattle.std.specs.Io.KnownBytes.{Appends};
ghost use Rattle.commands.specs.Watching as spec;
ghost use Rattle.commands.specs.Watching.{OfWatch};
ghost use Rattle.explain.specs.Codes.{name_of};
ghost use Rattle.reports.specs.Report.{IsTold};
ghost use Rattle.reports.specs.Said.{Says};
ghost use Rattle.reports.specs.TraceRuns.{OfRun};
ghost use Rattle.trace_text.specs.Traces.{IsTraceOf};

use command_line::RunOptions;
use explain::Code;
use gate::OpenGate;
use ir_ast::Module;
use machine::FramePlace;
use reports::{
    Files, Outputs, STATUS_NO, Traced, no_threads, ran, read_traced, unread, write_block,
};
use std::alloc::Global;
use std::io;
use std::io::Write;
use std::thread::Threads;
use watched_threads::{Breach, BrokenThread, Limits, Refusal, WatchReport, watch};

/// The code of the rule of records that a refused call would break.
fn code_of(refusal: Refusal) -> Code
    ensures { name_of result ≡ spec.code_of refusal }
{
    match refusal {
        Refusal::NotHeld => Code::H7,
        Refusal::NoWord | Refusal::NoReference => Code::H8,
        Refusal::TooLarge | Refusal::ValueNotHeld | Refusal::OtherLayout => Code::H9,
        Refusal::NotFresh => Code::H10,
        Refusal::RootNotHeld(_) => Code::H11,
    }
}

/// Why a thread may not execute its instruction: a code, or `wrong`.
fn write_why<W: Write>(out: &mut W, why: Breach) -> io::Result<()>
    ensures { OnOk result (Appends (W.contents out.old) (W.contents out.new) (spec.why_text why)) }
{
    match why {
        Breach::Wrong => write!(out, "wrong"),
        Breach::Refused(refusal) => write!(out, "{}", code_of(refusal).name()),
    }
}

/// How many phis a block has; a block that is not there has none.
fn phi_count(of_module: &Module, func: usize, block: usize) -> usize
    ensures { result ≡ spec.phi_count of_module.now func block }
{
    match of_module.functions.get(func) {
        Some(function) => match function.blocks.get(block) {
            Some(block) => block.phis.len(),
            None => 0,
        },
        None => 0,
    }
}

/// The place of an instruction of a block's body among all of the block's, of which the phis come first.
fn place_in_block(of_module: &Module, at: FramePlace) -> u128
    ensures { result ≡ spec.place_in_block of_module.now at }
{
    let phis = phi_count(of_module, at.function.number() as usize, at.block);
    phis as u128 + at.place as u128
}

/// Writes the place of an instruction in its block, after a space.
fn write_number<W: Write>(out: &mut W, of_module: &Module, at: FramePlace) -> io::Result<()>
    ensures { OnOk result (Appends (W.contents out.old) (W.contents out.new) (spec.number_text of_module.now at)) }
{
    write!(out, " {}", place_in_block(of_module, at))
}

/// Writes where a thread broke the discipline, and why: `@f %b 3 H10`, after a space.
fn write_breach<W: Write>(
    out: &mut W,
    of_module: &Module,
    at: FramePlace,
    why: Breach,
) -> io::Result<()>
    ensures { OnOk result (Appends (W.contents out.old) (W.contents out.new) (spec.breach_text of_module.now at why)) }
{
    write!(out, " ")?;
    write_block(out, of_module, at.function.number() as usize, at.block)?;
    write_number(out, of_module, at)?;
    write!(out, " ")?;
    write_why(out, why)?;
    writeln!(out, "")
}

/// Writes the first thread that broke the discipline, where, and why: `broken t 1 @f %b 3 H10`.
fn write_broken<W: Write>(out: &mut W, of_module: &Module, thread: BrokenThread) -> io::Result<()>
    ensures { OnOk result (Appends (W.contents out.old) (W.contents out.new) (spec.of_broken of_module.now thread).text) }
{
    write!(out, "broken t {}", thread.thread)?;
    write_breach(out, of_module, thread.at, thread.why)
}

/// The first thread that broke the discipline.
fn broken<W: Write>(out: &mut W, of_module: &Module, thread: BrokenThread) -> io::Result<u8>
    ensures { IfOk result (λ status. IsTold (W.contents out.old) (W.contents out.new) status (spec.of_broken of_module.now thread)) }
{
    write_broken(out, of_module, thread)?;
    Ok(STATUS_NO)
}

/// A watched run: what is told of any run, or the first thread that broke the discipline.
fn report_watched<W: Write>(out: &mut W, of_module: &Module, report: &WatchReport) -> io::Result<u8>
    ensures { IfOk result (λ status. IsTold (W.contents out.old) (W.contents out.new) status (spec.of_watch of_module.now report.now)) }
{
    match report {
        WatchReport::Kept(report) => ran(out, report),
        WatchReport::Broken(thread) => broken(out, of_module, *thread),
    }
}

/// Watches the threads with which a trace of a program begins.
fn watch_traced(
    rt: &(impl Threads + Sync),
    alloc: Global,
    traced: &Traced,
    limits: Limits,
    outputs: &mut Outputs,
) -> io::Result<u8>
    requires { IsTraceOf traced.now.program traced.now.trace }
    ensures { IfOk result (Says (OfWatch limits traced.now.program traced.now.trace) outputs.old outputs.new) }
{
    let program = &traced.program;
    match watch(rt, alloc, program, &traced.trace.setup, limits, &OpenGate) {
        Ok(report) => {
            let status = report_watched(&mut outputs.out, program.module(), &report);
            drop(report);
            status
        }
        Err(fault) => no_threads(&mut outputs.err, fault),
    }
}

/// Runs the threads with which the trace begins, of a module that need not be checked, and has the shapes where it writes `ptr`. After the
/// faults of these files counts the first thread that does not begin.
pub fn watch_files(
    rt: &(impl Threads + Sync),
    alloc: Global,
    options: RunOptions,
    files: &Files<'_>,
    outputs: &mut Outputs,
) -> io::Result<u8>
    ensures { IfOk result (Says (OfRun (OfWatch (record { turns = options.turns; steps = options.steps })) files.now.of_module files.now.trace files.now.shapes) outputs.old outputs.new) }
{
    let limits = Limits {
        turns: options.turns,
        steps: options.steps,
    };
    match read_traced(alloc, files) {
        Ok(traced) => {
            let status = watch_traced(rt, alloc, &traced, limits, outputs);
            drop(traced);
            status
        }
        Err(fault) => unread(&mut outputs.err, fault),
    }
}
