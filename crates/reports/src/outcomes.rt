//! How the outcome of a trace is printed: an answer goes to the standard output, a fault to the standard error.
ghost use Rattle.std.specs.Prelude.{IfOk, OnOk};
ghost use Rattle.std.specs.Io.KnownBytes.{Appends};
ghost use Rattle.std.specs.List.{enumerate_from, flat_map};
ghost use Rattle.reports.specs.Report.{IsTold};
ghost use Rattle.reports.specs.Outcomes as spec;

use crate::faults::memory;
use crate::status::{STATUS_NO, STATUS_UNREADABLE, STATUS_YES};
use machine::Value;
use moves::Actor;
use replay::{Break, Outcome, ReplayFault, Report, ThreadOutcome};
use std::io;
use std::io::Write;

/// A thread that does not begin: `error K13 t 0`.
pub fn no_threads<W: Write>(err: &mut W, fault: ReplayFault) -> io::Result<u8>
    ensures { IfOk result (λ status. IsTold (W.contents err.old) (W.contents err.new) status (spec.of_setup_fault fault)) }
{
    match fault {
        ReplayFault::WrongArguments(thread) => writeln!(err, "error K13 t {thread}")?,
        ReplayFault::ReferenceParameter(thread) => writeln!(err, "error K20 t {thread}")?,
        ReplayFault::Memory => return memory(err),
    }
    Ok(STATUS_UNREADABLE)
}

/// Writes the first step after which a run is broken: `32 t 0 touch-blue 1`.
pub fn write_break<W: Write>(out: &mut W, broken: &Break) -> io::Result<()>
    ensures { OnOk result (Appends (W.contents out.old) (W.contents out.new) (spec.break_text broken.now)) }
{
    let Break { step, actor, cause } = *broken;
    match actor {
        Actor::Thread(thread) => write!(out, "{step} t {thread} ")?,
        Actor::Collector => write!(out, "{step} c ")?,
    }
    write!(out, "{cause}")?;
    writeln!(out, "")
}

/// A value that a thread returned: ` 7`, ` null` or ` ref 1`.
fn write_returned<W: Write>(out: &mut W, value: Value) -> io::Result<()>
    ensures { OnOk result (Appends (W.contents out.old) (W.contents out.new) (spec.returned_text value)) }
{
    match value {
        Value::Number(number) => write!(out, " {number}"),
        Value::Null => write!(out, " null"),
        Value::Cell(_, at) => write!(out, " ref {}", at.cell),
        Value::Unset | Value::Address(_) => Ok(()),
    }
}

/// What a thread returned, if anything: ` returned`, ` returned 7`.
pub fn write_given_back<W: Write>(out: &mut W, value: Option<Value>) -> io::Result<()>
    ensures { OnOk result (Appends (W.contents out.old) (W.contents out.new) (spec.given_back value)) }
{
    write!(out, " returned")?;
    match value {
        Some(value) => write_returned(out, value),
        None => Ok(()),
    }
}

/// Where a thread is.
fn write_standing<W: Write>(out: &mut W, end: &ThreadOutcome) -> io::Result<()>
    ensures { OnOk result (Appends (W.contents out.old) (W.contents out.new) (spec.standing_text end.now)) }
{
    match *end {
        ThreadOutcome::Absent => write!(out, " absent"),
        ThreadOutcome::Returned(value) => write_given_back(out, value),
        ThreadOutcome::Ended => write!(out, " ended"),
        ThreadOutcome::Running(stage) => write!(out, " running {stage}"),
    }
}

/// The line of a thread: `t 0 absent`, `t 0 returned`, `t 0 ended`, `t 0 running 3`.
fn write_end<W: Write>(out: &mut W, thread: usize, end: &ThreadOutcome) -> io::Result<()>
    ensures { OnOk result (Appends (W.contents out.old) (W.contents out.new) (spec.end_text (thread, end.now))) }
{
    write!(out, "t {thread}")?;
    write_standing(out, end)?;
    writeln!(out, "")
}

/// A line for each thread.
fn write_ends<W: Write>(out: &mut W, ends: &[ThreadOutcome]) -> io::Result<()>
    ensures { OnOk result (Appends (W.contents out.old) (W.contents out.new) (flat_map spec.end_text (enumerate_from 0 ends.now))) }
{
    for (thread, end) in ends.iter().enumerate() {
        write_end(out, thread, end)?;
    }
    Ok(())
}

/// The line of what was counted: `claims 1 frees 0 posted 3`.
fn write_counts<W: Write>(out: &mut W, report: &Report) -> io::Result<()>
    ensures { OnOk result (Appends (W.contents out.old) (W.contents out.new) (spec.counts_text report.now)) }
{
    let Report {
        claims,
        frees,
        posted,
        ..
    } = *report;
    writeln!(out, "claims {claims} frees {frees} posted {posted}")
}

/// Where the actors are after a run that no step broke: a line for the steps, one for each thread, and one for what was
/// counted.
fn sound<W: Write>(out: &mut W, report: &Report) -> io::Result<u8>
    ensures { IfOk result (λ status. IsTold (W.contents out.old) (W.contents out.new) status (record { text = spec.report_text report.now; status = 0 })) }
{
    writeln!(out, "sound {}", report.steps)?;
    write_ends(out, report.threads.as_slice())?;
    write_counts(out, report)?;
    Ok(STATUS_YES)
}

/// The outcome of a trace.
pub fn replayed<W: Write>(out: &mut W, outcome: &Outcome) -> io::Result<u8>
    ensures { IfOk result (λ status. IsTold (W.contents out.old) (W.contents out.new) status (spec.of_outcome outcome.now)) }
{
    match outcome {
        Outcome::Broken(at) => {
            write!(out, "broken ")?;
            write_break(out, at)?;
            Ok(STATUS_NO)
        }
        Outcome::Sound(report) => sound(out, report),
    }
}
