//! What is saved of a replay: the record of its run, or its steps as JSON.
ghost use Rattle.std.specs.Prelude.{◌≡◌, ◌&&◌, false, IfOk, OnOk};
ghost use Rattle.runs.specs.ModuleRuns.{heap_of as events_of};
ghost use Rattle.replay.specs.Lists.{actors_of, run_at};
ghost use Rattle.step_records.specs.Recorded.{IsRecordOf};
ghost use Rattle.trace_text.specs.Traces.{IsTraceOf};
ghost use Rattle.commands.specs.Replaying.{IsRecorded, IsRecordedIf, steps_to};

use crate::steps_told::save_steps;
use command_line::ReplayOptions;
use replay::Outcome;
use reports::Traced;
use std::alloc::Global;
use std::io;
use step_records::{RecordFault, record_run};

/// How many steps of a trace its outcome is about.
fn steps_to(outcome: &Outcome) -> u64
    ensures { result ≡ steps_to outcome.now }
{
    match outcome {
        Outcome::Broken(at) => at.step,
        Outcome::Sound(report) => report.steps,
    }
}

/// The record of the run with this outcome. A replay took its setup, which is then refused for want of memory alone.
fn record_of(alloc: Global, traced: &Traced, outcome: &Outcome) -> io::Result<Vec<u8>>
    requires { IsTraceOf traced.now.program traced.now.trace }
    ensures { IfOk result (λ bytes. IsRecordOf (events_of (run_at traced.now.program traced.now.trace.setup (actors_of traced.now.trace.steps) (steps_to outcome.now))) bytes.items) }
{
    match record_run(alloc, &traced.program, &traced.trace, steps_to(outcome)) {
        Ok(record) => Ok(record),
        Err(RecordFault::Setup(_refused)) => Err(io::Error::from(io::ErrorKind::OutOfMemory)),
        Err(RecordFault::TooLarge) => Err(io::Error::from(io::ErrorKind::FileTooLarge)),
    }
}

/// Appends the record of the run with this outcome.
fn save_record(
    alloc: Global,
    traced: &Traced,
    outcome: &Outcome,
    saved: &mut Vec<u8>,
) -> io::Result<()>
    requires { IsTraceOf traced.now.program traced.now.trace }
    ensures { OnOk result (IsRecorded traced.now.program traced.now.trace outcome.now saved.old.items saved.new.items) }
{
    let record = record_of(alloc, traced, outcome)?;
    saved.extend_from_slice(record.as_slice())?;
    Ok(())
}

/// Appends what is saved of the run with this outcome, if a file is to be written: its record, or the steps that are asked for as JSON.
pub fn save_run(
    alloc: Global,
    options: ReplayOptions,
    saves: bool,
    traced: &Traced,
    outcome: &Outcome,
    saved: &mut Vec<u8>,
) -> io::Result<()>
    requires { IsTraceOf traced.now.program traced.now.trace }
    ensures recorded { OnOk result (IsRecordedIf (saves && options.recorded) traced.now.program traced.now.trace outcome.now saved.old.items saved.new.items) }
    ensures kept { saves ≡ false → saved.new.items ≡ saved.old.items }
{
    if !saves {
        return Ok(());
    }
    if options.recorded {
        return save_record(alloc, traced, outcome, saved);
    }
    save_steps(alloc, options.steps, traced, outcome, saved)?;
    Ok(())
}
