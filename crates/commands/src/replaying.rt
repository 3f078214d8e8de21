//! The command `replay`. The files are read once, and one run gives the answer. A run that is asked for its steps is made again for them.
ghost use Rattle.std.specs.Prelude.{◌≡◌, ◌++◌, ◌&&◌, [], Some, false, Vec, ℕ, IfOk, OnOk};
ghost use Rattle.std.specs.Global.{Global as Heap};
ghost use Rattle.command_line.specs.Asked.{are_told};
ghost use Rattle.reports.specs.TraceRuns.{OfRun};
ghost use Rattle.reports.specs.Report.{IsTold};
ghost use Rattle.reports.specs.Outcomes.{of_outcome};
ghost use Rattle.reports.specs.Said.{SaysAndTells};
ghost use Rattle.trace_text.specs.Traces.{IsTraceOf};
ghost use Rattle.commands.specs.Replaying.{IsRecordedIf, OfReplay};

use crate::saving::save_run;
use crate::steps_told::words_of_steps;
use command_line::ReplayOptions;
use replay::{Outcome, replay};
use reports::{Files, Results, Traced, no_threads, read_traced, replayed, unread};
use std::alloc::Global;
use std::io;
use std::io::Write;

/// Makes the steps that are asked for, which lead to this outcome: in words, and as what is appended to `saved` where a file is to be written.
fn make_steps(
    alloc: Global,
    options: ReplayOptions,
    saves: bool,
    traced: &Traced,
    outcome: &Outcome,
    saved: &mut Vec<u8>,
) -> io::Result<Vec<u8>>
    requires { IsTraceOf traced.now.program traced.now.trace }
    ensures told { are_told options.steps ≡ false → IfOk result (λ words. words.items ≡ []) }
    ensures recorded { OnOk result (IsRecordedIf (saves && options.recorded) traced.now.program traced.now.trace outcome.now saved.old.items saved.new.items) }
    ensures kept { saves ≡ false → saved.new.items ≡ saved.old.items }
{
    save_run(alloc, options, saves, traced, outcome, saved)?;
    if options.steps.is_wanted() {
        let words = words_of_steps(alloc, options.steps, traced, outcome)?;
        return Ok(words);
    }
    Ok(Vec::new(alloc))
}

/// Writes an outcome, and then these words.
fn write_outcome(out: &mut Vec<u8>, outcome: &Outcome, words: &[u8]) -> io::Result<u8>
    ensures { IfOk result (λ status. (said : Vec ℕ Heap) × IsTold (Some out.old.items) (Some said.items) status (of_outcome outcome.now) × (out.new.items ≡ said.items ++ words.now)) }
{
    let status = replayed(out, outcome)?;
    out.write_all(words)?;
    Ok(status)
}

/// Makes the steps of a trace.
fn replay_traced(
    alloc: Global,
    options: ReplayOptions,
    saves: bool,
    traced: &Traced,
    results: &mut Results,
) -> io::Result<u8>
    requires { IsTraceOf traced.now.program traced.now.trace }
    ensures said { IfOk result (SaysAndTells (are_told options.steps) false (OfReplay (saves && options.recorded) traced.now.program traced.now.trace results.old.saved.items results.new.saved.items) results.old.outputs results.new.outputs) }
    ensures kept { saves ≡ false → results.new.saved.items ≡ results.old.saved.items }
{
    match replay(alloc, &traced.program, &traced.trace) {
        Ok(outcome) => {
            let words = make_steps(alloc, options, saves, traced, &outcome, &mut results.saved)?;
            write_outcome(&mut results.outputs.out, &outcome, words.as_slice())
        }
        Err(fault) => no_threads(&mut results.outputs.err, fault),
    }
}

/// Replays the trace in the module, which has the shapes where it writes `ptr`. After the faults of the files, the first thread counts
/// that does not begin. The steps that are asked for are made before the answer is written: in words they follow it, and as JSON or as a
/// record they are appended to what is saved. Where they find no memory, or the record is too large, nothing is answered.
pub fn replay_files(
    alloc: Global,
    options: ReplayOptions,
    files: &Files<'_>,
    results: &mut Results,
) -> io::Result<u8>
    ensures said { IfOk result (SaysAndTells (are_told options.steps) false (OfRun (λ p t. OfReplay (files.now.saves && options.recorded) p t results.old.saved.items results.new.saved.items) files.now.of_module files.now.trace files.now.shapes) results.old.outputs results.new.outputs) }
    ensures kept { files.now.saves ≡ false → results.new.saved.items ≡ results.old.saved.items }
{
    match read_traced(alloc, files) {
        Ok(traced) => {
            let status = replay_traced(alloc, options, files.saves, &traced, results);
            drop(traced);
            status
        }
        Err(fault) => unread(&mut results.outputs.err, fault),
    }
}
