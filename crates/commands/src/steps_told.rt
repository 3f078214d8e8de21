//! How the steps are told.
ghost use Rattle.trace_text.specs.Traces.{IsTraceOf};

use command_line::StepsTold;
use messages::Message;
use replay::Outcome;
use reports::Traced;
use std::alloc::{AllocError, Global};
use std::mem::replace;
use step_log::StepLog;
use told_steps::{Steps, Told, path_of_break, put_json, put_told};

/// How steps are written.
#[derive(Clone, Copy)]
enum Form {
    /// These steps, in words.
    Words(Steps),
    /// These steps, as JSON.
    Json(Steps),
}

/// A run with this outcome.
fn told_of<'a>(traced: &'a Traced, outcome: &'a Outcome) -> Told<'a> {
    let (steps, broken) = match outcome {
        Outcome::Broken(at) => (at.step, Some(at)),
        Outcome::Sound(report) => (report.steps, None),
    };
    Told {
        program: &traced.program,
        setup: &traced.trace.setup,
        steps: steps as usize,
        broken,
    }
}

/// Which steps a line asks for.
fn steps_asked(steps: StepsTold) -> Steps {
    match steps {
        StepsTold::Between(first, last) | StepsTold::WrittenBetween(first, last) => {
            Steps::Between(first as usize, last as usize)
        }
        _ => Steps::Last,
    }
}

/// A run before its first step. A replay took its setup, which is then refused for want of memory alone.
fn begun<'a>(alloc: Global, traced: &'a Traced) -> Result<StepLog<'a>, AllocError>
    requires { IsTraceOf traced.now.program traced.now.trace }
{
    match StepLog::new(alloc, &traced.program, &traced.trace) {
        Ok(log) => Ok(log),
        Err(_refused) => Err(AllocError),
    }
}

/// Writes these steps in words.
fn put_words(alloc: Global, out: &mut Message, traced: &Traced, told: &Told, steps: Steps)
    requires { IsTraceOf traced.now.program traced.now.trace }
{
    let Ok(mut log) = begun(alloc, traced) else {
        return out.refuse();
    };
    put_told(alloc, out, told, &mut log, steps);
    drop(log);
}

/// The path that leads to the cell of a broken run after its last step.
fn path_in(alloc: Global, traced: &Traced, told: &Told) -> Result<Vec<u8>, AllocError>
    requires { IsTraceOf traced.now.program traced.now.trace }
{
    if told.broken.is_none() {
        return Ok(Vec::new(alloc));
    }
    let mut log = begun(alloc, traced)?;
    let path = path_of_break(alloc, told, &mut log);
    drop(log);
    path
}

/// Writes these steps as JSON.
fn put_lines(alloc: Global, out: &mut Message, traced: &Traced, told: &Told, steps: Steps)
    requires { IsTraceOf traced.now.program traced.now.trace }
{
    let Ok(path) = path_in(alloc, traced, told) else {
        return out.refuse();
    };
    let Ok(mut log) = begun(alloc, traced) else {
        return out.refuse();
    };
    put_json(alloc, out, told, path.as_slice(), &mut log, steps);
    drop(log);
}

/// Writes the steps that lead to this outcome.
fn put_steps(alloc: Global, out: &mut Message, traced: &Traced, outcome: &Outcome, form: Form)
    requires { IsTraceOf traced.now.program traced.now.trace }
{
    let told = told_of(traced, outcome);
    match form {
        Form::Words(steps) => put_words(alloc, out, traced, &told, steps),
        Form::Json(steps) => put_lines(alloc, out, traced, &told, steps),
    }
}

/// These steps of a trace with this outcome, in words.
pub fn words_of_steps(
    alloc: Global,
    steps: StepsTold,
    traced: &Traced,
    outcome: &Outcome,
) -> Result<Vec<u8>, AllocError>
    requires { IsTraceOf traced.now.program traced.now.trace }
{
    let mut words = Message::new(alloc);
    let form = Form::Words(steps_asked(steps));
    put_steps(alloc, &mut words, traced, outcome, form);
    words.finish()
}

/// Appends these steps of a trace with this outcome as JSON. Where memory is refused, nothing is left.
pub fn save_steps(
    alloc: Global,
    steps: StepsTold,
    traced: &Traced,
    outcome: &Outcome,
    saved: &mut Vec<u8>,
) -> Result<(), AllocError>
    requires { IsTraceOf traced.now.program traced.now.trace }
{
    let form = Form::Json(steps_asked(steps));
    let mut lines = Message::after(alloc, replace(saved, Vec::new(alloc)));
    put_steps(alloc, &mut lines, traced, outcome, form);
    *saved = lines.finish()?;
    Ok(())
}
