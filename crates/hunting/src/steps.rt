//! Traces with other steps.
ghost use Rattle.std.specs.Prelude.{◌≡◌, ◌≤◌, ◌<◌, ◌+◌, ◌∷◌, ◌++◌, ℕ, length, take, drop, slice_get, Some, IfOk, IfSome};
ghost use Rattle.trace_text.specs.Traces.{IsTraceOf, step_sum};
ghost use Rattle.trace_text.specs.declared.trace.Steps.{Steps as SomeSteps};
ghost use Rattle.hunting.specs.Parts.{AreOfActors, between, with_at_most};

use crate::lines::{back, front, joined};
use items::Items;
use layout::Program;
use replay::setup_copied;
use std::alloc::{AllocError, Global};
use trace_text::{Steps, Trace};

/// How many steps there are.
pub fn total(lines: &[Steps]) -> u64
    requires { step_sum lines.now ≤ 10000000 }
    ensures { result ≡ step_sum lines.now }
{
    let mut total: u64 = 0;
    for line in lines {
        total += u64::from(line.count);
    }
    total
}

/// The trace with these steps in place of its own.
pub fn with_steps(
    alloc: Global,
    program: &Program,
    trace: &Trace,
    steps: Items<Steps>,
) -> Result<Trace, AllocError>
    requires is_trace { IsTraceOf program.now trace.now }
    requires actors { AreOfActors (length trace.now.setup.starts) steps }
    requires few { step_sum steps ≤ 10000000 }
    ensures is_trace { IfOk result (IsTraceOf program.now) }
    ensures setup { IfOk result (λ made. made.setup ≡ trace.now.setup) }
    ensures steps { IfOk result (λ made. made.steps ≡ steps) }
{
    match setup_copied(alloc, program, &trace.setup) {
        Ok(setup) => Ok(Trace { setup, steps }),
        Err(_refused) => Err(AllocError),
    }
}

/// The trace with other lines in the place of those from one place to before another, which list no fewer steps.
fn replaced(
    alloc: Global,
    program: &Program,
    trace: &Trace,
    places: (usize, usize),
    others: &[Steps],
) -> Result<Trace, AllocError>
    requires is_trace { IsTraceOf program.now trace.now }
    requires order { places.0 ≤ places.1 }
    requires actors { AreOfActors (length trace.now.setup.starts) others.now }
    requires few { step_sum others.now ≤ step_sum (between places.0 places.1 trace.now.steps) }
    ensures is_trace { IfOk result (IsTraceOf program.now) }
    ensures setup { IfOk result (λ made. made.setup ≡ trace.now.setup) }
    ensures steps { IfOk result (λ made. made.steps ≡ take places.0 trace.now.steps ++ others.now ++ drop places.1 trace.now.steps) }
{
    let lines = trace.steps.as_slice();
    let steps = joined(alloc, front(lines, places.0), others, back(lines, places.1))?;
    with_steps(alloc, program, trace, steps)
}

/// The trace without the lines from one place to before another.
pub fn without_lines(
    alloc: Global,
    program: &Program,
    trace: &Trace,
    from: usize,
    to: usize,
) -> Result<Trace, AllocError>
    requires is_trace { IsTraceOf program.now trace.now }
    requires order { from ≤ to }
    ensures is_trace { IfOk result (IsTraceOf program.now) }
    ensures setup { IfOk result (λ made. made.setup ≡ trace.now.setup) }
    ensures steps { IfOk result (λ made. made.steps ≡ take from trace.now.steps ++ drop to trace.now.steps) }
{
    replaced(alloc, program, trace, (from, to), &[])
}

/// The trace with no more than `count` steps of the line at the first place in the place of the lines from there to before the other.
fn with_line_cut(
    alloc: Global,
    program: &Program,
    trace: &Trace,
    places: (usize, usize),
    count: u32,
) -> Result<Trace, AllocError>
    requires is_trace { IsTraceOf program.now trace.now }
    requires order { places.0 < places.1 }
    requires place { places.0 < length trace.now.steps }
    ensures is_trace { IfOk result (IsTraceOf program.now) }
    ensures setup { IfOk result (λ made. made.setup ≡ trace.now.setup) }
    ensures steps { (line : SomeSteps) → slice_get trace.now.steps places.0 ≡ Some line → IfOk result (λ made. made.steps ≡ take places.0 trace.now.steps ++ with_at_most count line ∷ drop places.1 trace.now.steps) }
{
    let line = trace.steps.as_slice()[places.0];
    let shorter = Steps {
        actor: line.actor,
        count: count.min(line.count),
    };
    replaced(alloc, program, trace, places, &[shorter])
}

/// The place after that of a line.
fn after(lines: &[Steps], place: usize) -> usize
    requires { place < length lines.now }
    ensures { result ≡ place + 1 }
{
    let count = lines.len();
    count - (count - place - 1)
}

/// The trace with no more than `count` steps in the line at a place.
pub fn with_fewer_steps(
    alloc: Global,
    program: &Program,
    trace: &Trace,
    place: usize,
    count: u32,
) -> Result<Trace, AllocError>
    requires is_trace { IsTraceOf program.now trace.now }
    requires place { place < length trace.now.steps }
    ensures is_trace { IfOk result (IsTraceOf program.now) }
    ensures setup { IfOk result (λ made. made.setup ≡ trace.now.setup) }
    ensures steps { (line : SomeSteps) → slice_get trace.now.steps place ≡ Some line → IfOk result (λ made. made.steps ≡ take place trace.now.steps ++ with_at_most count line ∷ drop (place + 1) trace.now.steps) }
{
    let places = (place, after(trace.steps.as_slice(), place));
    with_line_cut(alloc, program, trace, places, count)
}

/// The trace with the line at a place after the next one.
pub fn with_lines_swapped(
    alloc: Global,
    program: &Program,
    trace: &Trace,
    place: usize,
) -> Result<Trace, AllocError>
    requires is_trace { IsTraceOf program.now trace.now }
    requires place { place + 1 < length trace.now.steps }
    ensures is_trace { IfOk result (IsTraceOf program.now) }
    ensures setup { IfOk result (λ made. made.setup ≡ trace.now.setup) }
    ensures steps { (line next : SomeSteps) → slice_get trace.now.steps place ≡ Some line → slice_get trace.now.steps (place + 1) ≡ Some next → IfOk result (λ made. made.steps ≡ take place trace.now.steps ++ next ∷ line ∷ drop (place + 2) trace.now.steps) }
{
    let lines = trace.steps.as_slice();
    let next = after(lines, place);
    let others = [lines[next], lines[place]];
    let places = (place, after(lines, next));
    replaced(alloc, program, trace, places, &others)
}

/// The line in which the step with this number is, counted from 1, and how many steps of it lead to that; None past the last step.
fn place_of_step(lines: &[Steps], step: u64) -> Option<(usize, u32)>
    ensures { IfSome result (λ at. at.0 < length lines.now) }
{
    let mut left = step;
    for (place, line) in lines.iter().enumerate() {
        if left <= u64::from(line.count) {
            return Some((place, left as u32));
        }
        left -= u64::from(line.count);
    }
    None
}

/// The trace up to the step with this number, counted from 1.
pub fn up_to(
    alloc: Global,
    program: &Program,
    trace: &Trace,
    step: u64,
) -> Result<Trace, AllocError>
    requires is_trace { IsTraceOf program.now trace.now }
    ensures is_trace { IfOk result (IsTraceOf program.now) }
    ensures setup { IfOk result (λ made. made.setup ≡ trace.now.setup) }
{
    let lines = trace.steps.as_slice();
    match place_of_step(lines, step) {
        Some((place, count)) => {
            with_line_cut(alloc, program, trace, (place, lines.len()), count)
        }
        None => without_lines(alloc, program, trace, lines.len(), lines.len()),
    }
}
