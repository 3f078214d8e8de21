//! What is left out of a trace, one thing after the other.
ghost use Rattle.std.specs.Prelude.{◌≡◌, ◌<◌, ◌≤◌, length, IfOk, IfSome};
ghost use Rattle.trace_text.specs.Traces.{IsTraceOf};

use crate::setups::{with_fewer_cells, without_thread};
use crate::steps::{total, with_fewer_steps, with_lines_swapped, without_lines};
use layout::Program;
use moves::Actor;
use pools::LayoutId;
use replay::drawn_trace;
use std::alloc::{AllocError, Global};
use trace_text::{STEP_LIMIT, Steps, Trace};

/// The last of the seeds, from 0, that draw steps for the threads that are left.
const LAST_REDRAW: u32 = 511;

/// What is left out of a trace.
#[derive(Clone, Copy)]
pub(crate) enum Change {
    /// The thread with this number, and its steps.
    Thread(u32),
    /// This thread; a seed draws the steps of the others.
    ThreadRedrawn { thread: u32, seed: u32 },
    /// A cell of the layout with this number.
    Cell(u32),
    /// This number of lines from a place on.
    Lines { count: usize, place: usize },
    /// A switch: the line at this place comes after the next one.
    Switch(usize),
    /// This number of steps of the line at a place.
    Steps { count: u32, place: usize },
}

/// The trace without a thread. The last one stays.
fn thread_left_out(
    alloc: Global,
    program: &Program,
    trace: &Trace,
    thread: u32,
) -> Result<Option<Trace>, AllocError>
    requires { IsTraceOf program.now trace.now }
    ensures { IfOk result (λ changed. IfSome changed (IsTraceOf program.now)) }
{
    let threads = trace.setup.starts.len();
    if threads < 2 || thread as usize >= threads {
        return Ok(None);
    }
    Ok(Some(without_thread(alloc, program, trace, thread)?))
}

/// The trace without a thread. A seed draws twice as many steps.
fn thread_redrawn(
    alloc: Global,
    program: &Program,
    trace: &Trace,
    thread: u32,
    seed: u32,
) -> Result<Option<Trace>, AllocError>
    requires { IsTraceOf program.now trace.now }
    ensures { IfOk result (λ changed. IfSome changed (IsTraceOf program.now)) }
{
    let steps = (2 * total(trace.steps.as_slice())).min(STEP_LIMIT) as u32;
    match thread_left_out(alloc, program, trace, thread)? {
        Some(fewer) => Ok(Some(drawn_trace(alloc, fewer, seed, steps)?)),
        None => Ok(None),
    }
}

/// The trace with a cell less of a layout.
fn cell_left_out(
    alloc: Global,
    program: &Program,
    trace: &Trace,
    layout: u32,
) -> Result<Option<Trace>, AllocError>
    requires { IsTraceOf program.now trace.now }
    ensures { IfOk result (λ changed. IfSome changed (IsTraceOf program.now)) }
{
    let count = trace.setup.pools.count(LayoutId::new(layout));
    if count == 0 {
        return Ok(None);
    }
    let fewer = with_fewer_cells(alloc, program, trace, layout as usize, count - 1)?;
    Ok(Some(fewer))
}

/// The trace without some lines.
fn lines_left_out(
    alloc: Global,
    program: &Program,
    trace: &Trace,
    count: usize,
    place: usize,
) -> Result<Option<Trace>, AllocError>
    requires { IsTraceOf program.now trace.now }
    ensures { IfOk result (λ changed. IfSome changed (IsTraceOf program.now)) }
{
    if place < trace.steps.len() {
        let to = place.saturating_add(count);
        return Ok(Some(without_lines(alloc, program, trace, place, to)?));
    }
    Ok(None)
}

/// Whether two lines, if there are such, are of one actor.
fn is_same_actor(one: Option<&Steps>, other: Option<&Steps>) -> bool {
    let (Some(one), Some(other)) = (one, other) else {
        return false;
    };
    match (one.actor, other.actor) {
        (Actor::Thread(one), Actor::Thread(other)) => one == other,
        (Actor::Collector, Actor::Collector) => true,
        _ => false,
    }
}

/// The trace with the line at a place after the next one, where one of the two then comes beside another line of its actor.
fn switch_left_out(
    alloc: Global,
    program: &Program,
    trace: &Trace,
    place: usize,
) -> Result<Option<Trace>, AllocError>
    requires { IsTraceOf program.now trace.now }
    ensures { IfOk result (λ changed. IfSome changed (IsTraceOf program.now)) }
{
    let lines = trace.steps.as_slice();
    let next = place.saturating_add(1);
    if next >= lines.len() {
        return Ok(None);
    }
    let before = lines.get(place.wrapping_sub(1));
    let after = lines.get(next.saturating_add(1));
    if is_same_actor(before, lines.get(next)) || is_same_actor(lines.get(place), after) {
        return Ok(Some(with_lines_swapped(alloc, program, trace, place)?));
    }
    Ok(None)
}

/// The trace with fewer steps in the line at a place.
fn steps_left_out(
    alloc: Global,
    program: &Program,
    trace: &Trace,
    count: u32,
    place: usize,
) -> Result<Option<Trace>, AllocError>
    requires { IsTraceOf program.now trace.now }
    ensures { IfOk result (λ changed. IfSome changed (IsTraceOf program.now)) }
{
    let lines = trace.steps.as_slice();
    if place >= lines.len() {
        return Ok(None);
    }
    let all = lines[place].count;
    if count == 0 || count >= all {
        return Ok(None);
    }
    let fewer = with_fewer_steps(alloc, program, trace, place, all - count)?;
    Ok(Some(fewer))
}

/// How many steps the line at a place has.
fn count_at(trace: &Trace, place: usize) -> u32 {
    match trace.steps.get(place) {
        Some(line) => line.count,
        None => 0,
    }
}

impl Change {
    /// What is left out first.
    pub(crate) fn first(trace: &Trace) -> Change {
        match u32::try_from(trace.setup.starts.len()) {
            Ok(threads) if threads > 1 => Change::Thread(threads - 1),
            _ => Change::Cell(0),
        }
    }

    /// The trace without that, if there is such a thing.
    pub(crate) fn made(
        self,
        alloc: Global,
        program: &Program,
        trace: &Trace,
    ) -> Result<Option<Trace>, AllocError>
        requires { IsTraceOf program.now trace.now }
        ensures { IfOk result (λ changed. IfSome changed (IsTraceOf program.now)) }
    {
        match self {
            Change::Thread(thread) => thread_left_out(alloc, program, trace, thread),
            Change::ThreadRedrawn { thread, seed } => {
                thread_redrawn(alloc, program, trace, thread, seed)
            }
            Change::Cell(layout) => cell_left_out(alloc, program, trace, layout),
            Change::Lines { count, place } => {
                lines_left_out(alloc, program, trace, count, place)
            }
            Change::Switch(place) => switch_left_out(alloc, program, trace, place),
            Change::Steps { count, place } => steps_left_out(alloc, program, trace, count, place),
        }
    }

    /// What is left out after a thread.
    fn after_thread(thread: u32) -> Change {
        match thread {
            0 => Change::Cell(0),
            _ => Change::Thread(thread - 1),
        }
    }

    /// What is left out after a cell of the layouts before this one.
    fn from_layout(program: &Program, trace: &Trace, layout: u32) -> Change {
        if (layout as usize) < program.layouts().count() {
            return Change::Cell(layout);
        }
        let lines = trace.steps.len();
        Change::from_line(trace, lines, lines)
    }

    /// What is left out after lines before this place.
    fn from_line(trace: &Trace, count: usize, place: usize) -> Change {
        if place < trace.steps.len() {
            return Change::Lines { count, place };
        }
        match count / 2 {
            0 => Change::Switch(0),
            half => Change::Lines {
                count: half,
                place: 0,
            },
        }
    }

    /// What is left out after switches before this place.
    fn from_switch(trace: &Trace, place: usize) -> Option<Change> {
        if place < trace.steps.len() {
            return Some(Change::Switch(place));
        }
        Change::from_steps(trace, 0)
    }

    /// What is left out after steps of the lines before this place.
    fn from_steps(trace: &Trace, place: usize) -> Option<Change> {
        if place < trace.steps.len() {
            return Some(Change::Steps {
                count: count_at(trace, place) / 2,
                place,
            });
        }
        None
    }

    /// What is left out where this cannot be.
    fn otherwise(self, program: &Program, trace: &Trace) -> Option<Change> {
        match self {
            Change::Thread(thread) => Some(Change::ThreadRedrawn { thread, seed: 0 }),
            Change::ThreadRedrawn { thread, seed } if seed < LAST_REDRAW => {
                let seed = seed.saturating_add(1);
                Some(Change::ThreadRedrawn { thread, seed })
            }
            Change::ThreadRedrawn { thread, .. } => Some(Change::after_thread(thread)),
            Change::Cell(layout) => {
                Some(Change::from_layout(program, trace, layout.saturating_add(1)))
            }
            Change::Lines { count, place } => {
                Some(Change::from_line(trace, count, place.saturating_add(count)))
            }
            Change::Switch(place) => Change::from_switch(trace, place.saturating_add(1)),
            Change::Steps { count, place } if count > 1 => Some(Change::Steps {
                count: count / 2,
                place,
            }),
            Change::Steps { place, .. } => Change::from_steps(trace, place.saturating_add(1)),
        }
    }

    /// What is left out after this, if anything is. If this was left out, the trace is without it.
    pub(crate) fn next(
        self,
        program: &Program,
        trace: &Trace,
        is_left_out: bool,
    ) -> Option<Change> {
        if !is_left_out {
            return self.otherwise(program, trace);
        }
        match self {
            Change::Thread(thread) | Change::ThreadRedrawn { thread, .. } => {
                Some(Change::after_thread(thread))
            }
            Change::Lines { count, place } => Some(Change::from_line(trace, count, place)),
            Change::Cell(_) | Change::Switch(_) | Change::Steps { .. } => Some(self),
        }
    }
}
