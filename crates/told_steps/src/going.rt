//! The way through the steps of a run, of which only a stretch is logged at a time.
use crate::events::Event;
use crate::heap_view::HeapView;
use moves::Actor;
use std::alloc::AllocError;
use step_log::StepLog;

/// How many steps are logged at a time.
const STRETCH: usize = 512;

/// The numbers of the first and of the last one of some steps, counted from 1.
#[derive(Clone, Copy)]
pub struct Span {
    pub first: usize,
    pub last: usize,
}

/// How many steps are left up to the one with this number.
fn steps_to(log: &StepLog, last: usize) -> usize {
    let made = log.before().saturating_add(log.steps().len());
    last.saturating_sub(made)
}

/// In how many stretches the steps up to the one with this number are made.
pub fn stretches_to(log: &StepLog, last: usize) -> usize {
    (steps_to(log, last) / STRETCH).saturating_add(1)
}

/// Makes and logs the next stretch of the steps up to the one with this number.
pub fn go_on_to(log: &mut StepLog, last: usize) -> Result<(), AllocError> {
    let count = steps_to(log, last).min(STRETCH);
    log.go_on(count)
}

/// Takes the steps of a stretch into the heap, which is as before them. Returns what the collector did last, which was this before.
fn take_stretch(log: &StepLog, heap: &mut HeapView, before: Option<Event>) -> Option<Event> {
    let mut last = before;
    for step in log.steps() {
        let event = heap.step(step);
        if let Actor::Collector = step.actor {
            last = Some(event);
        }
    }
    last
}

/// Makes the steps before the one with this number, where none is made so far. Returns what the collector did last.
pub fn go_to(
    log: &mut StepLog,
    heap: &mut HeapView,
    number: usize,
) -> Result<Option<Event>, AllocError> {
    let before = number.saturating_sub(1);
    let mut last = None;
    for _stretch in 0..stretches_to(log, before) {
        go_on_to(log, before)?;
        last = take_stretch(log, heap, last);
    }
    log.go_on(0)?;
    Ok(last)
}
