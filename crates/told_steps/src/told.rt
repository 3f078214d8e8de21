//! The steps of a run as lines.
use crate::events::{Event, Fold};
use crate::going::{Span, go_on_to, go_to, stretches_to};
use crate::heap_view::HeapView;
use crate::life::{Life, Lost, lost_by};
use crate::lines::{Made, Texts, end_line, is_same_actor, put_step};
use crate::listing::Listing;
use crate::paths::{path_to, put_path_to};
use crate::put_event::Names;
use crate::slot_changes::slot_changes;
use layout::Program;
use messages::Message;
use moves::Actor;
use replay::Break;
use std::alloc::{AllocError, Global};
use step_log::{LogStep, StepLog};
use trace_text::Setup;

/// How many of the last steps are told where no others are asked for.
const LAST_STEPS: usize = 40;

/// What stands before the last steps.
const LAST_HEAD: &str = "the last steps:\n";

/// Which steps are told, by their numbers from 1: those between two numbers, or the last ones.
#[derive(Clone, Copy)]
pub enum Steps {
    Last,
    Between(usize, usize),
}

/// A run whose steps are told.
#[derive(Clone, Copy)]
pub struct Told<'a> {
    pub program: &'a Program,
    pub setup: &'a Setup,
    /// How many steps it made.
    pub steps: usize,
    pub broken: Option<&'a Break>,
}

/// A run that is told, and the text of its module.
#[derive(Clone, Copy)]
pub(crate) struct Listed<'a> {
    pub(crate) told: &'a Told<'a>,
    pub(crate) listing: &'a Listing,
}

/// Steps that are told in one line.
#[derive(Drop)]
struct Folded {
    line: Message,
    actor: Actor,
    fold: Fold,
    count: u64,
}

impl Folded {
    fn is_like(&self, step: &LogStep, fold: Fold) -> bool {
        self.count > 0
            && self.fold != Fold::Never
            && self.fold == fold
            && is_same_actor(&self.actor, &step.actor)
    }
}

/// With which steps a step is folded. One that changes a root slot stands alone.
fn fold_of(log: &StepLog, made: Made) -> Fold {
    match slot_changes(log, made.number, made.step) {
        Some(_) => Fold::Never,
        None => made.event.fold(),
    }
}

/// Lines of steps, of which the last one may grow.
#[derive(Drop)]
struct Lines {
    alloc: Global,
    last: Folded,
}

impl Lines {
    fn new(alloc: Global) -> Self {
        Lines {
            alloc,
            last: Folded {
                line: Message::new(alloc),
                actor: Actor::Collector,
                fold: Fold::Never,
                count: 0,
            },
        }
    }

    /// Writes the last line.
    fn end(&mut self, out: &mut Message) {
        if self.last.count > 0 {
            out.put_message(&self.last.line);
            end_line(out, self.last.count);
        }
        self.last.line.clear();
        self.last.count = 0;
    }

    /// Adds a step.
    fn add(&mut self, names: &Names, out: &mut Message, texts: Texts, made: Made) {
        let fold = fold_of(texts.log, made);
        if self.last.is_like(made.step, fold) {
            self.last.count = self.last.count.saturating_add(1);
            return;
        }
        self.end(out);
        put_step(names, &mut self.last.line, texts, made);
        self.last.actor = made.step.actor;
        self.last.fold = fold;
        self.last.count = 1;
    }
}

impl Lines {
    /// Adds the steps that are logged. The heap is as before them.
    fn add_logged(&mut self, out: &mut Message, told: &Told, texts: Texts, heap: &mut HeapView) {
        for (at, step) in texts.log.steps().iter().enumerate() {
            let event = heap.step(step);
            let names = Names {
                alloc: self.alloc,
                module: told.program.module(),
                heap,
            };
            let made = Made {
                number: texts.log.number_at(at),
                step,
                event: &event,
            };
            self.add(&names, out, texts, made);
        }
    }

    /// Makes the steps up to the one with this number, and writes them.
    fn put_to(
        &mut self,
        out: &mut Message,
        listed: Listed,
        log: &mut StepLog,
        heap: &mut HeapView,
        last: usize,
    ) {
        let Listed { told, listing } = listed;
        for _stretch in 0..stretches_to(log, last) {
            if go_on_to(log, last).is_err() {
                return out.refuse();
            }
            self.add_logged(out, told, Texts { log, listing }, heap);
        }
        self.end(out)
    }
}

/// The steps whose numbers lie in a span, where the heap is as before the first step of the run.
fn put_between(
    alloc: Global,
    out: &mut Message,
    listed: Listed,
    log: &mut StepLog,
    heap: &mut HeapView,
    span: Span,
) {
    let steps = listed.told.steps;
    if go_to(log, heap, span.first.min(steps.saturating_add(1))).is_err() {
        return out.refuse();
    }
    let mut lines = Lines::new(alloc);
    lines.put_to(out, listed, log, heap, span.last.min(steps));
    drop(lines);
}

/// What is told of a run in which a cell is lost.
#[derive(Drop)]
struct LostLines {
    life: Life,
    lines: Lines,
    /// The last steps, but for the last line.
    last: Message,
}

impl LostLines {
    fn new(alloc: Global, lost: Lost) -> Self {
        LostLines {
            life: Life::new(alloc, lost),
            lines: Lines::new(alloc),
            last: Message::new(alloc),
        }
    }

    /// Adds a step of a run that has this many.
    fn add(
        &mut self,
        names: &Names,
        texts: Texts,
        made: Made,
        count: usize,
    ) -> Result<(), AllocError> {
        self.life.add(names, texts, made, count)?;
        if made.number > count.saturating_sub(LAST_STEPS) {
            let last = &mut self.last;
            self.lines.add(names, last, texts, made);
        }
        Ok(())
    }

    /// Adds the steps that are logged. The heap is as before them.
    fn add_logged(
        &mut self,
        told: &Told,
        texts: Texts,
        heap: &mut HeapView,
    ) -> Result<(), AllocError> {
        for (at, step) in texts.log.steps().iter().enumerate() {
            let event = heap.step(step);
            let names = Names {
                alloc: self.lines.alloc,
                module: told.program.module(),
                heap,
            };
            let made = Made {
                number: texts.log.number_at(at),
                step,
                event: &event,
            };
            self.add(&names, texts, made, told.steps)?;
        }
        Ok(())
    }

    /// Makes all steps of the run.
    fn go_through(
        &mut self,
        listed: Listed,
        log: &mut StepLog,
        heap: &mut HeapView,
    ) -> Result<(), AllocError> {
        let Listed { told, listing } = listed;
        for _stretch in 0..stretches_to(log, told.steps) {
            go_on_to(log, told.steps)?;
            self.add_logged(told, Texts { log, listing }, heap)?;
        }
        self.lines.end(&mut self.last);
        Ok(())
    }

    /// Writes the life of the cell, the path that still leads to it after the steps that were made, and the last steps.
    fn put(&self, names: &Names, out: &mut Message, log: &StepLog) {
        let cell = self.life.cell();
        out.put("the life of ");
        names.put_cell(out, cell);
        out.put(":\n");
        self.life.put(out);
        put_way(names, out, log, cell);
        out.put(LAST_HEAD);
        out.put_message(&self.last);
    }
}

/// The path that still leads to a cell that is gone.
fn put_way(names: &Names, out: &mut Message, log: &StepLog, cell: u64) {
    let Ok(path) = path_to(names.alloc, names.heap, log, cell) else {
        return out.refuse();
    };
    if path.is_empty() {
        return out.put("no global and no root slot leads to it\n");
    }
    out.put("still reached: ");
    put_path_to(names, out, log, &path, cell);
    out.put("\n")
}

/// The life of a cell that is lost, the path that still leads to it, and the last steps.
fn put_lost(
    alloc: Global,
    out: &mut Message,
    listed: Listed,
    log: &mut StepLog,
    heap: &mut HeapView,
    lost: Lost,
) {
    let mut lines = LostLines::new(alloc, lost);
    if lines.go_through(listed, log, heap).is_err() {
        drop(lines);
        return out.refuse();
    }
    let names = Names {
        alloc,
        module: listed.told.program.module(),
        heap,
    };
    lines.put(&names, out, log);
    drop(lines);
}

/// The last steps, and before them those that matter for the cause where the run is broken.
fn put_last(
    alloc: Global,
    out: &mut Message,
    listed: Listed,
    log: &mut StepLog,
    heap: &mut HeapView,
) {
    if let Some(lost) = listed.told.broken.and_then(lost_by) {
        return put_lost(alloc, out, listed, log, heap, lost);
    }
    out.put(LAST_HEAD);
    let last = listed.told.steps;
    let first = last.saturating_sub(LAST_STEPS).saturating_add(1);
    put_between(alloc, out, listed, log, heap, Span { first, last })
}

/// Tells these steps of a run whose module is listed.
fn put_steps(alloc: Global, out: &mut Message, listed: Listed, log: &mut StepLog, steps: Steps) {
    let Ok(mut heap) = HeapView::new(alloc, listed.told.program, listed.told.setup) else {
        return out.refuse();
    };
    match steps {
        Steps::Last => put_last(alloc, out, listed, log, &mut heap),
        Steps::Between(first, last) => {
            put_between(alloc, out, listed, log, &mut heap, Span { first, last })
        }
    }
    drop(heap);
}

/// Tells these steps of a run, of which none is made so far.
pub fn put_told(alloc: Global, out: &mut Message, told: &Told, log: &mut StepLog, steps: Steps) {
    let Ok(listing) = Listing::new(alloc, told.program.module()) else {
        return out.refuse();
    };
    let listed = Listed {
        told,
        listing: &listing,
    };
    put_steps(alloc, out, listed, log, steps);
    drop(listing);
}
