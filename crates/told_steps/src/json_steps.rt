//! The lines of steps, after those that come before.
use crate::events::Event;
use crate::going::{Span, go_on_to, go_to, stretches_to};
use crate::heap_view::HeapView;
use crate::json_frames::put_frames;
use crate::json_heads::put_heads;
use crate::json_lines::StepLine;
use crate::json_state::put_state;
use crate::json_texts::{place_name, put_line, text_in, thread_in};
use crate::lines::{Made, Texts, put_done};
use crate::listing::Listing;
use crate::put_event::Names;
use crate::told::{Listed, Steps, Told};
use messages::Message;
use std::alloc::{AllocError, Global};
use step_log::{LogStep, StepLog};

/// How many of the last steps are written where no others are asked for.
const LAST_STEPS: usize = 100_000;

/// Which steps of this number are written.
fn span_of(steps: Steps, count: usize) -> Span {
    let (first, last) = match steps {
        Steps::Last => (count.saturating_sub(LAST_STEPS).saturating_add(1), count),
        Steps::Between(first, last) => (first, last),
    };
    Span {
        first: first.max(1).min(count.saturating_add(1)),
        last: last.min(count),
    }
}

/// The place of the instruction at which a thread stands; empty of the collector.
fn place_of(names: &Names, listing: &Listing, step: &LogStep) -> Result<Vec<u8>, AllocError> {
    match &step.place {
        Some(place) => place_name(names, listing, place),
        None => Ok(Vec::new(names.alloc)),
    }
}

/// What a step does, in words.
fn told_of(names: &Names, log: &StepLog, made: Made) -> Result<Vec<u8>, AllocError> {
    let mut text = Message::new(names.alloc);
    put_done(names, &mut text, log, made);
    text.finish()
}

/// The colour of the event's cell after it.
fn colour_of(names: &Names, event: &Event) -> Option<&'static str> {
    let cell = event.cell()?;
    Some(names.heap.shade(cell).name())
}

/// The line of a step, of which this is told, at this place.
fn put_step_line<'a>(
    names: &Names,
    out: &mut Message,
    listing: &Listing,
    made: Made,
    told: &'a str,
    place: &'a str,
) {
    let Made {
        number,
        step,
        event,
    } = made;
    let (line, place) = match &step.place {
        Some(at) => (listing.line_of(at), Some(place)),
        None => (None, None),
    };
    let line = StepLine {
        cell: event.cell(),
        colour: colour_of(names, event),
        event: event.name(),
        kind: "step",
        line,
        place,
        stage: event.stage(),
        step: number,
        thread: thread_in(&step.actor),
        told,
        value: event.value(),
        word: event.word(),
    };
    put_line(names.alloc, out, &line)
}

/// The line of a step.
fn put_step(names: &Names, out: &mut Message, texts: Texts, made: Made) {
    let Ok(told) = told_of(names, texts.log, made) else {
        return out.refuse();
    };
    let Ok(place) = place_of(names, texts.listing, made.step) else {
        return out.refuse();
    };
    let (told, place) = (text_in(told.as_slice()), text_in(place.as_slice()));
    put_step_line(names, out, texts.listing, made, told, place)
}

/// The lines of a step, and of the frames that it changes.
fn put_step_lines(names: &Names, out: &mut Message, texts: Texts, made: Made) {
    put_step(names, out, texts, made);
    put_frames(names, out, texts.log, made.step.notes, made.number)
}

/// The lines of the steps that are logged, each with those of the frames that it changes. The heap is as before them.
fn put_logged(alloc: Global, out: &mut Message, told: &Told, texts: Texts, heap: &mut HeapView) {
    for (at, step) in texts.log.steps().iter().enumerate() {
        let event = heap.step(step);
        let names = Names {
            alloc,
            module: told.program.module(),
            heap,
        };
        let made = Made {
            number: texts.log.number_at(at),
            step,
            event: &event,
        };
        put_step_lines(&names, out, texts, made);
    }
}

/// Makes the steps up to the one with this number, and writes their lines.
fn put_steps(
    alloc: Global,
    out: &mut Message,
    listed: Listed,
    log: &mut StepLog,
    heap: &mut HeapView,
    last: usize,
) {
    let Listed { told, listing } = listed;
    for _stretch in 0..stretches_to(log, last) {
        if go_on_to(log, last).is_err() {
            return out.refuse();
        }
        put_logged(alloc, out, told, Texts { log, listing }, heap);
    }
}

/// The lines of these steps and those before them, of a run whose module is listed. The path leads to the cell of its break.
fn put_lines(
    alloc: Global,
    out: &mut Message,
    listed: Listed,
    path: &[u8],
    log: &mut StepLog,
    span: Span,
) {
    let Listed { told, listing } = listed;
    let Ok(mut heap) = HeapView::new(alloc, told.program, told.setup) else {
        return out.refuse();
    };
    let Ok(done) = go_to(log, &mut heap, span.first) else {
        drop(heap);
        return out.refuse();
    };
    let names = Names {
        alloc,
        module: told.program.module(),
        heap: &heap,
    };
    put_heads(&names, out, told, listing, path, span.first);
    put_state(&names, out, told, log, span.first, done);
    put_steps(alloc, out, listed, log, &mut heap, span.last);
    drop(heap);
}

/// The lines of a run of which no step is made so far, where these steps are written. The path is that of `path_of_break`.
pub fn put_json(
    alloc: Global,
    out: &mut Message,
    told: &Told,
    path: &[u8],
    log: &mut StepLog,
    steps: Steps,
) {
    let Ok(listing) = Listing::new(alloc, told.program.module()) else {
        return out.refuse();
    };
    let span = span_of(steps, told.steps);
    let listed = Listed {
        told,
        listing: &listing,
    };
    put_lines(alloc, out, listed, path, log, span);
    drop(listing);
}
