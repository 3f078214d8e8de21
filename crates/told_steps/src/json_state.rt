//! The lines that say what holds before the first step that is written.
use crate::events::Event;
use crate::json_frames::put_frames_at;
use crate::json_lines::{CellLine, StageLine};
use crate::json_texts::put_line;
use crate::put_event::Names;
use crate::shade::Shade;
use crate::told::Told;
use messages::Message;
use std::alloc::AllocError;
use step_log::StepLog;

/// What the words of a cell hold.
fn words_of(names: &Names, cell: u64) -> Result<Vec<u64>, AllocError> {
    let mut words = Vec::new(names.alloc);
    for number in 0..names.heap.kinds(cell).len() {
        if let Ok(word) = u32::try_from(number) {
            words.push(names.heap.word(cell, word))?;
        }
    }
    Ok(words)
}

/// The line of a cell of this colour.
fn put_cell(names: &Names, out: &mut Message, cell: u64, colour: &str) {
    let Ok(words) = words_of(names, cell) else {
        return out.refuse();
    };
    let line = CellLine {
        cell,
        colour,
        kind: "cell",
        words: words.as_slice(),
    };
    put_line(names.alloc, out, &line)
}

/// The lines of the cells that are not free.
fn put_cells(names: &Names, out: &mut Message) {
    for cell in 0..names.heap.cells() {
        let cell = u64::from(cell);
        match names.heap.shade(cell) {
            Shade::Free => {}
            shade => put_cell(names, out, cell, shade.name()),
        }
    }
}

/// The line of the stage of a thread or of the collector, which did this last.
fn put_stage(names: &Names, out: &mut Message, thread: Option<u32>, last: Option<Event>) {
    let line = StageLine {
        event: match &last {
            Some(event) => Some(event.name()),
            None => None,
        },
        kind: "stage",
        stage: names.heap.stage(thread),
        thread,
    };
    put_line(names.alloc, out, &line)
}

/// The lines of the stages of the collector, which did this last, and of this number of threads.
fn put_stages(names: &Names, out: &mut Message, threads: usize, last: Option<Event>) {
    put_stage(names, out, None, last);
    for number in 0..threads {
        if let Ok(number) = u32::try_from(number) {
            put_stage(names, out, Some(number), None);
        }
    }
}

/// The lines of the frames that are under way before the step with this number, the oldest ones first.
fn put_frames_before(names: &Names, out: &mut Message, log: &StepLog, number: usize) {
    let Ok(frames) = log.frames_under_way(names.alloc) else {
        return out.refuse();
    };
    put_frames_at(names, out, log, frames.as_slice(), number.saturating_sub(1));
    drop(frames);
}

/// The lines of what holds before the step with this number, which is the next one to be made, where the collector did this last.
/// Before the first step of the run all cells are free and no stage is posted.
pub fn put_state(
    names: &Names,
    out: &mut Message,
    told: &Told,
    log: &StepLog,
    number: usize,
    last: Option<Event>,
) {
    if number > 1 {
        put_cells(names, out);
        put_stages(names, out, told.setup.starts.len(), last);
    }
    put_frames_before(names, out, log, number)
}
