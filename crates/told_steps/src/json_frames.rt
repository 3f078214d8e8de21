//! The lines of frames.
use crate::json_lines::{FrameLine, Root};
use crate::json_texts::{function_name, put_line, text_in};
use crate::paths::put_root_name;
use crate::put_event::Names;
use messages::Message;
use std::alloc::AllocError;
use step_log::{FrameNote, StepLog};

/// A root slot with what it refers to.
fn root_of(names: &Names, note: &FrameNote, root: usize, cell: u32) -> Result<Root, AllocError> {
    let mut name = Message::new(names.alloc);
    if let Some(function) = names.module.functions.get(note.function.number() as usize) {
        put_root_name(names, &mut name, function, root);
    }
    let name = name.finish()?;
    let name = String::from_str(names.alloc, text_in(name.as_slice()))?;
    Ok(Root { cell, name })
}

/// The root slots of a frame.
fn roots_of(names: &Names, log: &StepLog, note: &FrameNote) -> Result<Vec<Root>, AllocError> {
    let mut roots = Vec::new(names.alloc);
    for root in 0..note.roots {
        if let Some(cell) = log.cell(note, root) {
            let root = root_of(names, note, root, cell)?;
            roots.push(root)?;
        }
    }
    Ok(roots)
}

/// The line of a frame, as it is after this number of steps.
fn put_frame(names: &Names, out: &mut Message, log: &StepLog, note: &FrameNote, steps: usize) {
    let Ok(name) = function_name(names, note.function) else {
        return out.refuse();
    };
    let Ok(roots) = roots_of(names, log, note) else {
        return out.refuse();
    };
    let line = FrameLine {
        after: steps,
        frames: note.frames,
        function: text_in(name.as_slice()),
        kind: "frame",
        roots: roots.as_slice(),
        thread: note.thread,
    };
    put_line(names.alloc, out, &line)
}

/// The lines of the frames of these notes, the last one first, as they are after this number of steps.
pub fn put_frames_at(
    names: &Names,
    out: &mut Message,
    log: &StepLog,
    places: &[usize],
    steps: usize,
) {
    let count = places.len();
    for back in 0..count {
        let at = count.saturating_sub(back).saturating_sub(1);
        let place = places.get(at).copied().unwrap_or(usize::MAX);
        if let Some(note) = log.note(place) {
            put_frame(names, out, log, note, steps);
        }
    }
}

/// The lines of the frames that changed by the step with this number, from this note on.
pub fn put_frames(names: &Names, out: &mut Message, log: &StepLog, next: usize, number: usize) {
    for at in next..log.notes() {
        match log.note(at) {
            Some(note) if note.steps <= number => put_frame(names, out, log, note, note.steps),
            _ => return,
        }
    }
}
