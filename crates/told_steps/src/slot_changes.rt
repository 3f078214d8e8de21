//! The root slots that a step of a thread changes.
use crate::paths::put_root_name;
use crate::put_event::Names;
use messages::Message;
use step_log::{FrameNote, LogStep, StepLog};

/// The frame of a step, before it and after it, whose root slots the step changes.
#[derive(Clone, Copy)]
pub struct SlotChanges<'a> {
    log: &'a StepLog<'a>,
    before: &'a FrameNote,
    after: &'a FrameNote,
}

/// The last note of a thread before the one at this place.
fn note_before<'a>(log: &'a StepLog<'a>, at: usize, thread: u32) -> Option<&'a FrameNote> {
    for back in 0..at {
        let place = at.saturating_sub(back).saturating_sub(1);
        if let Some(note) = log.note(place) {
            if note.thread == thread {
                return Some(note);
            }
        }
    }
    None
}

/// The frame whose root slots the step with this number changes, if it neither begins nor ends a frame.
pub fn slot_changes<'a>(
    log: &'a StepLog<'a>,
    number: usize,
    step: &LogStep,
) -> Option<SlotChanges<'a>> {
    let after = log.note(step.notes)?;
    if after.steps != number {
        return None;
    }
    let before = note_before(log, step.notes, after.thread)?;
    if before.frames != after.frames {
        return None;
    }
    Some(SlotChanges { log, before, after })
}

impl<'a> SlotChanges<'a> {
    fn cell(&self, note: &FrameNote, root: usize) -> u32 {
        self.log.cell(note, root).unwrap_or(0)
    }

    /// Whether a slot begins or ends to hold a reference to a cell.
    pub fn is_about(&self, cell: u64) -> bool {
        for root in 0..self.after.roots {
            let before = self.cell(self.before, root);
            let after = self.cell(self.after, root);
            if before != after && (u64::from(before) == cell || u64::from(after) == cell) {
                return true;
            }
        }
        false
    }

    /// `, slot %s = cell 2`
    pub fn put(&self, names: &Names, out: &mut Message) {
        for root in 0..self.after.roots {
            let cell = self.cell(self.after, root);
            if cell != self.cell(self.before, root) {
                self.put_slot(names, out, root, cell);
            }
        }
    }

    fn put_slot(&self, names: &Names, out: &mut Message, root: usize, cell: u32) {
        out.put(", slot ");
        let function = self.after.function.number() as usize;
        if let Some(function) = names.module.functions.get(function) {
            put_root_name(names, out, function, root);
        }
        out.put(" = ");
        if cell == 0 {
            out.put("null")
        } else {
            names.put_cell(out, u64::from(cell))
        }
    }
}
