use crate::log::FrameNote;
use ir_ast::FuncId;
use items::Items;
use machine::{Thread, Value};
use std::alloc::{AllocError, Global};

/// How many notes are kept at least before those of frames that are over are left out.
const FEWEST_NOTES: usize = 4096;

/// What is noted of the frames of threads.
#[derive(Drop)]
pub struct FrameNotes {
    notes: Items<FrameNote>,
    /// What the root slots of the notes refer to, one frame after the other. Null is 0.
    cells: Items<u32>,
    /// For each thread the place of its last note.
    last: Items<usize>,
    /// With how many notes those of frames that are over are left out.
    most: usize,
}

/// What a root slot refers to. Null is 0.
fn cell_in(value: &Value) -> u32 {
    match value {
        Value::Cell(_, at) => at.cell,
        _ => 0,
    }
}

/// Whether a note has fewer frames than those of its thread so far, which has as many then.
fn is_fewer(fewest: &mut Items<usize>, note: &FrameNote) -> bool {
    let thread = note.thread as usize;
    let Some(so_far) = fewest.get(thread).copied() else {
        return false;
    };
    if note.frames >= so_far {
        return false;
    }
    if thread < fewest.len() {
        fewest.set(thread, note.frames);
    }
    true
}

impl FrameNotes {
    /// Before anything is noted of this number of threads.
    pub fn new(alloc: Global, threads: usize) -> Result<Self, AllocError> {
        let last = vec![in alloc; usize::MAX; threads]?;
        Ok(FrameNotes {
            notes: Items::new(alloc),
            cells: Items::new(alloc),
            last: Items::from_vec(last),
            most: FEWEST_NOTES,
        })
    }

    /// How many notes there are.
    pub fn len(&self) -> usize {
        self.notes.len()
    }

    pub fn get(&self, at: usize) -> Option<&FrameNote> {
        self.notes.get(at)
    }

    /// What a root slot of a note refers to. Null is 0.
    pub fn cell(&self, note: &FrameNote, root: usize) -> Option<u32> {
        self.cells.get(note.first.saturating_add(root)).copied()
    }

    /// Notes the newest frame of a thread after this number of steps, if it is not as in the thread's last note.
    pub fn look(
        &mut self,
        steps: usize,
        number: u32,
        thread: &Thread<'_>,
    ) -> Result<(), AllocError> {
        if self.is_noted(number, thread) {
            return Ok(());
        }
        let first = self.cells.len();
        self.add_cells(thread)?;
        let roots = self.cells.len().saturating_sub(first);
        let note = FrameNote {
            steps,
            thread: number,
            frames: thread.frames(),
            function: function_of(thread),
            first,
            roots,
        };
        self.add(note)
    }

    /// The places of the last notes of all frames that are under way, the last one first. A frame is under way where no later note of
    /// its thread has as few frames or fewer.
    pub fn under_way(&self, alloc: Global) -> Result<Items<usize>, AllocError> {
        let fewest: Vec<usize> = vec![in alloc; usize::MAX; self.last.len()]?;
        let mut fewest = Items::from_vec(fewest);
        let mut places = Items::new(alloc);
        let count = self.notes.len();
        for back in 0..count {
            let at = count.saturating_sub(back).saturating_sub(1);
            if let Some(note) = self.notes.get(at) {
                if is_fewer(&mut fewest, note) {
                    places.push(at)?;
                }
            }
        }
        Ok(places)
    }

    /// Leaves out the notes of frames that are over, once there are as many as is worth it.
    pub fn forget(&mut self, alloc: Global) -> Result<(), AllocError> {
        if self.notes.len() < self.most {
            return Ok(());
        }
        let kept = self.kept(alloc)?;
        *self = kept;
        Ok(())
    }

    /// The notes of the frames that are under way, in their order.
    fn kept(&self, alloc: Global) -> Result<FrameNotes, AllocError> {
        let places = self.under_way(alloc)?;
        let mut kept = FrameNotes::new(alloc, self.last.len())?;
        kept.take(self, places.as_slice())?;
        kept.most = places.len().saturating_mul(2).max(FEWEST_NOTES);
        Ok(kept)
    }

    /// Takes over the notes at these places, of which the last one comes first.
    fn take(&mut self, from: &FrameNotes, places: &[usize]) -> Result<(), AllocError> {
        let count = places.len();
        for back in 0..count {
            let at = count.saturating_sub(back).saturating_sub(1);
            let place = places.get(at).copied().unwrap_or(usize::MAX);
            if let Some(note) = from.get(place) {
                self.take_note(from, note)?;
            }
        }
        Ok(())
    }

    fn take_note(&mut self, from: &FrameNotes, note: &FrameNote) -> Result<(), AllocError> {
        let first = self.cells.len();
        for root in 0..note.roots {
            self.cells.push(from.cell(note, root).unwrap_or(0))?;
        }
        let taken = FrameNote {
            steps: note.steps,
            thread: note.thread,
            frames: note.frames,
            function: note.function,
            first,
            roots: note.roots,
        };
        self.add(taken)
    }

    /// Adds a note, which is the last one of its thread.
    fn add(&mut self, note: FrameNote) -> Result<(), AllocError> {
        let at = self.notes.len();
        let thread = note.thread as usize;
        self.notes.push(note)?;
        if thread < self.last.len() {
            self.last.set(thread, at);
        }
        Ok(())
    }

    /// Whether the newest frame of a thread is as its last note has it.
    fn is_noted(&self, number: u32, thread: &Thread<'_>) -> bool {
        let Some(at) = self.last.get(number as usize) else {
            return false;
        };
        match self.notes.get(*at) {
            Some(note) => note.frames == thread.frames() && self.has_cells(note, thread),
            None => false,
        }
    }

    /// Whether the root slots of the newest frame refer to the cells of a note.
    fn has_cells(&self, note: &FrameNote, thread: &Thread<'_>) -> bool {
        if thread.frames() == 0 {
            return note.roots == 0;
        }
        let roots = thread.frame_roots(0);
        if roots.len() != note.roots {
            return false;
        }
        for place in 0..roots.len() {
            if self.cell(note, place) != Some(cell_in(&roots.value(place))) {
                return false;
            }
        }
        true
    }

    /// The cells of the root slots of a thread's newest frame.
    fn add_cells(&mut self, thread: &Thread<'_>) -> Result<(), AllocError> {
        if thread.frames() == 0 {
            return Ok(());
        }
        let roots = thread.frame_roots(0);
        for place in 0..roots.len() {
            self.cells.push(cell_in(&roots.value(place)))?;
        }
        Ok(())
    }
}

/// The function of a thread's newest frame.
fn function_of(thread: &Thread<'_>) -> FuncId {
    if thread.frames() == 0 {
        return FuncId::new(0);
    }
    thread.frame_place(0).function
}
