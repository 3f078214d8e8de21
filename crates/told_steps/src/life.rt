//! The steps that matter for a cell that is gone.
use crate::events::Event;
use crate::heap_view::HeapView;
use crate::lines::{Made, Texts, put_step};
use crate::put_event::Names;
use crate::slot_changes::slot_changes;
use items::Items;
use messages::Message;
use moves::Cause;
use replay::{Break, BreakCause};
use std::alloc::{AllocError, Global};
use step_log::{LogStep, StepLog};
use stepping::Gone;

/// How many steps of a cell's life are told at most: its first one, and the last ones.
const LIFE_STEPS: usize = 24;

/// The cell that a cause is about, and from where on its life is told.
#[derive(Clone, Copy)]
pub struct Lost {
    pub cell: u64,
    pub since: Since,
}

/// Which claims of a cell matter.
#[derive(Clone, Copy)]
pub enum Since {
    /// Its last one: the cell is free.
    LastClaim,
    /// Those before as well: the cell was claimed again.
    AnyClaim,
}

/// The cell of a cause; none where an instruction has no meaning.
pub fn lost_by(broken: &Break) -> Option<Lost> {
    match &broken.cause {
        BreakCause::OfStep(Cause::Wrong) => None,
        BreakCause::OfStep(Cause::TouchBlue(cell)) | BreakCause::OfReach(Gone::Blue(cell)) => {
            Some(Lost {
                cell: *cell,
                since: Since::LastClaim,
            })
        }
        BreakCause::OfStep(Cause::TouchBirth(cell)) | BreakCause::OfReach(Gone::Reborn(cell)) => {
            Some(Lost {
                cell: *cell,
                since: Since::AnyClaim,
            })
        }
    }
}

/// Whether a store or a load moves a reference to the cell.
fn moves_reference(heap: &HeapView, event: &Event, lost: u64) -> bool {
    match event {
        Event::Read { cell, word, value } => *value == lost && heap.is_reference(*cell, *word),
        Event::Store {
            cell,
            word,
            value,
            before,
        }
        | Event::StoreLast {
            cell,
            word,
            value,
            before,
        } => (*value == lost || *before == lost) && heap.is_reference(*cell, *word),
        _ => false,
    }
}

/// Whether an event is one of the life of the cell.
fn is_of_life(heap: &HeapView, event: &Event, lost: u64) -> bool {
    match event {
        Event::Claim { cell, .. }
        | Event::Mark { cell, .. }
        | Event::MarkRoot { cell, .. }
        | Event::MarkFound { cell, .. }
        | Event::Blacken { cell }
        | Event::Sweep { cell, .. }
        | Event::Free { cell } => *cell == lost,
        // A thread has handed over its roots.
        Event::Answer(stage) => *stage % 3 == 0,
        _ => moves_reference(heap, event, lost),
    }
}

/// Whether a step puts a reference to the cell into a root slot, or takes it out.
fn changes_slot(log: &StepLog, number: usize, step: &LogStep, lost: &Lost) -> bool {
    match slot_changes(log, number, step) {
        Some(changes) => changes.is_about(lost.cell),
        None => false,
    }
}

/// The lines of a cell's life.
#[derive(Drop)]
pub struct Life {
    lost: Lost,
    /// The line of the first step, and then those of the last ones, each in the place of the oldest of them.
    lines: Items<Vec<u8>>,
    /// How many steps there are.
    count: usize,
}

impl Life {
    pub fn new(alloc: Global, lost: Lost) -> Self {
        Life {
            lost,
            lines: Items::new(alloc),
            count: 0,
        }
    }

    /// The cell.
    pub fn cell(&self) -> u64 {
        self.lost.cell
    }

    /// Adds a step, if it is one of the life or the last one of the run, which has this many.
    pub fn add(
        &mut self,
        names: &Names,
        texts: Texts,
        made: Made,
        count: usize,
    ) -> Result<(), AllocError> {
        if self.begins_with(made.event) {
            self.lines.clear();
            self.count = 0;
        }
        let is_told = is_of_life(names.heap, made.event, self.lost.cell)
            || changes_slot(texts.log, made.number, made.step, &self.lost);
        if is_told || made.number == count {
            let line = line_of(names, texts, made)?;
            self.add_line(line)?;
        }
        Ok(())
    }

    /// Whether what was before an event does not matter.
    fn begins_with(&self, event: &Event) -> bool {
        match (self.lost.since, event) {
            (Since::LastClaim, Event::Claim { cell, .. }) => *cell == self.lost.cell,
            _ => false,
        }
    }

    fn add_line(&mut self, line: Vec<u8>) -> Result<(), AllocError> {
        let at = place_of(self.count);
        self.count = self.count.saturating_add(1);
        if at < self.lines.len() {
            self.lines.set(at, line);
            return Ok(());
        }
        self.lines.push(line)
    }

    /// Writes the lines, the oldest ones first.
    pub fn put(&self, out: &mut Message) {
        let told = self.lines.len();
        for back in 0..told {
            let number = if back == 0 {
                0
            } else {
                self.count.saturating_sub(told).saturating_add(back)
            };
            if let Some(line) = self.lines.get(place_of(number)) {
                out.put_bytes(line.as_slice());
            }
        }
    }
}

/// Where the line of the step with this number of a life stands.
fn place_of(number: usize) -> usize {
    if number < LIFE_STEPS {
        return number;
    }
    (number.saturating_sub(1) % (LIFE_STEPS - 1)).saturating_add(1)
}

/// The line of a step.
fn line_of(names: &Names, texts: Texts, made: Made) -> Result<Vec<u8>, AllocError> {
    let mut line = Message::new(names.alloc);
    put_step(names, &mut line, texts, made);
    line.put("\n");
    line.finish()
}
