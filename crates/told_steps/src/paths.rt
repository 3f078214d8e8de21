//! The path of references that leads from a global or a root slot to a cell.
use crate::heap_view::HeapView;
use crate::put_event::Names;
use ir_ast::{Function, ValueId};
use items::Items;
use messages::Message;
use name_text::Blank;
use pools::WordKind;
use shadow_stack::{SlotId, Slots, slots_of};
use std::alloc::{AllocError, Global};
use step_log::{FrameNote, StepLog};

/// From where a cell was reached first.
#[derive(Clone, Copy)]
pub enum Hop {
    /// From this root slot of the frame of this note.
    Slot { note: usize, root: usize },
    /// From this word of this cell. Cell 0 is that of the globals.
    Word { cell: u64, word: u32 },
}

/// A walk from the roots, with the way by which each cell was reached.
#[derive(Drop)]
struct Search {
    ways: Items<Option<Hop>>,
    /// The cells that were reached, in order.
    order: Items<u64>,
}

impl Search {
    fn new(alloc: Global, cells: u32) -> Result<Self, AllocError> {
        let ways: Vec<Option<Hop>> = vec![in alloc; None; cells as usize]?;
        Ok(Search {
            ways: Items::from_vec(ways),
            order: Items::new(alloc),
        })
    }

    /// A reference to a cell was found there.
    fn meet(&mut self, cell: u64, hop: Hop) -> Result<(), AllocError> {
        if cell == 0 || (cell as usize) >= self.ways.len() {
            return Ok(());
        }
        if let Some(Some(_)) = self.ways.get(cell as usize) {
            return Ok(());
        }
        self.ways.set(cell as usize, Some(hop));
        self.order.push(cell)
    }

    /// What the reference words of a cell refer to.
    fn look_into(&mut self, heap: &HeapView, cell: u64) -> Result<(), AllocError> {
        for (word, kind) in heap.kinds(cell).iter().enumerate() {
            if let WordKind::Reference(_) = kind {
                let Ok(word) = u32::try_from(word) else {
                    return Ok(());
                };
                self.meet(heap.word(cell, word), Hop::Word { cell, word })?;
            }
        }
        Ok(())
    }

    /// What the root slots of the frame of a note refer to.
    fn look_at(&mut self, log: &StepLog, at: usize, note: &FrameNote) -> Result<(), AllocError> {
        for root in 0..note.roots {
            if let Some(cell) = log.cell(note, root) {
                self.meet(u64::from(cell), Hop::Slot { note: at, root })?;
            }
        }
        Ok(())
    }

    /// What the root slots of the frames of these notes refer to.
    fn look_at_notes(&mut self, log: &StepLog, places: &Items<usize>) -> Result<(), AllocError> {
        for at in places.as_slice() {
            if let Some(note) = log.note(*at) {
                self.look_at(log, *at, note)?;
            }
        }
        Ok(())
    }

    /// What the root slots of all frames refer to, those of a thread's newest frame first.
    fn look_at_frames(&mut self, alloc: Global, log: &StepLog) -> Result<(), AllocError> {
        let places = log.frames_under_way(alloc)?;
        let looked = self.look_at_notes(log, &places);
        drop(places);
        looked
    }

    /// All that those cells lead to which were reached so far.
    fn go_on(&mut self, heap: &HeapView) -> Result<(), AllocError> {
        for at in 0..heap.cells() {
            let Some(cell) = self.order.get(at as usize).copied() else {
                return Ok(());
            };
            self.look_into(heap, cell)?;
        }
        Ok(())
    }
}

/// The hops of a shortest path to a cell, the last one first; none where nothing leads to it.
pub fn path_to(
    alloc: Global,
    heap: &HeapView,
    log: &StepLog,
    target: u64,
) -> Result<Items<Hop>, AllocError> {
    let mut search = Search::new(alloc, heap.cells())?;
    search.look_at_frames(alloc, log)?;
    search.look_into(heap, 0)?;
    search.go_on(heap)?;
    let mut path = Items::new(alloc);
    let mut cell = target;
    for _hop in 0..heap.cells() {
        let Some(Some(hop)) = search.ways.get(cell as usize) else {
            return Ok(path);
        };
        path.push(*hop)?;
        match hop {
            Hop::Word { cell: from, .. } => cell = *from,
            Hop::Slot { .. } => cell = 0,
        }
    }
    Ok(path)
}

/// The first name of a slot.
fn name_of_slot(function: &Function, slots: &Slots, slot: SlotId) -> Option<ValueId> {
    for number in 0..function.locals.count() {
        let value = ValueId::new(number as u32);
        if let Some(named) = slots.slot_of(value) {
            if named.number() == slot.number() {
                return Some(value);
            }
        }
    }
    None
}

/// The first name of a root slot, by its place among the root slots.
fn name_of_root(function: &Function, slots: &Slots, root: usize) -> Option<ValueId> {
    let slot = slots.root_slots().get(root).copied()?;
    name_of_slot(function, slots, slot)
}

/// The name of a root slot of a function, by its place among the root slots.
pub fn put_root_name(names: &Names, out: &mut Message, function: &Function, root: usize) {
    let Ok(slots) = slots_of(names.alloc, names.module, function) else {
        return out.refuse();
    };
    let named = name_of_root(function, &slots, root);
    drop(slots);
    match named {
        Some(value) => out.put_local(&function.locals, value, Blank::Kept),
        None => {}
    }
}

/// `slot %s of thread 0, frame @swap`
fn put_slot(names: &Names, out: &mut Message, note: &FrameNote, root: usize) {
    let Some(function) = names.module.functions.get(note.function.number() as usize) else {
        return;
    };
    out.put("slot ");
    put_root_name(names, out, function, root);
    out.put(" of thread ");
    out.put_number(u64::from(note.thread));
    out.put(", frame ");
    out.put_global(names.module, function.symbol, Blank::Kept)
}

/// From where a hop leads: a root, or a word of the cell before.
fn put_hop(names: &Names, out: &mut Message, log: &StepLog, hop: &Hop) {
    match hop {
        Hop::Slot { note, root } => match log.note(*note) {
            Some(note) => put_slot(names, out, note, *root),
            None => {}
        },
        Hop::Word { cell: 0, word } => names.put_word(out, 0, *word),
        Hop::Word { word, .. } => {
            out.put(" word ");
            out.put_number(u64::from(*word))
        }
    }
}

/// The cell from whose word the hop at this place of a path leads on; past the last hop it is the target.
fn cell_before(path: &Items<Hop>, at: usize, target: u64) -> u64 {
    match path.get(at) {
        Some(Hop::Word { cell, .. }) => *cell,
        _ => target,
    }
}

/// A path: `@top -> cell 2 word 1 -> cell 3`.
pub fn put_path_to(
    names: &Names,
    out: &mut Message,
    log: &StepLog,
    path: &Items<Hop>,
    target: u64,
) {
    let count = path.len();
    for back in 0..count {
        let at = count.saturating_sub(back).saturating_sub(1);
        if let Some(hop) = path.get(at) {
            put_hop(names, out, log, hop);
            out.put(" -> ");
            let to = if at == 0 {
                target
            } else {
                cell_before(path, at.saturating_sub(1), target)
            };
            names.put_cell(out, to);
        }
    }
}
