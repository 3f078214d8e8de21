use crate::word_value::WordValue;
use items::Items;

/// Where a thread is in the call that it asks for.
#[derive(Clone, Copy)]
pub enum CallPhase {
    /// Between two calls.
    Ready,
    /// In a barriered store, with the old value to mark.
    MarkingOld {
        cell: u64,
        word: u32,
        old: u64,
    },
    /// The old value is marked, or null.
    MarkingNew {
        cell: u64,
        word: u32,
        old: u64,
    },
    /// The new value is marked too.
    Writing {
        cell: u64,
        word: u32,
        old: u64,
        new: u64,
    },
    /// This number of cells of a pool were tried, each in vain.
    Trying {
        tried: u64,
    },
    /// This stage is posted, and this number of roots that are not null are marked.
    Answering {
        stage: u64,
        marked: usize,
    },
    Ended,
    /// A late thread has not begun.
    Absent,
    /// A late thread has read that this stage is posted.
    Arriving {
        stage: u64,
    },
    /// A late thread has stored that stage as its own.
    Entering,
    /// A late thread has found that another stage was posted meanwhile.
    Leaving,
}

/// A thread: the state of its machine, the stage that it stored last, where it is, and what a write under way has read.
#[derive(Drop)]
pub struct ThreadState<M> {
    pub state: M,
    pub stage: u64,
    pub call_phase: CallPhase,
    pub replaced: WordValue,
    /// For each layout, the place in its pool after the cell that the thread won last; at first 0. Tries begin there.
    pub hints: Items<u32>,
}
