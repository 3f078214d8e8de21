/// Where a thread is, without the cells that it tried and the roots that it marked.
#[derive(Clone, Copy)]
pub enum At {
    /// Between two calls.
    Ready,
    /// In a barriered store, with the old value to mark: the cell, the word, the old value.
    MarkingOld(u32, u32, u64),
    /// The old value is marked, or null.
    MarkingNew(u32, u32, u64),
    /// The new value is marked too: the cell, the word, the old value, the new one.
    Writing(u32, u32, u64, u64),
    /// Each try so far was lost.
    Trying,
    /// Another stage is posted, this one.
    Answering(u64),
    Ended,
    /// A late thread has not begun.
    Absent,
    /// It read this stage.
    Arriving(u64),
    /// And stored it.
    Entering,
    /// Another stage was posted meanwhile.
    Leaving,
}
