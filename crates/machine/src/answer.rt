use crate::value::Reference;

/// What an action is answered with.
#[derive(Clone, Copy)]
pub enum Answer {
    /// The step is done; of a safepoint, nothing new was posted.
    Done,
    /// Of a safepoint: a stage was posted, and the thread answered it.
    Answered,
    /// The word that was read holds this number.
    Number(u64),
    /// The word that was read holds null, or no cell was found for an alloc.
    Null,
    /// The word that was read refers to this cell, or an alloc claimed it.
    Cell(Reference),
}
