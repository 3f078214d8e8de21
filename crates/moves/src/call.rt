use crate::word_value::WordValue;
use pools::LayoutId;

/// What a thread's current instruction asks for. A base is the cell of the globals, as cell 0, or a reference that is not null.
#[derive(Clone, Copy)]
pub enum Call {
    /// One step that touches no shared word.
    Local,
    Read {
        base: WordValue,
        word: u32,
    },
    /// Without the barrier.
    StorePlain {
        base: WordValue,
        word: u32,
        value: WordValue,
    },
    /// After the barrier.
    Write {
        base: WordValue,
        word: u32,
        value: WordValue,
    },
    Alloc(LayoutId),
    Safepoint,
    End,
    /// The instruction has no meaning here.
    Wrong,
}

/// What a call gets back.
#[derive(Clone, Copy)]
pub enum Answer {
    Done,
    /// What was read, or the cell of an alloc.
    Got(WordValue),
    /// Of a safepoint: the stage that the thread answered, if another one was posted.
    Answered(Option<u64>),
}
