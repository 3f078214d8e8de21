use crate::word_value::WordValue;

/// A step of a thread: a local one, or one on the heap with its references.
#[derive(Clone, Copy)]
pub enum Move {
    /// A local step.
    Works,
    /// The step of a thread at an instruction that has no meaning.
    GoesWrong,
    ReadsWord {
        base: WordValue,
        word: u32,
        value: WordValue,
    },
    /// Reads what a barriered store will replace.
    ReadsOldValue {
        base: WordValue,
        word: u32,
        value: WordValue,
    },
    Marks(WordValue),
    StoresAfterBarrier {
        base: WordValue,
        word: u32,
        value: WordValue,
    },
    StoresPlain {
        base: WordValue,
        word: u32,
        value: WordValue,
    },
    /// Tries to take a free cell; the reference has the birth that the claim gives.
    Claims {
        claimed: WordValue,
        won: bool,
    },
    ReadsPosted(u64),
    /// Stores the posted stage as its own, with the roots of its frames.
    Answers(u64),
    /// Stores that it has ended, or that it has not begun after all.
    Ends,
    /// A late thread reads the posted stage, to begin at it.
    ReadsPostedFirst(u64),
    /// A late thread stores that stage as its own.
    EntersStage(u64),
    /// A late thread reads the posted stage again.
    ReadsPostedAgain(u64),
}
