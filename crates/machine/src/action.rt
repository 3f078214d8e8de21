ghost use Rattle.std.specs.Prelude.{◌≡◌};
ghost use Rattle.machine.specs.Asks.{only_if};

use crate::value::{Reference, Value};
use pools::LayoutId;

/// What the instruction at which a thread is asks for.
#[derive(Clone, Copy)]
pub enum Action {
    /// One step that touches no shared word.
    Local,
    /// A number of this number of bits, from outside of the program.
    Foreign {
        bits: u32,
    },
    /// What this word of a cell holds.
    Read {
        at: Reference,
        word: u32,
    },
    /// This reference, or null, is put into a word of a cell, with the barrier.
    Write {
        at: Reference,
        word: u32,
        value: Value,
    },
    /// This value is put into a word of a cell, without the barrier.
    StorePlain {
        at: Reference,
        word: u32,
        value: Value,
    },
    /// A cell of this layout.
    Alloc(LayoutId),
    /// Whether a stage was posted that the thread has to answer.
    Safepoint,
    /// The thread ends.
    End,
    /// The instruction has no meaning here.
    Wrong,
}

/// Where a condition fails, an instruction has no meaning.
pub(crate) fn only_if(condition: bool, action: Action) -> Action
    ensures { result ≡ only_if condition action }
{
    if condition { action } else { Action::Wrong }
}
