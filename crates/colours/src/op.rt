ghost use Rattle.std.specs.Prelude.{ℕ, ◌≡◌, ◌+◌, ◌<◌, ◌≤◌, ◌^◌, [], ◌∷◌};
ghost use Rattle.colours.specs.Colours.{done};
ghost use Rattle.colours.specs.Steps.{StorePlain, StoreStage};
ghost use Rattle.colours.specs.Calls.{Reading, Replacing, Beginning, Steps, asked, left, after, tries_of, cells_from, IsAnswer};
ghost use Rattle.colours.specs.View.{cells_left, todo_at, HaveNumbers, HasRoom};

use crate::ask::Ask;
use crate::place::Place;
use crate::stage::{DONE, claim_at, is_async, mark_at};
use std::marker::Model;

/// A call of a thread on the heap, one operation at a time.
#[derive(Drop)]
pub struct Op {
    thread: usize,
    stage: u64,
    next: Next,
}

/// A word, and the reference that will be there.
#[derive(Clone, Copy)]
struct Replacement {
    cell: u32,
    word: u32,
    new: u32,
}

/// The cells that are left to try: `more` cells from `next` up, and then `below` cells from the pool's first one up.
#[derive(Clone, Copy)]
struct CellsLeft {
    next: u32,
    more: u32,
    first: u32,
    below: u32,
}

/// The next operation.
#[derive(Clone, Copy)]
enum Next {
    Read(u32, u32),
    StorePlain(u32, u32, u64),
    ReadOld(Replacement),
    MarkOld(u32, Replacement),
    MarkNew(Replacement),
    StoreNew(Replacement),
    /// The cell, and those to try after it.
    Try(u32, CellsLeft),
    ReadPosted,
    /// Stores this stage.
    Enter(u64),
    /// Looks whether this stage is still posted.
    Check(u64),
    StoreDone,
    Nothing,
}

impl Model for Op {
    ghost use Rattle.std.specs.Prelude.{ℕ, ◌<◌, ◌^◌};
    ghost use Rattle.colours.specs.Calls.{Call};

    ghost Value = { Call };

    ghost use Rattle.colours.specs.View.{view_of, HasRoom};

    ghost view = { view_of };

    ghost invariant = { λ op. (op.stage < 2 ^ 62) × HasRoom op.next };
}

impl Op {
    /// The read of a word.
    pub fn read(cell: u32, word: u32) -> Self
        ensures { result ≡ record { thread = 0; stage = 0; todo = Reading cell word } }
    {
        Op {
            thread: 0,
            stage: 0,
            next: Next::Read(cell, word),
        }
    }

    /// The store of an integer, or of a reference into a cell that no other thread knows.
    pub fn store_plain(cell: u32, word: u32, value: u64) -> Self
        ensures { result ≡ record { thread = 0; stage = 0; todo = Steps (StorePlain cell word value ∷ []) } }
    {
        Op {
            thread: 0,
            stage: 0,
            next: Next::StorePlain(cell, word, value),
        }
    }

    /// The store of a reference with the barrier, by a thread at this stage.
    pub fn write(stage: u64, cell: u32, word: u32, new: u32) -> Self
        requires { stage < 2 ^ 62 }
        ensures { result ≡ record { thread = 0; stage = stage; todo = Replacing cell word new } }
    {
        Op {
            thread: 0,
            stage,
            next: Next::ReadOld(Replacement { cell, word, new }),
        }
    }

    /// The search for a free cell, by a thread at this stage, in a pool of `count` cells from `first` up: from the hint
    /// to the pool's end, and then from its first cell up to the hint.
    pub fn alloc(stage: u64, first: u32, count: u32, hint: u32) -> Self
        requires stage { stage < 2 ^ 62 }
        requires cells { first + count < 2 ^ 32 }
        requires hint { hint ≤ count }
        ensures { result ≡ record { thread = 0; stage = stage; todo = tries_of (cells_from first count hint) } }
    {
        Op {
            thread: 0,
            stage,
            next: next_try(CellsLeft {
                next: first + hint,
                more: count - hint,
                first,
                below: hint,
            }),
        }
    }

    /// The try of a late thread to begin.
    pub fn begin(thread: usize) -> Self
        ensures { result ≡ record { thread = thread; stage = 0; todo = Beginning } }
    {
        Op {
            thread,
            stage: 0,
            next: Next::ReadPosted,
        }
    }

    /// The end of a thread.
    pub fn finish(thread: usize) -> Self
        ensures { result ≡ record { thread = thread; stage = 0; todo = Steps (StoreStage done [] ∷ []) } }
    {
        Op {
            thread,
            stage: 0,
            next: Next::StoreDone,
        }
    }

    /// The next operation; None once the call is over.
    pub fn ask(&self) -> Option<Ask>
        ensures { result ≡ asked self.now.thread self.now.stage self.now.todo }
    {
        match self.next {
            Next::Read(cell, word) => Some(Ask::Load(Place::Word(cell, word))),
            Next::StorePlain(cell, word, value) => Some(Ask::Store(Place::Word(cell, word), value)),
            Next::ReadOld(to) => Some(Ask::Load(Place::Word(to.cell, to.word))),
            Next::MarkOld(old, _) => Some(Ask::FetchMax(Place::Colour(old), mark_at(self.stage))),
            Next::MarkNew(to) => Some(Ask::FetchMax(Place::Colour(to.new), mark_at(self.stage))),
            Next::StoreNew(to) => Some(Ask::Store(
                Place::Word(to.cell, to.word),
                u64::from(to.new),
            )),
            Next::Try(cell, _) => Some(Ask::CompareExchange(
                Place::Colour(cell),
                0,
                claim_at(self.stage),
            )),
            Next::ReadPosted | Next::Check(_) => Some(Ask::Load(Place::Posted)),
            Next::Enter(entered) => Some(Ask::Store(Place::Stage(self.thread), entered)),
            Next::StoreDone => Some(Ask::Store(Place::Stage(self.thread), DONE)),
            Next::Nothing => None,
        }
    }

    /// Takes what the word of the operation was before it.
    pub fn took(&mut self, found: u64)
        requires { IsAnswer self.old.todo found }
        ensures { self.new ≡ after self.old found }
    {
        self.next = next_of(self.next, self.stage, found);
    }
}

/// What comes after an operation that found this word.
fn next_of(next: Next, stage: u64, found: u64) -> Next
    requires answer { IsAnswer (todo_at next stage) found }
    requires room { HasRoom next }
    ensures todo { todo_at result stage ≡ left stage (todo_at next stage) found }
    ensures room { HasRoom result }
{
    match next {
        Next::ReadOld(to) if found != 0 => Next::MarkOld(found as u32, to),
        Next::ReadOld(to) | Next::MarkOld(_, to) if to.new != 0 && !is_async(stage) =>
            Next::MarkNew(to),
        Next::ReadOld(to) | Next::MarkOld(_, to) | Next::MarkNew(to) => Next::StoreNew(to),
        Next::Try(_, cells) if found != 0 => next_try(cells),
        Next::ReadPosted => Next::Enter(found),
        Next::Enter(entered) => Next::Check(entered),
        Next::Check(entered) if found != entered => Next::StoreDone,
        _ => Next::Nothing,
    }
}

/// The try of the next cell, if one is left.
fn next_try(cells: CellsLeft) -> Next
    requires { HaveNumbers cells }
    ensures todo { (stage : ℕ) → todo_at result stage ≡ tries_of (cells_left cells) }
    ensures room { HasRoom result }
{
    if cells.more != 0 {
        return Next::Try(
            cells.next,
            CellsLeft {
                next: cells.next + 1,
                more: cells.more - 1,
                ..cells
            },
        );
    }
    if cells.below != 0 {
        return Next::Try(
            cells.first,
            CellsLeft {
                next: cells.first + 1,
                more: cells.below - 1,
                below: 0,
                ..cells
            },
        );
    }
    Next::Nothing
}
