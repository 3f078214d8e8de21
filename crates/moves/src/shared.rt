ghost use Rattle.std.specs.Prelude.{◌≡◌, ◌<◌, length, slice_set, slice_index};
ghost use Rattle.moves.specs.Shared.{CanHold, CanTake, with_move, with_number};

use crate::cell_words::CellWords;
use crate::moves::Move;
use crate::word_value::WordValue;
use colours::{DONE, Place, claim_at, mark_at};
use items::Items;
use trace_sweep::Words;

/// The words that all actors share, with the births of cells and of the references in words.
#[derive(Drop)]
pub struct Shared {
    /// The stage that was posted last.
    pub posted: u64,
    /// The stage word of each thread.
    pub stages: Items<u64>,
    /// The colour word of each cell.
    pub colours: Items<u64>,
    /// How often each cell was claimed.
    pub births: Items<u64>,
    /// The words of each cell.
    pub words: CellWords,
}

impl Words for Shared {
    ghost use Rattle.moves.specs.Shared.{held_at};

    ghost word_at = { held_at };

    fn look(&self, place: Place) -> u64 {
        match place {
            Place::Posted => self.posted,
            Place::Stage(thread) => number_at(self.stages.as_slice(), thread),
            Place::Colour(cell) => number_at(self.colours.as_slice(), cell as usize),
            Place::Word(cell, word) => self.words.word(u64::from(cell), word).cell,
        }
    }
}

impl Shared {
    /// The colour word of a cell.
    pub fn colour(&self, cell: u64) -> u64
        ensures { result ≡ slice_index self.now.colours cell }
    {
        number_at(self.colours.as_slice(), cell as usize)
    }

    /// How often a cell was claimed.
    pub fn birth(&self, cell: u64) -> u64
        ensures { result ≡ slice_index self.now.births cell }
    {
        number_at(self.births.as_slice(), cell as usize)
    }

    /// Puts a number into a place: into a word of a cell with birth 0.
    pub fn put(&mut self, place: Place, number: u64)
        requires { CanHold self.old place }
        ensures { self.new ≡ with_number self.old place number }
    {
        match place {
            Place::Posted => {
                self.posted = number;
            }
            Place::Stage(thread) => {
                self.stages.set(thread, number);
            }
            Place::Colour(cell) => {
                self.colours.set(cell as usize, number);
            }
            Place::Word(cell, word) => {
                self.words.put(
                    u64::from(cell),
                    word,
                    WordValue {
                        cell: number,
                        birth: 0,
                    },
                );
            }
        }
    }

    /// A thread at this stage makes a move.
    pub fn apply(&mut self, thread: usize, stage: u64, made: &Move)
        requires { CanTake self.old thread stage made.now }
        ensures { self.new ≡ with_move self.old thread stage made.now }
    {
        match made {
            Move::StoresAfterBarrier { base, word, value }
            | Move::StoresPlain { base, word, value } => {
                self.words.put(base.cell, *word, *value);
            }
            Move::Marks(marked) => {
                let raised = self.colour(marked.cell).max(mark_at(stage));
                self.colours.set(marked.cell as usize, raised);
            }
            Move::Claims { claimed, won } if *won => {
                self.colours.set(claimed.cell as usize, claim_at(stage));
                self.births.set(claimed.cell as usize, claimed.birth);
            }
            Move::Answers(posted) | Move::EntersStage(posted) => {
                self.stages.set(thread, *posted);
            }
            Move::Ends => {
                self.stages.set(thread, DONE);
            }
            _ => {}
        }
    }
}

/// The number at this place; 0 outside the list.
fn number_at(numbers: &[u64], at: usize) -> u64
    ensures { result ≡ slice_index numbers.now at }
{
    numbers.get(at).copied().unwrap_or(0)
}
