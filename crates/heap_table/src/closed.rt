ghost use Rattle.std.specs.Prelude.{◌≡◌, ◌<◌, length};
ghost use Rattle.pools.specs.Heap.{cells, words_of_cell};
ghost use Rattle.colours.specs.declared.place.Place.TheVariants.{Posted, Stage, Colour, Word};
ghost use Rattle.heap_rule.specs.View.{OfThread, OfCollector};
ghost use Rattle.heap_table.specs.Sweepers.{IsSweeperOf};
ghost use Rattle.heap_table.specs.Closing.{AreOf, EndsSo};

use crate::heap::Heap;
use crate::mutator::Mutator;
use crate::sweeper::Sweeper;
use colours::Place;
use heap_words::{ActorToken, ClosedWords};
use std::marker::Model;

/// The words of a heap that nobody shares any more.
#[derive(Drop)]
pub struct Closed<'a> {
    words: ClosedWords<'a>,
}

impl<'a> Model for Closed<'a> {
    ghost use Rattle.heap_words.specs.Endings.{Closing};

    ghost Value = { Closing };

    ghost view = { λ closed. closed.words };
}

impl<'a> Heap<'a> {
    /// Gives back the words, at the end of the run whose shares the tokens logged. Tokens may be missing: nothing is said then of
    /// what their threads did. It takes no memory and can't fail.
    pub fn close(self, mut mutators: Vec<Mutator>, sweeper: Sweeper<'_>) -> Closed<'a>
        requires mutators { AreOf self mutators.items }
        requires sweeper { IsSweeperOf self sweeper }
        ensures setup { result.setup ≡ self.entry.setup }
        ensures run { EndsSo self.entry.setup mutators.items sweeper.entry result }
    {
        let Heap { words, pools: _ } = self;
        let mut ending = words.end(sweeper.into_token());
        while let Some(mutator) = mutators.pop() {
            ending.take_back(mutator.into_token());
        }
        Closed {
            words: ending.close(),
        }
    }
}

impl<'a> Closed<'a> {
    ghost use Rattle.heap_words.specs.Endings.{word_at};

    /// The stage that was posted last.
    pub fn posted(&self) -> u64
        ensures { result ≡ word_at self.now Posted }
    {
        self.words.word(Place::Posted)
    }

    /// The stage word of a thread.
    pub fn stage(&self, thread: usize) -> u64
        requires { thread < self.now.setup.threads }
        ensures { result ≡ word_at self.now (Stage thread) }
    {
        self.words.word(Place::Stage(thread))
    }

    /// The colour word of a cell.
    pub fn colour(&self, cell: u32) -> u64
        requires { cell < cells self.now.setup }
        ensures { result ≡ word_at self.now (Colour cell) }
    {
        self.words.word(Place::Colour(cell))
    }

    /// A word of a cell.
    pub fn word(&self, cell: u32, word: u32) -> u64
        requires cell { cell < cells self.now.setup }
        requires word { word < length (words_of_cell self.now.setup cell) }
        ensures { result ≡ word_at self.now (Word cell word) }
    {
        self.words.word(Place::Word(cell, word))
    }
}

impl Mutator {
    fn into_token(self) -> ActorToken
        ensures { result ≡ record { table = self.table; setup = self.setup; share = OfThread self.thread self.log } }
    {
        let Mutator {
            token,
            thread: _,
            stage: _,
            hints: _,
        } = self;
        token
    }
}

impl<'a> Sweeper<'a> {
    fn into_token(self) -> ActorToken
        ensures { result ≡ record { table = self.entry.table; setup = self.entry.setup; share = OfCollector self.entry.log } }
    {
        let Sweeper {
            token,
            collector: _,
        } = self;
        token
    }
}
