ghost use Rattle.std.specs.Prelude.{◌≡◌, ◌<◌, ◌≤◌, ◌^◌, ◌↔◌, [], length, slice_get, IfOk, IsTrue, All};
ghost use Rattle.pools.specs.Heap.{IsSetup, cells, kind_of, words_of_cell};
ghost use Rattle.pools.specs.Layouts.{is_reference_kind};
ghost use Rattle.colours.specs.Steps.{place_of};
ghost use Rattle.heap_rule.specs.Rule.{HasPlace, index, size};
ghost use Rattle.heap_words.specs.Places.{AreStarts};
ghost use Rattle.run_words.specs.Words.{AreAfter, Extends, performed, word_in, left_in};

use crate::opening::{is_small, opening_words, starts_of};
use colours::{Ask, Place};
use heap_rule::Plan;
use pools::WordKind;
use std::alloc::{AllocError, Global};
use std::marker::Model;

/// The words of a heap: the posted stage, the stages of the threads, and the colour and the words of each cell.
#[derive(Drop)]
pub struct RunWords<'a> {
    plan: &'a Plan<'a>,
    table: Vec<u64>,
    /// Where each cell begins, and where the table ends.
    starts: Vec<usize>,
}

impl<'a> Model for RunWords<'a> {
    ghost use Rattle.run_words.specs.Words.{Words};

    ghost Value = { Words };

    ghost use Rattle.run_words.specs.View.{words_in, IsKept};

    ghost view = { words_in };

    ghost invariant = { IsKept };
}

impl<'a> RunWords<'a> {
    /// The words before the first step. They take 8 bytes each, and 8 bytes more for each cell.
    pub fn new(alloc: Global, plan: &'a Plan<'a>) -> Result<Self, AllocError>
        requires setup { IsSetup plan.now }
        requires threads { plan.now.threads < 2 ^ 32 }
        requires globals { length plan.now.globals < 2 ^ 32 }
        requires words { All (λ words. length words < 2 ^ 32) plan.now.layouts }
        ensures { IfOk result (AreAfter plan.now []) }
    {
        is_small(plan);
        let starts = starts_of(alloc, plan)?;
        let table = opening_words(alloc, plan, starts[plan.pools.cells() as usize])?;
        Ok(RunWords {
            plan,
            table,
            starts,
        })
    }

    /// Whether there is such a word.
    pub fn has(&self, place: Place) -> bool
        ensures { IsTrue result ↔ HasPlace self.now.heap place }
    {
        let plan = self.plan;
        match place {
            Place::Posted => true,
            Place::Stage(thread) => thread < plan.threads,
            Place::Colour(cell) => cell < plan.pools.cells(),
            Place::Word(cell, word) => self.has_word(cell, word),
        }
    }

    /// Whether a cell is there and has this word.
    fn has_word(&self, cell: u32, word: u32) -> bool
        ensures { IsTrue result ↔ ((cell < cells self.now.heap) × (word < length (words_of_cell self.now.heap cell))) }
    {
        let plan = self.plan;
        if cell >= plan.pools.cells() {
            return false;
        }
        (word as usize) < self.words(cell).len()
    }

    /// The kinds of a cell's words.
    fn words(&self, cell: u32) -> &[WordKind]
        requires { cell < cells self.now.heap }
        ensures { result.now ≡ words_of_cell self.now.heap cell }
    {
        let plan = self.plan;
        if cell == 0 {
            return plan.globals;
        }
        plan.layouts.words(plan.pools.pool_of(cell))
    }

    /// What a word holds.
    pub fn word(&self, place: Place) -> u64
        requires { HasPlace self.now.heap place }
        ensures { result ≡ word_in self.now place }
    {
        self.table[index_of(self.plan, &self.starts, place)]
    }

    /// Performs an operation.
    pub fn perform(&mut self, ask: Ask)
        requires { HasPlace self.old.heap (place_of ask) }
        ensures performed { self.new ≡ performed ask self.old }
        ensures extends { Extends ask self.old self.new }
    {
        let _words = self.table.len();
        self.put(ask);
    }

    fn put(&mut self, ask: Ask)
        requires { HasPlace self.old.heap (place_of ask) }
        ensures { self.new ≡ performed ask self.old }
    {
        let at = index_of(self.plan, &self.starts, place_of(ask));
        let word = left_in(ask, self.table[at]);
        self.table[at] = word;
    }

    /// How many cells there are, that of the globals among them.
    pub fn cells(&self) -> u32
        ensures cells { result ≡ cells self.now.heap }
        ensures limit { cells self.now.heap ≤ 2 ^ 20 }
    {
        let plan = self.plan;
        plan.pools.cells()
    }

    /// Whether a word of a cell is there and holds references.
    pub fn is_reference(&self, cell: u32, word: u32) -> bool
        requires { cell < cells self.now.heap }
        ensures { result ≡ is_reference_kind (kind_of self.now.heap cell word) }
    {
        matches!(self.kind(cell, word), Some(WordKind::Reference(_)))
    }

    /// What a word of a cell holds; None outside the cell.
    pub fn kind(&self, cell: u32, word: u32) -> Option<WordKind>
        requires { cell < cells self.now.heap }
        ensures { result ≡ kind_of self.now.heap cell word }
    {
        kind_at(self.words(cell), word)
    }
}

/// What this word of a cell holds, by the kinds of its words.
fn kind_at(words: &[WordKind], word: u32) -> Option<WordKind>
    ensures { result ≡ slice_get words.now word }
{
    words.get(word as usize).copied()
}

/// The word of an operation.
fn place_of(ask: Ask) -> Place
    ensures { result ≡ place_of ask }
{
    match ask {
        Ask::Load(place)
        | Ask::Store(place, _)
        | Ask::FetchMax(place, _)
        | Ask::CompareExchange(place, _, _) => place,
    }
}

/// What an operation leaves in its word, which held this number.
fn left_in(ask: Ask, found: u64) -> u64
    ensures { result ≡ left_in ask found }
{
    match ask {
        Ask::Load(_) => found,
        Ask::Store(_, value) => value,
        Ask::FetchMax(_, value) => found.max(value),
        Ask::CompareExchange(_, old, new) => if found == old { new } else { found },
    }
}

/// Where a word lies in the table, by where each cell begins. The plan is for the contract alone.
fn index_of(_plan: &Plan<'_>, starts: &Vec<usize>, place: Place) -> usize
    requires starts { AreStarts _plan.now starts.now.items }
    requires small { size _plan.now < 2 ^ 63 }
    requires place { HasPlace _plan.now place }
    ensures place { result ≡ index _plan.now place }
    ensures within { result < size _plan.now }
{
    match place {
        Place::Posted => 0,
        Place::Stage(thread) => thread + 1,
        Place::Colour(cell) => starts[cell as usize],
        Place::Word(cell, word) => starts[cell as usize] + word as usize + 1,
    }
}
