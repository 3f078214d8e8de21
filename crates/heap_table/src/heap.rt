ghost use Rattle.std.specs.Prelude.{◌≡◌, ◌≢◌, ◌<◌, ◌≤◌, ◌^◌, ◌⊎◌, ◌∷◌, slice_index};
ghost use Rattle.pools.specs.Heap.{cells};
ghost use Rattle.colours.specs.Colours.{done};
ghost use Rattle.colours.specs.Mutator.{stage_of};
ghost use Rattle.colours.specs.Runs.{ByThread};
ghost use Rattle.heap_rule.specs.View.{OfThread};
ghost use Rattle.heap_rule.specs.Rule.{Happens};
ghost use Rattle.heap_table.specs.Nexts.{IsNext, StoresStage};

use crate::makes::Makes;
use crate::mutator::Mutator;
use colours::{Ask, Place};
use heap_words::SharedWords;
use pools::{LayoutId, Pools};
use std::marker::{Brand, Model};

/// A heap that threads and a collector share. Each call makes its steps one after another, each of them one operation on one
/// word; no call takes a lock, waits, or tries a word again.
#[derive(Drop)]
pub struct Heap<'a> {
    pub(crate) words: SharedWords<'a>,
    pub(crate) pools: &'a Pools,
}

impl<'a> Model for Heap<'a> {
    ghost use Rattle.heap_words.specs.Tokens.{Shared};

    ghost Value = { Shared };

    ghost view = { λ h. h.words };

    ghost use Rattle.heap_table.specs.HeapView.{IsHeap};

    ghost invariant = { IsHeap };
}

impl<'a> Heap<'a> {
    ghost use Rattle.heap_table.specs.Holders.{IsOf, IsNow, IsOfRun};

    /// A heap has few cells.
    pub fn few_cells_law(&self)
        ensures { cells self.now.setup ≤ 2 ^ 20 }
    {
        let _pools = self.pools;
    }

    /// How many cells a layout has.
    pub fn count(&self, layout: LayoutId) -> u32
        ensures { result ≡ slice_index self.now.setup.pools layout }
    {
        self.pools.count(layout)
    }

    /// One step of a thread that leaves its stage. Returns what the word held before; of a store, what was stored.
    #[inline(always)]
    pub(crate) fn step<M: Makes, X: Copy>(&self, me: &mut Mutator, ask: Ask, about: X) -> u64
        requires token { IsOf self.now me.old }
        requires next { IsNext me.old.setup me.old.thread me.old.log M.step ask }
        ensures log { IsNow me.old (M.step result ∷ me.old.log) me.new }
        ensures happens { Happens me.old.setup (OfThread me.old.thread me.old.log) (ByThread me.old.thread (M.step result)) }
        ensures run { IsOfRun me.new }
    {
        let _ = about;
        let thread = me.thread;
        self.words
            .perform::<Brand, usize>(&mut me.token, ask, thread)
    }

    /// One step of a thread that stores a stage as its own.
    #[inline(always)]
    pub(crate) fn store_stage<M: Makes, X: Copy>(&self, me: &mut Mutator, stage: u64, about: X)
        requires token { IsOf self.now me.old }
        requires next { StoresStage me.old.setup me.old.thread me.old.log (M.step stage) stage }
        requires low { stage ≢ done → stage < 2 ^ 62 }
        ensures log { IsNow me.old (M.step stage ∷ me.old.log) me.new }
        ensures run { IsOfRun me.new }
    {
        let _ = about;
        let thread = me.thread;
        let ask = Ask::Store(Place::Stage(thread), stage);
        self.words
            .perform::<Brand, (usize, u64)>(&mut me.token, ask, (thread, stage));
        me.stage = stage;
    }

    /// What a word of references was found to hold, as the number of a cell.
    pub(crate) fn reference(&self, found: u64) -> u32
        requires { (found ≡ 0) ⊎ (found < cells self.now.setup) }
        ensures { result ≡ found }
    {
        self.few_cells_law();
        found as u32
    }
}
