ghost use Rattle.std.specs.Prelude.{◌≡◌, ◌≢◌, slice_index};
ghost use Rattle.colours.specs.Colours.{done};
ghost use Rattle.colours.specs.Mutator.{stage_of};
ghost use Rattle.heap_table.specs.Holders.{IsOfRun};

use heap_words::ActorToken;
use items::Items;
use pools::LayoutId;
use std::marker::Model;

/// A thread's token. Contracts see its log: the steps that the thread has made, which are its share of the heap's run.
#[derive(Drop)]
pub struct Mutator {
    pub(crate) token: ActorToken,
    pub(crate) thread: usize,
    /// The stage that the thread stored last.
    pub(crate) stage: u64,
    /// For each layout, the place in its pool after the cell that the thread won last; at first 0. Tries begin there.
    pub(crate) hints: Items<u32>,
}

impl Model for Mutator {
    ghost use Rattle.heap_table.specs.Holders.{Holder};

    ghost Value = { Holder };

    ghost use Rattle.heap_table.specs.MutatorView.{holder_of, IsMutator};

    ghost view = { holder_of };

    ghost invariant = { IsMutator };
}

impl Mutator {
    /// The log is the thread's share of a run of the heap, and each result in it is a possible one. This is so of every token.
    pub fn is_of_run_law(&self)
        ensures { IsOfRun self.now }
    {
        let _thread = self.thread;
    }

    /// The stage that the thread stored last.
    pub fn stage(&self) -> u64
        requires { stage_of self.now.log ≢ done }
        ensures { result ≡ stage_of self.now.log }
    {
        self.stage
    }

    /// Where the thread begins its tries for a cell of this layout.
    pub(crate) fn hint(&self, layout: LayoutId) -> u32 {
        self.hints
            .get(layout.number() as usize)
            .copied()
            .unwrap_or(0)
    }

    /// Begins the next tries for a cell of this layout there.
    pub(crate) fn set_hint(&mut self, layout: LayoutId, place: u32)
        ensures { self.new ≡ self.old }
    {
        let layout = layout.number() as usize;
        if layout < self.hints.len() {
            self.hints.set(layout, place);
        }
    }
}
