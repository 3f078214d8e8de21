ghost use Rattle.std.specs.Prelude.{◌≡◌};
ghost use Rattle.heap_rule.specs.Rule.{HasPlace};

use crate::words::index_of;
use colours::Place;
use heap_rule::Plan;
use std::alloc::Global;
use std::marker::Model;

/// The words of a heap that no actor shares any more.
pub struct ClosedWords<'a> {
    pub(crate) closed: atomic_table::Closed<(), Global>,
    pub(crate) plan: Plan<'a>,
    pub(crate) starts: Vec<usize>,
}

impl<'a> Model for ClosedWords<'a> {
    ghost use Rattle.heap_words.specs.Endings.{Closing};

    ghost Value = { Closing };

    ghost use Rattle.heap_words.specs.ClosedView.{closing_in, IsClosed};

    ghost view = { closing_in };

    ghost invariant = { IsClosed };
}

impl<'a> ClosedWords<'a> {
    ghost use Rattle.heap_words.specs.Endings.{word_at};

    /// What a word of the heap holds at the end.
    pub fn word(&self, place: Place) -> u64
        requires { HasPlace self.now.setup place }
        ensures { result ≡ word_at self.now place }
    {
        self.closed.word(index_of(&self.plan, &self.starts, place))
    }
}

impl<'a> Drop for ClosedWords<'a> {
    fn drop(self) {
        let ClosedWords {
            closed,
            plan: _,
            starts: _,
        } = self;
        closed.free();
    }
}
