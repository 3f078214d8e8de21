ghost use Rattle.std.specs.Prelude.{◌≡◌, ◌+◌, ◌≤◌, ◌^◌, ◌∷◌, IfSome, IfNone};
ghost use Rattle.colours.specs.Colours.{cycle_of};
ghost use Rattle.colours.specs.Collector.{Posting, posted_of, Collects};
ghost use Rattle.colours.specs.Runs.{ByCollector};
ghost use Rattle.heap_rule.specs.View.{OfCollector};
ghost use Rattle.heap_rule.specs.Rule.{Happens};

use crate::heap::Heap;
use colours::Turn;
use heap_words::ActorToken;
use std::marker::{Brand, Model};
use trace_sweep::Collector;

/// The collector's token. Contracts see its log: the steps that the collector has made, which are its share of the heap's run.
#[derive(Drop)]
pub struct Sweeper<'a> {
    pub(crate) token: ActorToken,
    pub(crate) collector: Collector<'a>,
}

impl<'a> Model for Sweeper<'a> {
    ghost use Rattle.heap_table.specs.Sweepers.{SweeperLog};

    ghost Value = { SweeperLog };

    ghost use Rattle.heap_table.specs.SweeperView.{sweeper_log, IsSweeper};

    ghost view = { sweeper_log };

    ghost invariant = { IsSweeper };
}

impl<'a> Sweeper<'a> {
    ghost use Rattle.trace_sweep.specs.Cycles.{HasSwept};
    ghost use Rattle.heap_table.specs.Sweepers.{IsSweeperOf, IsNowAt};

    /// Makes the collector's next step, and returns it; None where no further cycle may begin. The three handshakes, and a trace
    /// that ends after a pass without grey, are from Doligez and Gonthier (POPL 1994). The steps of one word each, the looks out
    /// of turn, and colours that grow with the cycle are this project's own.
    pub fn turn(&mut self, heap: &Heap<'_>) -> Option<Turn>
        requires token { IsSweeperOf heap.now self.old }
        ensures token { IsSweeperOf heap.now self.new }
        ensures log { IfSome result (λ turn. IsNowAt self.old (turn ∷ self.old.log) self.new) }
        // It is a step of a run in which the log was the collector's share.
        ensures happens { IfSome result (λ turn. Happens self.old.setup (OfCollector self.old.log) (ByCollector turn)) }
        // There is none where the next stage would be one past the last cycle, and the collector is where it is posted.
        ensures limit { IfNone result ((self.new ≡ self.old) × Collects self.old.setup self.old.log Posting × (2 ^ 60 ≤ cycle_of (posted_of self.old.log + 1))) }
    {
        let ask = self.collector.ask()?;
        let collector = &self.collector;
        let found = heap
            .words
            .perform::<Brand, &Collector<'a>>(&mut self.token, ask, collector);
        let turn = self.collector.took(found);
        Some(turn)
    }

    /// How many sweeps have looked at their last cell; without cells, how many traces have ended.
    pub fn cycles(&self) -> u64
        ensures { HasSwept self.now.setup self.now.log result }
    {
        self.collector.cycles()
    }
}
