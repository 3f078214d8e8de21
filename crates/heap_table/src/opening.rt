ghost use Rattle.std.specs.Prelude.{◌≡◌, ◌<◌, ◌^◌, [], length, IfOk, All};
ghost use Rattle.pools.specs.Heap.{IsSetup};
ghost use Rattle.heap_rule.specs.View.{OfThread};
ghost use Rattle.heap_table.specs.Sweepers.{IsSweeperOf};
ghost use Rattle.heap_table.specs.Opening.{fresh_holder, AreNew};

use crate::heap::Heap;
use crate::mutator::Mutator;
use crate::sweeper::Sweeper;
use heap_rule::Plan;
use heap_words::{ActorToken, SharedWords};
use items::Items;
use std::alloc::{AllocError, Global};
use trace_sweep::Collector;

impl<'a> Heap<'a> {
    /// A heap that is set up so, with a token for each thread, in their order, and one for the collector. No other call takes
    /// memory.
    pub fn new(
        alloc: Global,
        plan: Plan<'a>,
    ) -> Result<(Heap<'a>, Vec<Mutator>, Sweeper<'a>), AllocError>
        requires setup { IsSetup plan }
        requires threads { plan.threads < 2 ^ 32 }
        requires globals { length plan.globals < 2 ^ 32 }
        requires words { All (λ words. length words < 2 ^ 32) plan.layouts }
        ensures heap { IfOk result (λ m. m.0.setup ≡ plan.entry) }
        ensures mutators { IfOk result (λ m. (length m.1.items ≡ plan.entry.threads) × AreNew m.0 0 m.1.items) }
        ensures sweeper { IfOk result (λ m. IsSweeperOf m.0 m.2 × (m.2.log ≡ [])) }
    {
        let threads = plan.threads;
        let pools = plan.pools;
        let _cells = pools.cells();
        let layouts = plan.layouts.count();
        let mut mutators = Vec::with_capacity(alloc, threads)?;
        let collector = Collector::new(pools, plan.layouts, plan.globals, threads);
        let (words, mut tokens, token) = SharedWords::new(alloc, plan)?;
        let heap = Heap { words, pools };
        let sweeper = Sweeper { token, collector };
        while let Some(token) = tokens.pop() {
            let hints = no_hints(alloc, layouts)?;
            let mutator = of_token(token, tokens.len(), hints);
            mutators.insert(0, mutator)?;
        }
        Ok((heap, mutators, sweeper))
    }
}

/// The token of a thread that has made no step.
fn of_token(token: ActorToken, thread: usize, hints: Items<u32>) -> Mutator
    requires setup { IsSetup token.setup }
    requires share { token.share ≡ OfThread thread [] }
    requires number { thread < token.setup.threads }
    ensures { result ≡ fresh_holder token thread }
{
    Mutator {
        token,
        thread,
        stage: 0,
        hints,
    }
}

/// How many hints there is room for at least. They fill two cache lines of most processors, so no two threads write theirs to one.
const ROOM_FOR_HINTS: usize = 32;

/// For each layout, that tries begin at its pool's first cell.
fn no_hints(alloc: Global, layouts: usize) -> Result<Items<u32>, AllocError> {
    let mut hints = Vec::with_capacity(alloc, layouts.max(ROOM_FOR_HINTS))?;
    for _ in 0..layouts {
        hints.push(0)?;
    }
    Ok(Items::from_vec(hints))
}
