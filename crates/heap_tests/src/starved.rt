//! A thread that finds no memory for a list of its roots, beside the collector.
ghost use Rattle.std.specs.Prelude.{◌≡◌, ◌<◌, [], ◌∷◌, length};
ghost use Rattle.heap_table.specs.Holders.{MayCall};
ghost use Rattle.heap_table.specs.Sweepers.{IsSweeperOf};

use crate::opening::{ground, no_globals, open_for_one};
use crate::steps::turn_on;
use heap_table::{Heap, Mutator, Sweeper};
use moves::{Answer, Call, RootsAfter, Runner, WordValue};
use pools::{Layouts, Pools};
use runs::Machine;
use serving::{ServingEnd, serve};
use std::alloc::{AllocError, Global};

/// A thread that asks for one safepoint after another. There is no memory for a list of its roots.
#[derive(Drop)]
struct Starved {}

impl Machine for Starved {
    ghost use Rattle.heap_tests.specs.Rootless.{asks, goes_on, names};

    ghost action = { asks };

    ghost after_answer = { goes_on };

    ghost roots = { names };
}

impl Runner for Starved {
    ghost use Rattle.heap_tests.specs.Rootless.{names, Fits, keeps_kinds, keeps_roots};

    ghost fits = { λ s state. Fits s state };

    ghost newest = { names };

    ghost keeps_kinds = { keeps_kinds };

    ghost keeps_roots = { keeps_roots };

    fn call(&self) -> Call {
        Call::Safepoint
    }

    fn root_references(&self) -> Result<Vec<WordValue>, AllocError> {
        Err(AllocError)
    }

    fn newest_roots(&self) -> Result<Vec<WordValue>, AllocError> {
        Err(AllocError)
    }

    fn answer(&mut self, _answer: Answer) -> Result<RootsAfter, AllocError> {
        Ok(RootsAfter::Same)
    }
}

/// Whether such a thread ends without memory while a stage is posted, and whether the collector sweeps on after it.
fn starve(
    alloc: Global,
    heap: &Heap<'_>,
    me: &mut Mutator,
    sweeper: &mut Sweeper<'_>,
) -> (bool, bool)
    requires token { MayCall heap.now me.old }
    requires first { me.old.log ≡ [] }
    requires sweeper { IsSweeperOf heap.now sweeper.old }
{
    turn_on(heap, sweeper, 1);
    let end = serve(alloc, heap, me, &mut Starved {}, false, 10);
    turn_on(heap, sweeper, 100);
    (matches!(end, ServingEnd::Memory), sweeper.cycles() > 0)
}

/// Does this on a new heap.
fn starved_anew(alloc: Global, layouts: &Layouts, pools: &Pools) -> Option<(bool, bool)>
    requires layouts { layouts.now ≡ [] ∷ [] }
    requires pools { 0 < length pools.now }
{
    let globals = no_globals();
    let (heap, mut me, mut sweeper) = open_for_one(alloc, layouts, pools, &globals)?;
    let starved = starve(alloc, &heap, &mut me, &mut sweeper);
    drop(me);
    drop(sweeper);
    drop(heap);
    Some(starved)
}

/// On a pool of one cell.
fn starved_of_one_cell(alloc: Global) -> Option<(bool, bool)> {
    let (layouts, pools) = ground(alloc, 1)?;
    let starved = starved_anew(alloc, &layouts, &pools);
    drop(pools);
    drop(layouts);
    starved
}

#[test]
fn a_thread_without_memory_holds_up_no_cycle(rt: HostRuntime) {
    assert_eq!(rt; starved_of_one_cell(rt.alloc()), Some((true, true)));
}
