//! On a pool of two cells: two real threads, and a thread that makes no call.
ghost use Rattle.std.specs.Prelude.{◌≡◌, ◌<◌, [], ◌∷◌, length};
ghost use Rattle.heap_table.specs.Holders.{IsOf, MayCall};
ghost use Rattle.heap_table.specs.Opening.{AreNew};
ghost use Rattle.heap_table.specs.Sweepers.{IsSweeperOf};

use crate::opening::{ground, no_globals, open, two_tokens};
use crate::steps::{
    are_looks, close_new, close_two, colours_of_two, finish, stages_of_two, take_four, turns_are,
};
use colours::{DONE, Turn};
use heap_table::{Heap, Mutator, Sweeper};
use pools::{Layouts, Pools};
use std::alloc::Global;
use std::thread::Threads;

/// Two threads take two cells each and end. Returns the cells in their order.
fn taken_by_two(
    rt: &impl Threads,
    heap: &Heap<'_>,
    first: &mut Mutator,
    second: &mut Mutator,
) -> [u32; 4]
    requires first { MayCall heap.now first.old }
    requires second { MayCall heap.now second.old }
    requires layout { 0 < length heap.now.setup.pools }
    ensures first { IsOf heap.now first.new }
    ensures second { IsOf heap.now second.new }
{
    let mut taken = take_four(rt, heap, first, second);
    taken.sort_unstable();
    finish(heap, first);
    finish(heap, second);
    taken
}

/// Those cells; the posted stage and those of the threads; and the colours.
type Shared = ([u32; 4], (u64, [u64; 2]), [u64; 3]);

/// Lets them take, and closes the heap.
fn share_and_close(
    rt: &impl Threads,
    alloc: Global,
    heap: Heap<'_>,
    mut threads: (Mutator, Mutator),
    sweeper: Sweeper<'_>,
) -> Option<Shared>
    requires first { MayCall heap threads.0 }
    requires second { MayCall heap threads.1 }
    requires sweeper { IsSweeperOf heap sweeper }
    requires pools { heap.setup.pools ≡ 2 ∷ [] }
    requires threads { heap.setup.threads ≡ 2 }
{
    let taken = taken_by_two(rt, &heap, &mut threads.0, &mut threads.1);
    let Ok(closed) = close_two(alloc, heap, threads, sweeper) else {
        return None;
    };
    let stages = (closed.posted(), stages_of_two(&closed));
    let colours = colours_of_two(&closed);
    drop(closed);
    Some((taken, stages, colours))
}

/// Opens a heap for that.
fn shared(rt: &impl Threads, alloc: Global, layouts: &Layouts, pools: &Pools) -> Option<Shared>
    requires layouts { layouts.now ≡ [] ∷ [] }
    requires pools { pools.now ≡ 2 ∷ [] }
{
    let globals = no_globals();
    let (heap, mut mutators, sweeper) = open(alloc, layouts, pools, &globals, 2, &[])?;
    let threads = two_tokens(&heap, &mut mutators);
    drop(mutators);
    match threads {
        Some(threads) => share_and_close(rt, alloc, heap, threads, sweeper),
        None => {
            drop(sweeper);
            drop(heap);
            None
        }
    }
}

/// On a pool of two cells.
fn shared_of_two_cells(rt: &impl Threads, alloc: Global) -> Option<Shared> {
    let (layouts, pools) = ground(alloc, 2)?;
    let made = shared(rt, alloc, &layouts, &pools);
    drop(pools);
    drop(layouts);
    made
}

#[test]
fn two_threads_share_two_cells(rt: HostRuntime) {
    assert_eq!(rt;
        shared_of_two_cells(&rt, rt.alloc()),
        Some(([0, 0, 1, 2], (0, [DONE, DONE]), [1, 1, 1]))
    );
}

/// Whether the collector asks a thread that makes no call, and waits for it on and on; and how many sweeps it has made.
fn waits(heap: &Heap<'_>, sweeper: &mut Sweeper<'_>) -> (bool, u64)
    requires { IsSweeperOf heap.now sweeper.old }
    ensures { IsSweeperOf heap.now sweeper.new }
{
    let has_asked = turns_are(heap, sweeper, &[Turn::PostStage(1)]);
    let has_waited = are_looks(heap, sweeper, 9_999);
    (has_asked && has_waited, sweeper.cycles())
}

/// What `waits` returns; the posted stage and the thread's own; and the colours.
type Waited = ((bool, u64), (u64, u64), [u64; 3]);

/// What comes of a new heap of one thread, where the collector waits for it.
fn wait_and_close(heap: Heap<'_>, mutators: Vec<Mutator>, mut sweeper: Sweeper<'_>) -> Waited
    requires tokens { AreNew heap 0 mutators.items }
    requires sweeper { IsSweeperOf heap sweeper }
    requires threads { heap.setup.threads ≡ 1 }
    requires pools { heap.setup.pools ≡ 2 ∷ [] }
{
    let waited = waits(&heap, &mut sweeper);
    let closed = close_new(heap, mutators, sweeper);
    let stages = (closed.posted(), closed.stage(0));
    let colours = colours_of_two(&closed);
    drop(closed);
    (waited, stages, colours)
}

/// Opens that heap.
fn waited(alloc: Global, layouts: &Layouts, pools: &Pools) -> Option<Waited>
    requires layouts { layouts.now ≡ [] ∷ [] }
    requires pools { pools.now ≡ 2 ∷ [] }
{
    let globals = no_globals();
    let (heap, mutators, sweeper) = open(alloc, layouts, pools, &globals, 1, &[])?;
    Some(wait_and_close(heap, mutators, sweeper))
}

/// The same, with its ground.
fn waited_of_two_cells(alloc: Global) -> Option<Waited> {
    let (layouts, pools) = ground(alloc, 2)?;
    let made = waited(alloc, &layouts, &pools);
    drop(pools);
    drop(layouts);
    made
}

#[test]
fn a_thread_without_a_call_holds_up_no_turn(rt: HostRuntime) {
    assert_eq!(rt;
        waited_of_two_cells(rt.alloc()),
        Some(((true, 0), (1, 0), [1, 0, 0]))
    );
}
