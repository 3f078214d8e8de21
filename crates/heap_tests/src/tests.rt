//! The shared heap, by one caller and by real threads. What is done with a new heap stands above its test.
ghost use Rattle.std.specs.Prelude.{◌≡◌, ◌<◌, [], ◌∷◌, true, length};
ghost use Rattle.pools.specs.declared.word_kind.WordKind.TheVariants.{Reference};
ghost use Rattle.heap_table.specs.Holders.{IsOf, MayCall, MayBegin};
ghost use Rattle.heap_table.specs.Opening.{AreNew};
ghost use Rattle.heap_table.specs.Sweepers.{IsSweeperOf};

use crate::cycles::{FIRST_TURNS, first_cycle, second_cycle, take_all};
use crate::late::read_late;
use crate::opening::{
    ground, late_token, no_globals, one_reference, open, open_for_one, present_and_late,
    two_references, two_tokens,
};
use crate::steps::{
    Share, begin_and_take, close_new, close_one, close_two, colours_of_four, colours_of_two,
    finish, global, stages_of_two, take, take_shares, take_two, turn_and_answer, turn_on,
    turns_are,
};
use colours::{DONE, Turn};
use heap_table::{Heap, Mutator, Sweeper};
use pools::{Layouts, Pools};
use std::alloc::Global;
use std::thread::Threads;

/// What the first thread reads of the second one's global before and after both take their shares, and these.
type Seen = ((u64, u64), (Share, Share));

/// Two threads take their shares and end.
fn shared_by_two(
    rt: &impl Threads,
    heap: &Heap<'_>,
    first: &mut Mutator,
    second: &mut Mutator,
) -> Seen
    requires first { MayCall heap.now first.old }
    requires second { MayCall heap.now second.old }
    requires layout { 0 < length heap.now.setup.pools }
    requires globals { heap.now.setup.globals ≡ Reference 0 ∷ Reference 0 ∷ [] }
    ensures first { IsOf heap.now first.new }
    ensures second { IsOf heap.now second.new }
{
    let before = global(heap, first, 1);
    let shares = take_shares(rt, heap, first, second);
    let after = global(heap, first, 1);
    finish(heap, first);
    finish(heap, second);
    ((before, after), shares)
}

/// That; the posted stage and those of the threads; and the colours.
type SeenEnd = (Seen, (u64, [u64; 2]), [u64; 5]);

/// Lets them take, and closes the heap.
fn share_and_close(
    rt: &impl Threads,
    alloc: Global,
    heap: Heap<'_>,
    mut threads: (Mutator, Mutator),
    sweeper: Sweeper<'_>,
) -> Option<SeenEnd>
    requires first { MayCall heap threads.0 }
    requires second { MayCall heap threads.1 }
    requires sweeper { IsSweeperOf heap sweeper }
    requires pools { heap.setup.pools ≡ 4 ∷ [] }
    requires globals { heap.setup.globals ≡ Reference 0 ∷ Reference 0 ∷ [] }
    requires threads { heap.setup.threads ≡ 2 }
{
    let seen = shared_by_two(rt, &heap, &mut threads.0, &mut threads.1);
    let Ok(closed) = close_two(alloc, heap, threads, sweeper) else {
        return None;
    };
    let stages = (closed.posted(), stages_of_two(&closed));
    let colours = colours_of_four(&closed);
    drop(closed);
    Some((seen, stages, colours))
}

/// Opens a heap for that.
fn shared(rt: &impl Threads, alloc: Global, layouts: &Layouts, pools: &Pools) -> Option<SeenEnd>
    requires layouts { layouts.now ≡ [] ∷ [] }
    requires pools { pools.now ≡ 4 ∷ [] }
{
    let globals = two_references();
    let (heap, mut mutators, sweeper) = open(alloc, layouts, pools, &globals, 2, &[])?;
    let threads = two_tokens(&heap, &mut mutators);
    drop(mutators);
    match threads {
        Some(threads) => share_and_close(rt, alloc, heap, threads, sweeper),
        None => {
            drop(sweeper);
            drop(heap);
            None
        }
    }
}

/// On a pool of four cells.
fn shared_of_four_cells(rt: &impl Threads, alloc: Global) -> Option<SeenEnd> {
    let (layouts, pools) = ground(alloc, 4)?;
    let made = shared(rt, alloc, &layouts, &pools);
    drop(pools);
    drop(layouts);
    made
}

/// What the first thread read before; whether each read its own cell in its global, and the first one that of the second after; and all
/// cells that both took, in their order.
fn told(seen: Seen) -> (u64, [bool; 3], [u32; 6]) {
    let ((before, after), (one, other)) = seen;
    let ((kept, in_own), [second, third]) = one;
    let ((other_kept, in_other), [other_second, other_third]) = other;
    let mut cells = [kept, second, third, other_kept, other_second, other_third];
    cells.sort_unstable();
    let read = [
        in_own == u64::from(kept),
        in_other == u64::from(other_kept),
        after == in_other,
    ];
    (before, read, cells)
}

/// The same, and the stages and the colours.
fn told_of_four_cells(
    rt: &impl Threads,
    alloc: Global,
) -> Option<((u64, [bool; 3], [u32; 6]), (u64, [u64; 2]), [u64; 5])> {
    let (seen, stages, colours) = shared_of_four_cells(rt, alloc)?;
    Some((told(seen), stages, colours))
}

// Neither thread takes more than three cells, so the other one finds a cell for its global.
#[test]
fn two_threads_share_four_cells(rt: HostRuntime) {
    assert_eq!(rt;
        told_of_four_cells(&rt, rt.alloc()),
        Some((
            (0, [true, true, true], [0, 0, 1, 2, 3, 4]),
            (0, [DONE, DONE]),
            [1, 1, 1, 1, 1]
        ))
    );
}

/// What comes of two cycles, each as its own function tells it.
type Cycles = (Option<([u64; 2], [u32; 3])>, ([u64; 2], u64));

/// The only thread takes all cells, answers each stage of two cycles, and ends. Returns the cells, and what came of the cycles.
fn two_cycles(heap: &Heap<'_>, me: &mut Mutator, sweeper: &mut Sweeper<'_>) -> ([u32; 3], Cycles)
    requires token { MayCall heap.now me.old }
    requires sweeper { IsSweeperOf heap.now sweeper.old }
    requires layout { 0 < length heap.now.setup.pools }
    requires globals { heap.now.setup.globals ≡ Reference 0 ∷ [] }
    ensures token { IsOf heap.now me.new }
    ensures sweeper { IsSweeperOf heap.now sweeper.new }
{
    let made = (
        take_all(heap, me),
        (
            first_cycle(heap, me, sweeper),
            second_cycle(heap, me, sweeper),
        ),
    );
    finish(heap, me);
    made
}

/// The cells that were taken, what came of the cycles, and the posted stage and the colours at the end.
type CycleEnd = (([u32; 3], Cycles), (u64, [u64; 3]));

/// What comes of a new heap of one thread under two cycles.
fn cycle_and_close(
    alloc: Global,
    heap: Heap<'_>,
    mut me: Mutator,
    mut sweeper: Sweeper<'_>,
) -> Option<CycleEnd>
    requires token { MayCall heap me }
    requires sweeper { IsSweeperOf heap sweeper }
    requires pools { heap.setup.pools ≡ 2 ∷ [] }
    requires globals { heap.setup.globals ≡ Reference 0 ∷ [] }
{
    let made = two_cycles(&heap, &mut me, &mut sweeper);
    let Ok(closed) = close_one(alloc, heap, me, sweeper) else {
        return None;
    };
    let end = (closed.posted(), colours_of_two(&closed));
    drop(closed);
    Some((made, end))
}

/// Opens that heap.
fn cycled(alloc: Global, layouts: &Layouts, pools: &Pools) -> Option<CycleEnd>
    requires layouts { layouts.now ≡ [] ∷ [] }
    requires pools { pools.now ≡ 2 ∷ [] }
{
    let globals = one_reference();
    let (heap, me, sweeper) = open_for_one(alloc, layouts, pools, &globals)?;
    cycle_and_close(alloc, heap, me, sweeper)
}

/// On a pool of two cells.
fn cycled_of_two_cells(alloc: Global) -> Option<CycleEnd> {
    let (layouts, pools) = ground(alloc, 2)?;
    let made = cycled(alloc, &layouts, &pools);
    drop(pools);
    drop(layouts);
    made
}

#[test]
fn a_cycle_frees_the_cell_that_nothing_names(rt: HostRuntime) {
    assert_eq!(rt;
        cycled_of_two_cells(rt.alloc()),
        Some((
            ([1, 2, 0], (Some(([0, 1], [0, 2, 0])), ([1, 2], 1))),
            (6, [5, 5, 0])
        ))
    );
}

/// Whether the first turns are made as they are listed; and the posted stage, the colour of the globals' cell and the global at the end.
type FirstTurns = (bool, (u64, u64, u64));

/// What comes of a new heap without a thread under these turns.
fn turn_and_close(heap: Heap<'_>, mutators: Vec<Mutator>, mut sweeper: Sweeper<'_>) -> FirstTurns
    requires tokens { AreNew heap 0 mutators.items }
    requires sweeper { IsSweeperOf heap sweeper }
    requires globals { heap.setup.globals ≡ Reference 0 ∷ [] }
{
    let are_first = turns_are(&heap, &mut sweeper, &FIRST_TURNS);
    let closed = close_new(heap, mutators, sweeper);
    let end = (closed.posted(), closed.colour(0), closed.word(0, 0));
    drop(closed);
    (are_first, end)
}

/// Opens that heap.
fn turned(alloc: Global, layouts: &Layouts, pools: &Pools) -> Option<FirstTurns>
    requires layouts { layouts.now ≡ [] ∷ [] }
{
    let globals = one_reference();
    let (heap, mutators, sweeper) = open(alloc, layouts, pools, &globals, 0, &[])?;
    Some(turn_and_close(heap, mutators, sweeper))
}

/// On a pool of one cell.
fn turned_of_one_cell(alloc: Global) -> Option<FirstTurns> {
    let (layouts, pools) = ground(alloc, 1)?;
    let made = turned(alloc, &layouts, &pools);
    drop(pools);
    drop(layouts);
    made
}

#[test]
fn first_turns_without_threads(rt: HostRuntime) {
    assert_eq!(rt; turned_of_one_cell(rt.alloc()), Some((true, (4, 3, 0))));
}

/// The first cell; whether there was a question each time; and the last three cells.
type TakenAround = (u32, [bool; 3], ([u32; 2], u32));

/// The only thread takes a cell, answers three stages, each after four turns, and after the rest of the cycle tries three times.
fn taken_around_a_cycle(heap: &Heap<'_>, me: &mut Mutator, sweeper: &mut Sweeper<'_>) -> TakenAround
    requires token { MayCall heap.now me.old }
    requires sweeper { IsSweeperOf heap.now sweeper.old }
    requires layout { 0 < length heap.now.setup.pools }
{
    let first = take(heap, me);
    let answered = [
        turn_and_answer(heap, me, sweeper, 4),
        turn_and_answer(heap, me, sweeper, 4),
        turn_and_answer(heap, me, sweeper, 4),
    ];
    turn_on(heap, sweeper, 100);
    (first, answered, (take_two(heap, me), take(heap, me)))
}

/// Opens a heap for that.
fn taken_around(alloc: Global, layouts: &Layouts, pools: &Pools) -> Option<TakenAround>
    requires layouts { layouts.now ≡ [] ∷ [] }
    requires pools { 0 < length pools.now }
{
    let globals = no_globals();
    let (heap, mut me, mut sweeper) = open_for_one(alloc, layouts, pools, &globals)?;
    let taken = taken_around_a_cycle(&heap, &mut me, &mut sweeper);
    drop(me);
    drop(sweeper);
    drop(heap);
    Some(taken)
}

/// On a pool of two cells.
fn taken_of_two_cells(alloc: Global) -> Option<TakenAround> {
    let (layouts, pools) = ground(alloc, 2)?;
    let made = taken_around(alloc, &layouts, &pools);
    drop(pools);
    drop(layouts);
    made
}

#[test]
fn tries_begin_after_the_cell_won_last(rt: HostRuntime) {
    assert_eq!(rt;
        taken_of_two_cells(rt.alloc()),
        Some((1, [true, true, true], ([2, 1], 0)))
    );
}

/// What `begin_and_take` gives the only thread of a new heap, which is late, after three turns of the collector.
fn begin_after_turns(
    heap: &Heap<'_>,
    mutators: &mut Vec<Mutator>,
    sweeper: &mut Sweeper<'_>,
) -> Option<(u64, u32)>
    requires late { heap.now.setup.late ≡ true ∷ [] }
    requires one { length mutators.old.items ≡ 1 }
    requires tokens { AreNew heap.now 0 mutators.old.items }
    requires sweeper { IsSweeperOf heap.now sweeper.old }
    requires layout { 0 < length heap.now.setup.pools }
{
    let mut me = late_token(heap, mutators)?;
    turn_on(heap, sweeper, 3);
    begin_and_take(heap, &mut me)
}

/// Opens that heap.
fn begun_late(alloc: Global, layouts: &Layouts, pools: &Pools) -> Option<(u64, u32)>
    requires layouts { layouts.now ≡ [] ∷ [] }
    requires pools { 0 < length pools.now }
{
    let globals = no_globals();
    let (heap, mut mutators, mut sweeper) = open(alloc, layouts, pools, &globals, 1, &[true])?;
    let begun = begin_after_turns(&heap, &mut mutators, &mut sweeper);
    drop(mutators);
    drop(sweeper);
    drop(heap);
    begun
}

/// On a pool of one cell.
fn begun_of_one_cell(alloc: Global) -> Option<(u64, u32)> {
    let (layouts, pools) = ground(alloc, 1)?;
    let made = begun_late(alloc, &layouts, &pools);
    drop(pools);
    drop(layouts);
    made
}

#[test]
fn a_late_thread_begins_at_the_posted_stage(rt: HostRuntime) {
    assert_eq!(rt; begun_of_one_cell(rt.alloc()), Some((2, 1)));
}

/// What `read_late` returns; and the stages of a heap after it: the posted one, and those of the two threads.
type LateRead = ((u32, Option<(u64, u64)>), (u64, [u64; 2]));

/// Lets the late thread, the second one, read, and closes the heap.
fn read_and_close(
    rt: &impl Threads,
    alloc: Global,
    heap: Heap<'_>,
    mut threads: (Mutator, Mutator),
    mut sweeper: Sweeper<'_>,
) -> Option<LateRead>
    requires first { MayCall heap threads.0 }
    requires late { MayBegin heap threads.1 }
    requires sweeper { IsSweeperOf heap sweeper }
    requires layout { 0 < length heap.setup.pools }
    requires globals { heap.setup.globals ≡ Reference 0 ∷ [] }
    requires threads { heap.setup.threads ≡ 2 }
{
    let read = read_late(rt, &heap, &mut threads.0, &mut threads.1, &mut sweeper);
    let Ok(closed) = close_two(alloc, heap, threads, sweeper) else {
        return None;
    };
    let stages = (closed.posted(), stages_of_two(&closed));
    drop(closed);
    Some((read, stages))
}

/// Opens a heap of two threads for that, of which the second is late.
fn read_on_a_new_heap(
    rt: &impl Threads,
    alloc: Global,
    layouts: &Layouts,
    pools: &Pools,
) -> Option<LateRead>
    requires layouts { layouts.now ≡ [] ∷ [] }
    requires pools { 0 < length pools.now }
{
    let globals = one_reference();
    let (heap, mut mutators, sweeper) = open(alloc, layouts, pools, &globals, 2, &[false, true])?;
    let threads = present_and_late(&heap, &mut mutators);
    drop(mutators);
    match threads {
        Some(threads) => read_and_close(rt, alloc, heap, threads, sweeper),
        None => {
            drop(sweeper);
            drop(heap);
            None
        }
    }
}

/// On a pool of two cells.
fn read_of_two_cells(rt: &impl Threads, alloc: Global) -> Option<LateRead> {
    let (layouts, pools) = ground(alloc, 2)?;
    let made = read_on_a_new_heap(rt, alloc, &layouts, &pools);
    drop(pools);
    drop(layouts);
    made
}

/// The cell, what was read, and the stages of the threads, where the late one has begun at one that was posted after a whole cycle.
fn read_after_a_cycle(rt: &impl Threads, alloc: Global) -> Option<(u32, u64, [u64; 2])> {
    let ((cell, seen), (posted, stages)) = read_of_two_cells(rt, alloc)?;
    let (stage, found) = seen?;
    // A cycle takes 23 turns before the late thread has begun, and the next one posts stage 4.
    if stage < 4 || posted < stage {
        return None;
    }
    Some((cell, found, stages))
}

#[test]
fn a_late_thread_reads_what_another_one_wrote(rt: HostRuntime) {
    assert_eq!(rt;
        read_after_a_cycle(&rt, rt.alloc()),
        Some((1, 1, [DONE, DONE]))
    );
}
