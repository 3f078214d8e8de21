//! What threads and the collector do with a heap, step by step, and how it ends.
ghost use Rattle.std.specs.Prelude.{◌≡◌, ◌<◌, [], ◌∷◌, length, Some, IfOk};
ghost use Rattle.pools.specs.Heap.{kind_of};
ghost use Rattle.pools.specs.declared.word_kind.WordKind.TheVariants.{Reference};
ghost use Rattle.heap_table.specs.Closing.{AreOf};
ghost use Rattle.heap_table.specs.Holders.{IsOf, MayCall, MayBegin};
ghost use Rattle.heap_table.specs.Opening.{AreNew};
ghost use Rattle.heap_table.specs.Sweepers.{IsSweeperOf};

use crate::opening::the_layout;
use crate::parts::is_turn;
use colours::Turn;
use heap_table::{Closed, Heap, Mutator, Sweeper};
use std::alloc::{AllocError, Global};
use std::thread::{Threads, join_mut};

/// Takes a cell.
pub fn take(heap: &Heap<'_>, me: &mut Mutator) -> u32
    requires token { MayCall heap.now me.old }
    requires layout { 0 < length heap.now.setup.pools }
    ensures token { MayCall heap.now me.new }
{
    heap.alloc(me, the_layout())
}

/// Takes two cells.
pub fn take_two(heap: &Heap<'_>, me: &mut Mutator) -> [u32; 2]
    requires token { MayCall heap.now me.old }
    requires layout { 0 < length heap.now.setup.pools }
    ensures token { MayCall heap.now me.new }
{
    [take(heap, me), take(heap, me)]
}

/// What a global of references holds.
pub fn global(heap: &Heap<'_>, me: &mut Mutator, word: u32) -> u64
    requires token { MayCall heap.now me.old }
    requires word { kind_of heap.now.setup 0 word ≡ Some (Reference 0) }
    ensures token { MayCall heap.now me.new }
{
    heap.read(me, 0, word)
}

/// Takes a cell, writes it to a global, and returns it and what the global holds then.
pub fn keep_a_cell(heap: &Heap<'_>, me: &mut Mutator, word: u32) -> (u32, u64)
    requires token { MayCall heap.now me.old }
    requires layout { 0 < length heap.now.setup.pools }
    requires word { kind_of heap.now.setup 0 word ≡ Some (Reference 0) }
    ensures token { MayCall heap.now me.new }
{
    let cell = heap.alloc(me, the_layout());
    heap.write(me, 0, word, cell);
    (cell, global(heap, me, word))
}

/// Makes turns of the collector.
pub fn turn_on(heap: &Heap<'_>, sweeper: &mut Sweeper<'_>, turns: u32)
    requires { IsSweeperOf heap.now sweeper.old }
    ensures { IsSweeperOf heap.now sweeper.new }
{
    for _ in 0..turns {
        sweeper.turn(heap);
    }
}

/// A cell that a thread wrote to its global, and what it read there then; and two more cells that it took.
pub type Share = ((u32, u64), [u32; 2]);

/// Takes a cell for a global, and then two more.
pub fn take_share(heap: &Heap<'_>, me: &mut Mutator, word: u32) -> Share
    requires token { MayCall heap.now me.old }
    requires layout { 0 < length heap.now.setup.pools }
    requires word { kind_of heap.now.setup 0 word ≡ Some (Reference 0) }
    ensures token { MayCall heap.now me.new }
{
    (keep_a_cell(heap, me, word), take_two(heap, me))
}

/// Two threads do so, with a global each.
pub fn take_shares(
    rt: &impl Threads,
    heap: &Heap<'_>,
    first: &mut Mutator,
    second: &mut Mutator,
) -> (Share, Share)
    requires first { MayCall heap.now first.old }
    requires second { MayCall heap.now second.old }
    requires layout { 0 < length heap.now.setup.pools }
    requires word { kind_of heap.now.setup 0 0 ≡ Some (Reference 0) }
    requires other_word { kind_of heap.now.setup 0 1 ≡ Some (Reference 0) }
    ensures first { MayCall heap.now first.new }
    ensures second { MayCall heap.now second.new }
{
    join_mut(
        rt,
        &mut || -> Share
            requires token { MayCall heap.now first.now }
            requires layout { 0 < length heap.now.setup.pools }
            requires word { kind_of heap.now.setup 0 0 ≡ Some (Reference 0) }
            ensures { MayCall heap.entry.now first.exit.now }
        { take_share(heap, first, 0) },
        &mut || -> Share
            requires token { MayCall heap.now second.now }
            requires layout { 0 < length heap.now.setup.pools }
            requires word { kind_of heap.now.setup 0 1 ≡ Some (Reference 0) }
            ensures { MayCall heap.entry.now second.exit.now }
        { take_share(heap, second, 1) },
    )
}

/// Two threads take two cells each.
pub fn take_four(
    rt: &impl Threads,
    heap: &Heap<'_>,
    first: &mut Mutator,
    second: &mut Mutator,
) -> [u32; 4]
    requires first { MayCall heap.now first.old }
    requires second { MayCall heap.now second.old }
    requires layout { 0 < length heap.now.setup.pools }
    ensures first { MayCall heap.now first.new }
    ensures second { MayCall heap.now second.new }
{
    let ([a, b], [c, d]) = join_mut(
        rt,
        &mut || -> [u32; 2]
            requires token { MayCall heap.now first.now }
            requires layout { 0 < length heap.now.setup.pools }
            ensures { MayCall heap.entry.now first.exit.now }
        { take_two(heap, first) },
        &mut || -> [u32; 2]
            requires token { MayCall heap.now second.now }
            requires layout { 0 < length heap.now.setup.pools }
            ensures { MayCall heap.entry.now second.exit.now }
        { take_two(heap, second) },
    );
    [a, b, c, d]
}

/// Whether this number of next turns of the collector each find the only thread at its first stage.
pub fn are_looks(heap: &Heap<'_>, sweeper: &mut Sweeper<'_>, turns: u32) -> bool
    requires { IsSweeperOf heap.now sweeper.old }
    ensures { IsSweeperOf heap.now sweeper.new }
{
    for _ in 0..turns {
        if !matches!(sweeper.turn(heap), Some(Turn::ReadStage(0, 0))) {
            return false;
        }
    }
    true
}

/// Whether the collector's next turns are these.
pub fn turns_are(heap: &Heap<'_>, sweeper: &mut Sweeper<'_>, turns: &[Turn]) -> bool
    requires { IsSweeperOf heap.now sweeper.old }
    ensures { IsSweeperOf heap.now sweeper.new }
{
    for turn in turns {
        if !is_turn(sweeper.turn(heap), *turn) {
            return false;
        }
    }
    true
}

/// Gives back the words of a heap whose tokens were never used.
#[tactic(auto, using(crate::proofs::HeapTokens::are_of))]
pub fn close_new<'a>(heap: Heap<'a>, mutators: Vec<Mutator>, sweeper: Sweeper<'_>) -> Closed<'a>
    requires tokens { AreNew heap 0 mutators.items }
    requires sweeper { IsSweeperOf heap sweeper }
    ensures { result.setup ≡ heap.entry.setup }
{
    heap.close(mutators, sweeper)
}

/// The thread's last step.
pub fn finish(heap: &Heap<'_>, me: &mut Mutator)
    requires { MayCall heap.now me.old }
    ensures { IsOf heap.now me.new }
{
    heap.finish(me);
}

/// Gives back the words of a heap of one thread.
pub fn close_one<'a>(
    alloc: Global,
    heap: Heap<'a>,
    me: Mutator,
    sweeper: Sweeper<'_>,
) -> Result<Closed<'a>, AllocError>
    requires token { IsOf heap me }
    requires sweeper { IsSweeperOf heap sweeper }
    ensures { IfOk result (λ closed. closed.setup ≡ heap.entry.setup) }
{
    let mutators = vec![in alloc; me]?;
    Ok(heap.close(mutators, sweeper))
}

/// Two tokens in a list.
fn listed(
    alloc: Global,
    heap: &Heap<'_>,
    tokens: (Mutator, Mutator),
) -> Result<Vec<Mutator>, AllocError>
    requires first { IsOf heap.now tokens.0 }
    requires second { IsOf heap.now tokens.1 }
    ensures { IfOk result (λ list. AreOf heap.now list.items) }
{
    Ok(vec![in alloc; tokens.0, tokens.1]?)
}

/// Gives back the words of a heap of two threads.
pub fn close_two<'a>(
    alloc: Global,
    heap: Heap<'a>,
    tokens: (Mutator, Mutator),
    sweeper: Sweeper<'_>,
) -> Result<Closed<'a>, AllocError>
    requires first { IsOf heap tokens.0 }
    requires second { IsOf heap tokens.1 }
    requires sweeper { IsSweeperOf heap sweeper }
    ensures { IfOk result (λ closed. closed.setup ≡ heap.entry.setup) }
{
    let mutators = listed(alloc, &heap, tokens)?;
    Ok(heap.close(mutators, sweeper))
}

/// Answers the collector, with no roots, and returns whether there was a question.
pub fn answer(heap: &Heap<'_>, me: &mut Mutator) -> bool
    requires { MayCall heap.now me.old }
    ensures { MayCall heap.now me.new }
{
    heap.safepoint(me, &[])
}

/// The colours of the cells of a heap of two cells, that of the globals' cell first.
#[tactic(auto, using(crate::proofs::HeapTokens::three_cells))]
pub fn colours_of_two(closed: &Closed<'_>) -> [u64; 3]
    requires { closed.now.setup.pools ≡ 2 ∷ [] }
{
    [closed.colour(0), closed.colour(1), closed.colour(2)]
}

/// Those of a heap of four cells.
#[tactic(auto, using(crate::proofs::HeapTokens::five_cells))]
pub fn colours_of_four(closed: &Closed<'_>) -> [u64; 5]
    requires { closed.now.setup.pools ≡ 4 ∷ [] }
{
    [
        closed.colour(0),
        closed.colour(1),
        closed.colour(2),
        closed.colour(3),
        closed.colour(4),
    ]
}

/// The stage words of two threads.
pub fn stages_of_two(closed: &Closed<'_>) -> [u64; 2]
    requires { closed.now.setup.threads ≡ 2 }
{
    [closed.stage(0), closed.stage(1)]
}

/// Makes turns of the collector, then answers it, and returns whether there was a question.
pub fn turn_and_answer(
    heap: &Heap<'_>,
    me: &mut Mutator,
    sweeper: &mut Sweeper<'_>,
    turns: u32,
) -> bool
    requires token { MayCall heap.now me.old }
    requires sweeper { IsSweeperOf heap.now sweeper.old }
    ensures token { MayCall heap.now me.new }
    ensures sweeper { IsSweeperOf heap.now sweeper.new }
{
    turn_on(heap, sweeper, turns);
    answer(heap, me)
}

/// A late thread tries to begin once. Returns its stage then, and a cell that it takes.
pub fn begin_and_take(heap: &Heap<'_>, me: &mut Mutator) -> Option<(u64, u32)>
    requires token { MayBegin heap.now me.old }
    requires layout { 0 < length heap.now.setup.pools }
{
    if heap.begin(me) {
        Some((me.stage(), take(heap, me)))
    } else {
        None
    }
}
