//! Cycles of the collector: its first turns without a thread, and whole cycles where the only thread answers each stage.
ghost use Rattle.std.specs.Prelude.{◌≡◌, ◌<◌, length, Some};
ghost use Rattle.pools.specs.Heap.{kind_of};
ghost use Rattle.pools.specs.declared.word_kind.WordKind.TheVariants.{Reference};
ghost use Rattle.heap_table.specs.Holders.{MayCall};
ghost use Rattle.heap_table.specs.Sweepers.{IsSweeperOf};

use crate::parts::is_turn;
use crate::steps::{answer, global, keep_a_cell, take, take_two};
use colours::Turn;
use heap_table::{Heap, Mutator, Sweeper};

/// The turns of the first cycle over one null global and one blue cell, without a thread, and the first turn of the second.
pub const FIRST_TURNS: [Turn; 12] = [
    Turn::PostStage(1),
    Turn::PostStage(2),
    Turn::MarkFound(0, 1),
    Turn::PostStage(3),
    Turn::ReadColour(0, 2),
    Turn::ScanWord(0, 0, 0),
    Turn::Blacken(0),
    Turn::ReadColour(1, 0),
    Turn::ReadColour(0, 3),
    Turn::ReadColour(1, 0),
    Turn::ReadColour(1, 0),
    Turn::PostStage(4),
];

/// The turns of the first cycle over a global, a cell that it names, and a cell that nothing names, where the only thread answers
/// each stage; but the last two, the look at the last cell and its freeing.
const ANSWERED_TURNS: [Turn; 19] = [
    Turn::PostStage(1),
    Turn::ReadStage(0, 1),
    Turn::PostStage(2),
    Turn::ReadStage(0, 2),
    Turn::MarkFound(0, 1),
    Turn::PostStage(3),
    Turn::ReadStage(0, 3),
    Turn::ReadColour(0, 2),
    Turn::ScanWord(0, 0, 1),
    Turn::MarkFound(1, 1),
    Turn::Blacken(0),
    Turn::ReadColour(1, 2),
    Turn::Blacken(1),
    Turn::ReadColour(1, 3),
    Turn::ReadColour(2, 1),
    Turn::ReadColour(0, 3),
    Turn::ReadColour(1, 3),
    Turn::ReadColour(2, 1),
    Turn::ReadColour(1, 3),
];

/// Whether the collector's next turns are these, where the thread answers after each of them and names no roots.
pub fn answered_turns_are(
    heap: &Heap<'_>,
    me: &mut Mutator,
    sweeper: &mut Sweeper<'_>,
    turns: &[Turn],
) -> bool
    requires token { MayCall heap.now me.old }
    requires sweeper { IsSweeperOf heap.now sweeper.old }
    ensures token { MayCall heap.now me.new }
    ensures sweeper { IsSweeperOf heap.now sweeper.new }
{
    for turn in turns {
        if !is_turn(sweeper.turn(heap), *turn) {
            return false;
        }
        answer(heap, me);
    }
    true
}

/// Makes turns of the collector, and lets the thread answer after each of them with no roots.
pub fn answer_each(heap: &Heap<'_>, me: &mut Mutator, sweeper: &mut Sweeper<'_>, turns: u32)
    requires token { MayCall heap.now me.old }
    requires sweeper { IsSweeperOf heap.now sweeper.old }
    ensures token { MayCall heap.now me.new }
    ensures sweeper { IsSweeperOf heap.now sweeper.new }
{
    for _ in 0..turns {
        sweeper.turn(heap);
        answer(heap, me);
    }
}

/// Takes a cell for the first global, and then two more.
pub fn take_all(heap: &Heap<'_>, me: &mut Mutator) -> [u32; 3]
    requires token { MayCall heap.now me.old }
    requires layout { 0 < length heap.now.setup.pools }
    requires word { kind_of heap.now.setup 0 0 ≡ Some (Reference 0) }
    ensures token { MayCall heap.now me.new }
{
    let (kept, _) = keep_a_cell(heap, me, 0);
    let [second, third] = take_two(heap, me);
    [kept, second, third]
}

/// Makes the turns of the first cycle. Returns how many sweeps had looked at their last cell before and after that look; and what an
/// allocation gave before the last turn, and two after it. None where the turns are others.
pub fn first_cycle(
    heap: &Heap<'_>,
    me: &mut Mutator,
    sweeper: &mut Sweeper<'_>,
) -> Option<([u64; 2], [u32; 3])>
    requires token { MayCall heap.now me.old }
    requires sweeper { IsSweeperOf heap.now sweeper.old }
    requires layout { 0 < length heap.now.setup.pools }
    ensures token { MayCall heap.now me.new }
    ensures sweeper { IsSweeperOf heap.now sweeper.new }
{
    if !answered_turns_are(heap, me, sweeper, &ANSWERED_TURNS) {
        return None;
    }
    let before = sweeper.cycles();
    if !answered_turns_are(heap, me, sweeper, &[Turn::ReadColour(2, 1)]) {
        return None;
    }
    let after = sweeper.cycles();
    let early = take(heap, me);
    if !answered_turns_are(heap, me, sweeper, &[Turn::Free(2)]) {
        return None;
    }
    let [freed, last] = take_two(heap, me);
    Some(([before, after], [early, freed, last]))
}

/// Makes the turns of the second cycle, which are as many. Returns how many sweeps had looked at their last cell before and after that
/// look, and what the first global holds after the last turn.
pub fn second_cycle(heap: &Heap<'_>, me: &mut Mutator, sweeper: &mut Sweeper<'_>) -> ([u64; 2], u64)
    requires token { MayCall heap.now me.old }
    requires sweeper { IsSweeperOf heap.now sweeper.old }
    requires word { kind_of heap.now.setup 0 0 ≡ Some (Reference 0) }
    ensures token { MayCall heap.now me.new }
    ensures sweeper { IsSweeperOf heap.now sweeper.new }
{
    answer_each(heap, me, sweeper, 19);
    let before = sweeper.cycles();
    answer_each(heap, me, sweeper, 1);
    let after = sweeper.cycles();
    answer_each(heap, me, sweeper, 1);
    ([before, after], global(heap, me, 0))
}
