//! A late thread beside one that has begun, each on a real thread.
ghost use Rattle.std.specs.Prelude.{◌≡◌, ◌<◌, IsTrue, length, Some};
ghost use Rattle.pools.specs.Heap.{kind_of};
ghost use Rattle.pools.specs.declared.word_kind.WordKind.TheVariants.{Reference};
ghost use Rattle.heap_table.specs.Holders.{IsOf, MayCall, MayBegin};
ghost use Rattle.heap_table.specs.Sweepers.{IsSweeperOf};

use crate::cycles::answer_each;
use crate::steps::{finish, global, keep_a_cell};
use heap_table::{Heap, Mutator, Sweeper};
use std::sync::atomic::{AtomicBool, Ordering};
use std::thread::{Threads, join_mut};

/// How often a thread looks at most whether the other one has done something.
const LOOKS: u32 = u32::MAX;

/// How often a late thread tries to begin at most.
const TRIES: u32 = 100_000_000;

/// How many turns the collector makes before the late thread begins.
const TURNS_BEFORE: u32 = 24;

/// What the two threads tell each other beside the heap.
#[derive(Drop)]
struct Signs {
    /// The first thread has written its cell, and stages are posted.
    are_posted: AtomicBool,
    /// The late thread has ended.
    has_ended: AtomicBool,
}

impl Signs {
    /// Waits until stages are posted.
    fn wait_for_posts(&self) {
        for _look in 0..LOOKS {
            if self.are_posted.load(Ordering::SeqCst) {
                return;
            }
        }
    }
}

/// One thread writes a cell to the first global, and works on as the collector and answers it, until a late one has begun, read
/// that global and ended. Returns the cell; and the stage at which the late one began, and what it read.
pub fn read_late(
    rt: &impl Threads,
    heap: &Heap<'_>,
    first: &mut Mutator,
    late: &mut Mutator,
    sweeper: &mut Sweeper<'_>,
) -> (u32, Option<(u64, u64)>)
    requires first { MayCall heap.now first.old }
    requires late { MayBegin heap.now late.old }
    requires sweeper { IsSweeperOf heap.now sweeper.old }
    requires layout { 0 < length heap.now.setup.pools }
    requires word { kind_of heap.now.setup 0 0 ≡ Some (Reference 0) }
    ensures first { IsOf heap.now first.new }
    ensures late { IsOf heap.now late.new }
    ensures sweeper { IsSweeperOf heap.now sweeper.new }
{
    let signs = Signs {
        are_posted: AtomicBool::new(false),
        has_ended: AtomicBool::new(false),
    };
    join_mut(
        rt,
        &mut || -> u32
            requires token { MayCall heap.now first.now }
            requires sweeper { IsSweeperOf heap.now sweeper.now }
            requires layout { 0 < length heap.now.setup.pools }
            requires word { kind_of heap.now.setup 0 0 ≡ Some (Reference 0) }
            ensures token { IsOf heap.entry.now first.exit.now }
            ensures sweeper { IsSweeperOf heap.entry.now sweeper.exit.now }
        { write_and_collect(heap, first, sweeper, &signs) },
        &mut || -> Option<(u64, u64)>
            requires token { MayBegin heap.now late.now }
            requires word { kind_of heap.now.setup 0 0 ≡ Some (Reference 0) }
            ensures { IsOf heap.entry.now late.exit.now }
        { begin_and_end(heap, late, &signs) },
    )
}

/// Writes a cell to the first global, and makes turns of the collector and answers it, until the late thread has ended.
fn write_and_collect(
    heap: &Heap<'_>,
    me: &mut Mutator,
    sweeper: &mut Sweeper<'_>,
    signs: &Signs,
) -> u32
    requires token { MayCall heap.now me.old }
    requires sweeper { IsSweeperOf heap.now sweeper.old }
    requires layout { 0 < length heap.now.setup.pools }
    requires word { kind_of heap.now.setup 0 0 ≡ Some (Reference 0) }
    ensures token { IsOf heap.now me.new }
    ensures sweeper { IsSweeperOf heap.now sweeper.new }
{
    let (cell, _) = keep_a_cell(heap, me, 0);
    answer_each(heap, me, sweeper, TURNS_BEFORE);
    signs.are_posted.store(true, Ordering::SeqCst);
    collect_until_end(heap, me, sweeper, signs);
    finish(heap, me);
    cell
}

/// Makes turns of the collector and answers it, until the late thread has ended.
fn collect_until_end(heap: &Heap<'_>, me: &mut Mutator, sweeper: &mut Sweeper<'_>, signs: &Signs)
    requires token { MayCall heap.now me.old }
    requires sweeper { IsSweeperOf heap.now sweeper.old }
    ensures token { MayCall heap.now me.new }
    ensures sweeper { IsSweeperOf heap.now sweeper.new }
{
    for _look in 0..LOOKS {
        if signs.has_ended.load(Ordering::SeqCst) {
            return;
        }
        answer_each(heap, me, sweeper, 1);
    }
}

/// Once stages are posted, begins, reads the first global, and ends.
fn begin_and_end(heap: &Heap<'_>, me: &mut Mutator, signs: &Signs) -> Option<(u64, u64)>
    requires token { MayBegin heap.now me.old }
    requires word { kind_of heap.now.setup 0 0 ≡ Some (Reference 0) }
    ensures { IsOf heap.now me.new }
{
    signs.wait_for_posts();
    let seen = begin_and_read(heap, me);
    signs.has_ended.store(true, Ordering::SeqCst);
    seen
}

/// Begins, reads the first global, and finishes. Returns the stage at which it began, and what it read.
fn begin_and_read(heap: &Heap<'_>, me: &mut Mutator) -> Option<(u64, u64)>
    requires token { MayBegin heap.now me.old }
    requires word { kind_of heap.now.setup 0 0 ≡ Some (Reference 0) }
    ensures { IsOf heap.now me.new }
{
    if !begin_at_last(heap, me) {
        return None;
    }
    let seen = (me.stage(), global(heap, me, 0));
    finish(heap, me);
    Some(seen)
}

/// Tries to begin until it has.
fn begin_at_last(heap: &Heap<'_>, me: &mut Mutator) -> bool
    requires { MayBegin heap.now me.old }
    ensures of { IsOf heap.now me.new }
    ensures begun { IsTrue result → MayCall heap.now me.new }
{
    for _try in 0..TRIES {
        if heap.begin(me) {
            return true;
        }
    }
    false
}
