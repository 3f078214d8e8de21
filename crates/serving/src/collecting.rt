ghost use Rattle.std.specs.Prelude.{◌≡◌, ◌<◌, ◌≤◌, ◌++◌, List, length};
ghost use Rattle.colours.specs.declared.turn.Turn.{Turn};
ghost use Rattle.heap_table.specs.Sweepers.{IsSweeperOf, IsNowAt};
ghost use Rattle.serving.specs.Turns.{MayTurn};

use heap_table::{Heap, Sweeper};
use std::sync::atomic::{AtomicUsize, Ordering};

/// Makes turns of the collector, at most as many as the limit, and stops where the counter says after a turn that all threads have ended.
/// Returns how many were made.
#[tactic(auto, using(crate::proofs::Turns::turned))]
pub fn collect<'a>(
    heap: &Heap<'_>,
    sweeper: &mut Sweeper<'a>,
    limit: u32,
    ended: &AtomicUsize,
    threads: usize,
) -> u32
    requires { IsSweeperOf heap.now sweeper.old }
    ensures token { IsNowAt sweeper.old sweeper.new.log sweeper.new }
    ensures turns { (turns : List Turn) × (sweeper.new.log ≡ turns ++ sweeper.old.log) × (length turns ≡ result) }
    ensures limit { result ≤ limit }
    ensures first { 0 < limit → MayTurn sweeper.old.setup sweeper.old.log → 0 < result }
{
    for made in 0..limit {
        if sweeper.turn(heap).is_none() {
            return made;
        }
        if ended.load(Ordering::SeqCst) == threads {
            return made + 1;
        }
    }
    limit
}
