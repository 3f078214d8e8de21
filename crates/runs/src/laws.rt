ghost use Rattle.std.specs.Prelude.{ℕ, ◌≡◌, List, [], ◌∷◌};
ghost use Rattle.pools.specs.Heap.{Setup, IsSetup};
ghost use Rattle.runs.specs.Machine.{machine_of};
ghost use Rattle.runs.specs.ModuleRuns.{Happening};
ghost use Rattle.runs.specs.Broken.{CausesName};
ghost use Rattle.runs.specs.Promises.{AreCareful, IsSafe, CarefulIsSafe, CarefulIsNeverWrong};
ghost use Rattle.runs.specs.Soundness.{AreSound};
ghost use Rattle.runs.specs.NextMoves.{NextMovesAreNext, NextMovesAreOnly, IsSightOf, sight_after};
ghost use Rattle.runs.specs.Tries.{HintsInOrder};
ghost use Rattle.runs.specs.Ends.{Standing, StandsAfter, GoesOn, begun};
ghost use Rattle.runs.specs.RealThreads.{CarefulMeetsConditions};

use crate::machine::{Judged, Machine};
use trace_sweep::heap_law;

/// The safety theorem, for every machine, every number of threads, late ones among them, and every pool. Threads that obey the
/// discipline as long as each answer is possible make runs with no broken end: no thread goes wrong, none touches a cell that
/// is free or was claimed again, and no such cell is reachable from the globals or a root.
pub fn safety_law<M: Machine>()
    ensures safe { (s : Setup) → CarefulIsSafe s (machine_of M.action M.after_answer M.roots) }
    ensures never_wrong { (s : Setup) → CarefulIsNeverWrong s (machine_of M.action M.after_answer M.roots) }
{
    heap_law();
}

/// The discipline theorem, from soundness at whole calls: a thread at whose start a sound predicate holds obeys the
/// discipline at each move of each call. So runs of such threads are safe.
pub fn soundness_law<M: Judged>()
    ensures careful { (s : Setup) (starts : ℕ → M)
        → AreSound s (machine_of M.action M.after_answer M.roots) (M.sound s) starts
        → AreCareful s (machine_of M.action M.after_answer M.roots) starts }
    ensures safe { (s : Setup) (starts : ℕ → M) → IsSetup s
        → AreSound s (machine_of M.action M.after_answer M.roots) (M.sound s) starts
        → IsSafe s (machine_of M.action M.after_answer M.roots) starts }
{
    safety_law::<M>();
}

/// The law of causes. The first cause of a run's end, by the kinds in their order and then by the cell, shows that the end is
/// broken. There is at most one, and an end without one isn't broken.
pub fn cause_law<M: Machine>()
    ensures { (s : Setup) (starts : ℕ → M) (run : List Happening) → CausesName s (machine_of M.action M.after_answer M.roots) starts run }
{}

/// The law of next moves: after every run, the move that a thread's state and the contents of the heap determine may happen
/// next, if the cell that an alloc tries next is one of the pool that was not tried. No other move may, but the try of another
/// cell. Only a thread that has ended has no next move. The cell is such a one where a pool's cells are tried from the thread's
/// hint to the pool's end, and then from the first one up to the hint.
pub fn next_move_law<M: Machine>()
    ensures next { (s : Setup) → NextMovesAreNext s (machine_of M.action M.after_answer M.roots) }
    ensures only { (s : Setup) → NextMovesAreOnly s (machine_of M.action M.after_answer M.roots) }
    ensures hints { (s : Setup) → HintsInOrder s (machine_of M.action M.after_answer M.roots) }
    ensures sight { (s : Setup) (run : List Happening) (order : ℕ → List ℕ → ℕ) → IsSightOf s run (sight_after s run order) }
{}

/// The law of standings: where a thread is before its first move; and, from where it is after a run, its next move and
/// where it is after one more happening.
pub fn standing_law<M: Machine>()
    ensures begun { (s : Setup) (starts : ℕ → M) (t : ℕ) → StandsAfter s (machine_of M.action M.after_answer M.roots) starts [] t (begun s (machine_of M.action M.after_answer M.roots) starts t) }
    ensures goes_on { (s : Setup) (starts : ℕ → M) (run : List Happening) (t : ℕ) (thread_state : Standing M)
        → StandsAfter s (machine_of M.action M.after_answer M.roots) starts run t thread_state
        → GoesOn s (machine_of M.action M.after_answer M.roots) starts run t thread_state }
{}

/// The law of real threads, whose references have no births: after a log of possible answers each call that the machine of a
/// careful thread asks for meets the heap's conditions.
pub fn real_thread_law<M: Machine>()
    ensures { (s : Setup) → CarefulMeetsConditions s (machine_of M.action M.after_answer M.roots) }
{}
