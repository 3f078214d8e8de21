ghost use Rattle.std.specs.Prelude.{ℕ, ◌≡◌, ◌<◌, ◌∷◌, Option, List};
ghost use Rattle.pools.specs.Heap.{Setup};
ghost use Rattle.runs.specs.Machine.{WordValue, machine_of};
ghost use Rattle.runs.specs.ModuleRuns.{Happening, OfThread, share_of, IsModuleRun};
ghost use Rattle.runs.specs.Ends.{StandsAfter, next_move_of};
ghost use Rattle.runs.specs.Tries.{TriesByHint};
ghost use Rattle.moves.specs.declared.actor.Actor.{Actor};
ghost use Rattle.moves.specs.declared.actor.Actor.TheVariants.{Thread};
ghost use Rattle.moves.specs.declared.cause.Cause.{Cause};
ghost use Rattle.moves.specs.declared.moves.Move.{Move};
ghost use Rattle.moves.specs.declared.shared.Shared.{Shared};
ghost use Rattle.moves.specs.declared.thread_state.ThreadState.{ThreadState};
ghost use Rattle.moves.specs.Runs.{run_by, next_by, by_thread, AreActors};
ghost use Rattle.moves.specs.Calls.{move_in};
ghost use Rattle.moves.specs.Causes.{Breaks, IsStepCause};
ghost use Rattle.moves.specs.Shared.{AreAfter};
ghost use Rattle.moves.specs.Stands.{standing, sight_in};

use runs::Machine;

/// The law of drawn runs, for every machine: the run that a list of actors makes is a run of its threads and of the collector.
/// In it each thread tries the cells of a pool from its hint to the pool's end, and then from the first one up to the hint.
pub fn drawn_law<M: Machine>()
    ensures is_run { (s : Setup) (starts : ℕ → M) (actors : List Actor) → AreActors s.threads actors
        → IsModuleRun s (machine_of M.action M.after_answer M.roots) starts (run_by s (machine_of M.action M.after_answer M.roots) starts actors) }
    ensures hints { (s : Setup) (starts : ℕ → M) (actors : List Actor) (t : ℕ) → AreActors s.threads actors → t < s.threads
        → TriesByHint s (machine_of M.action M.after_answer M.roots) t (starts t) (share_of t (run_by s (machine_of M.action M.after_answer M.roots) starts actors)) }
{}

/// The law of sights: where the words and births are those after a run, and a thread is in its state after its share of the
/// run, the next move from these is the thread's next step in the run.
pub fn sight_law<M: Machine>()
    ensures { (s : Setup) (starts : ℕ → M) (run : List Happening) (t : ℕ) (thread_state : ThreadState M) (shared : Shared) → AreAfter s run shared
        → StandsAfter s (machine_of M.action M.after_answer M.roots) starts run t (standing s (machine_of M.action M.after_answer M.roots) thread_state)
        → next_by s (machine_of M.action M.after_answer M.roots) starts run (Thread t) ≡ by_thread t (next_move_of s (machine_of M.action M.after_answer M.roots) (sight_in s shared thread_state.hints) (standing s (machine_of M.action M.after_answer M.roots) thread_state)) }
{}

/// The law of touches: where the words and births are those after a run, the cause that they give for a move is the first by
/// which the run is broken after it. Where they give none, the move is not wrong and touches no cell that is gone.
pub fn touch_law<M: Machine>()
    ensures { (s : Setup) (starts : ℕ → M) (run : List Happening) (t : ℕ) (roots : List WordValue) (shared : Shared) (made : Move) (cause : Option Cause) → AreAfter s run shared → Breaks shared made cause
        → IsStepCause s (machine_of M.action M.after_answer M.roots) starts (OfThread t (move_in roots made) ∷ run) cause }
{}
