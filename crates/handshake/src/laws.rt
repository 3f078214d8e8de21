ghost use Rattle.std.specs.Prelude.{ℕ, List, ◌∷◌};
ghost use Rattle.pools.specs.Heap.{Setup};
ghost use Rattle.colours.specs.Calls.{Polling, MakesExactly, IsSafepoint};
ghost use Rattle.colours.specs.Steps.{Step};
ghost use Rattle.colours.specs.Mutator.{IsPossible};
ghost use Rattle.colours.specs.Runs.{Event, ByThread, log_of, TouchesAlive};
ghost use Rattle.colours.specs.Safety.{KeptIsAlive, IsMutatorRun};

/// The law of a safepoint: its lists of operations and results are exactly those that the order of a thread's steps allows.
pub fn safepoint_law()
    ensures { (s : Setup) (thread stage : ℕ) (roots : List ℕ) → MakesExactly thread stage (Polling roots) (IsSafepoint s stage roots) }
{}

/// The law of the threads, for every run of threads that obey the discipline in which the collector makes no step: what is
/// kept is alive, what a step touches is alive, and each answer is a possible one.
pub fn mutator_law()
    ensures kept { (s : Setup) (run : List Event) → IsMutatorRun s run → KeptIsAlive s run }
    ensures touched { (s : Setup) (run : List Event) (t : ℕ) (step : Step) → IsMutatorRun s (ByThread t step ∷ run) → TouchesAlive s run t step }
    ensures answered { (s : Setup) (run : List Event) (t : ℕ) (step : Step) → IsMutatorRun s (ByThread t step ∷ run) → IsPossible s (log_of t run) step }
{}
