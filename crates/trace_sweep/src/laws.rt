ghost use Rattle.std.specs.Prelude.{ℕ, List, ◌∷◌};
ghost use Rattle.pools.specs.Heap.{Setup};
ghost use Rattle.colours.specs.Steps.{Step};
ghost use Rattle.colours.specs.Mutator.{IsPossible};
ghost use Rattle.colours.specs.Collector.{Collection};
ghost use Rattle.colours.specs.Runs.{Event, ByThread, log_of, IsRun, TouchesAlive, IsHeapRun};
ghost use Rattle.colours.specs.Safety.{KeptIsAlive, EachStageIsInStep, IsFree, LowersNoColour};
ghost use Rattle.collector_law.specs.Laws.{KeptIsBlack, IsPastTrace, ReferencesAreAlive, EachWordFits};
ghost use Rattle.trace_sweep.specs.Laws.{IsOfOrder, IsOnlyOfOrder};

/// The collector's machine makes the steps of the order, with those looks out of turn that its list asks for, and no others.
/// Where the list holds only cells that the order lets be looked at out of turn, so it does after the step.
pub fn order_law()
    ensures made { (s : Setup) (stage : ℕ) (listed : List ℕ) (c : Collection) (found : ℕ) → IsOfOrder s stage listed c found }
    ensures only { (s : Setup) (stage : ℕ) (listed : List ℕ) (c : Collection) (found : ℕ) → IsOnlyOfOrder s stage listed c found }
{}

/// In every run the stage word of each thread that has begun is the posted stage, the stage before it, or done;
/// and no step but a freeing lowers a colour word.
pub fn stage_law()
    ensures stages { (s : Setup) (run : List Event) → IsRun s run → EachStageIsInStep s run }
    ensures colours { (s : Setup) (run : List Event) (event : Event)
        → IsRun s (event ∷ run) → ¬ IsFree event → LowersNoColour s run event }
{}

/// In every run of threads that obey the discipline and of the collector each word fits its kind: an integer its bits,
/// and a reference is null or a cell of its layout.
pub fn word_law()
    ensures { (s : Setup) (run : List Event) → IsHeapRun s run → EachWordFits s run }
{}

/// Where threads obey the discipline: from the end of a trace to the next post, each kept cell is black.
pub fn trace_law()
    ensures { (s : Setup) (run : List Event) → IsHeapRun s run → IsPastTrace s run → KeptIsBlack s run }
{}

/// The heap theorem, for every run of the collector and of threads that obey the discipline, for every number of threads, late
/// ones among them, and for every pool. What is kept is alive with its own birth, and so is each reference that a thread still
/// holds. No thread's step touches a cell that is free or was claimed again, and each answer is a possible one.
pub fn heap_law()
    ensures kept { (s : Setup) (run : List Event) → IsHeapRun s run → KeptIsAlive s run }
    ensures held { (s : Setup) (run : List Event) → IsHeapRun s run → ReferencesAreAlive s run }
    ensures touched { (s : Setup) (run : List Event) (t : ℕ) (step : Step)
        → IsHeapRun s (ByThread t step ∷ run) → TouchesAlive s run t step }
    ensures answered { (s : Setup) (run : List Event) (t : ℕ) (step : Step)
        → IsHeapRun s (ByThread t step ∷ run) → IsPossible s (log_of t run) step }
{}
