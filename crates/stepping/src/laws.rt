ghost use Rattle.std.specs.Prelude.{ℕ, ◌∷◌, Option, None, List};
ghost use Rattle.pools.specs.Heap.{Setup};
ghost use Rattle.runs.specs.Machine.{machine_of};
ghost use Rattle.runs.specs.ModuleRuns.{Happening, IsModuleRun};
ghost use Rattle.moves.specs.declared.actor.Actor.{Actor};
ghost use Rattle.moves.specs.Runs.{run_by, AreActors};
ghost use Rattle.stepping.specs.declared.cover.Cover.{Cover};
ghost use Rattle.stepping.specs.declared.happening.MadeStep.{MadeStep};
ghost use Rattle.stepping.specs.Covers.{IsCovered};
ghost use Rattle.stepping.specs.Ends.{IsStepOrNone, IsQuiet};
ghost use Rattle.stepping.specs.Reach.{IsFirstGone, LosesNothing};

use runs::Machine;

/// The law of losses: where nothing that is gone can be reached, nothing can be after a step that loses nothing. Such a step
/// frees no cell, stores no reference, begins no thread, and leaves the roots of its thread unchanged.
pub fn loss_law<M: Machine>()
    ensures { (s : Setup) (starts : ℕ → M) (run : List Happening) (happening : Happening)
        → IsModuleRun s (machine_of M.action M.after_answer M.roots) starts (happening ∷ run)
        → LosesNothing s (machine_of M.action M.after_answer M.roots) starts run happening
        → IsFirstGone s (machine_of M.action M.after_answer M.roots) starts run None
        → IsFirstGone s (machine_of M.action M.after_answer M.roots) starts (happening ∷ run) None }
{}

/// The law of covers: a cover stays one after a step that loses nothing.
pub fn cover_law<M: Machine>()
    ensures { (s : Setup) (starts : ℕ → M) (before : List Actor) (actor : Actor) (made : Option MadeStep) (cover : Cover)
        → AreActors s.threads (actor ∷ before)
        → IsStepOrNone s (machine_of M.action M.after_answer M.roots) starts (run_by s (machine_of M.action M.after_answer M.roots) starts before) actor made
        → IsQuiet made
        → IsCovered s (machine_of M.action M.after_answer M.roots) starts (run_by s (machine_of M.action M.after_answer M.roots) starts before) cover
        → IsCovered s (machine_of M.action M.after_answer M.roots) starts (run_by s (machine_of M.action M.after_answer M.roots) starts (actor ∷ before)) cover }
{}
