//! The schedule of a seed that breaks a run.
ghost use Rattle.std.specs.Prelude.{◌≡◌, ◌≤◌, ℕ, length, IfOk};
ghost use Rattle.layout.specs.Layouts.{LaidOut};
ghost use Rattle.trace_text.specs.Traces.{IsTraceOf, step_sum};
ghost use Rattle.replay.specs.Lists.{actors_of, IsFirstBreak};
ghost use Rattle.replay.specs.Outcomes.{IsOutcome};
ghost use Rattle.replay.specs.Soaks.{actors_drawn};
ghost use Rattle.replay.specs.declared.outcome.Outcome.TheVariants as outcome;

use crate::merging::merged;
use replay::{SeedBreak, drawn_trace};
use std::alloc::{AllocError, Global};
use trace_text::Trace;

/// A trace with the steps that a seed draws up to its break, in place of its own.
pub fn broken_trace(alloc: Global, trace: Trace, at: SeedBreak) -> Result<Trace, AllocError>
    requires threads { length trace.setup.starts ≤ 64 }
    requires few { at.broken.step ≤ 10000000 }
    ensures setup { IfOk result (λ saved. saved.setup ≡ trace.setup) }
    ensures is_trace { (p : LaidOut) → IsTraceOf p trace → IfOk result (IsTraceOf p) }
    ensures steps { IfOk result (λ saved. actors_of saved.steps ≡ actors_drawn (length trace.setup.starts) at.seed at.broken.step) }
    ensures ends { IfOk result (λ saved. step_sum saved.steps ≡ at.broken.step) }
    // Its first broken step, the last one, is the seed's, with the same actor and the same cause.
    ensures breaks { (p : LaidOut) (steps : ℕ) → IsFirstBreak p trace.setup (actors_drawn (length trace.setup.starts) at.seed steps) at.broken
        → IfOk result (λ saved. IsOutcome p saved (outcome.Broken at.broken)) }
{
    let steps = at.broken.step as u32;
    let drawn = drawn_trace(alloc, trace, at.seed, steps)?;
    let Trace { setup, steps } = drawn;
    match merged(alloc, steps.as_slice()) {
        Ok(steps) => Ok(Trace { setup, steps }),
        Err(_refused) => Err(AllocError),
    }
}
