//! The search for a seed whose schedule breaks its run.
ghost use Rattle.std.specs.Prelude.{◌≡◌, ◌≢◌, ◌≤◌, min, None, List, IfOk, IfErr, IfSome};
ghost use Rattle.certs.specs.declared.section.Section.{Section};
ghost use Rattle.trace_text.specs.Traces.{IsTraceOf, step_sum};
ghost use Rattle.program_runner.specs.Setups.{IsSetupFault, HasNoFault, IsCertifiedSetup};
ghost use Rattle.program_runner.specs.declared.setup_fault.SetupFault.TheVariants as fault;
ghost use Rattle.replay.specs.DrawnValues.{setup_of_seed};
ghost use Rattle.hunting.specs.Shorter.{IsBreaking};
ghost use Rattle.hunting.specs.Biased.{IsBiasedOutcome, IsSoundOutcome};

use crate::biased_drawing::drawn_steps;
use crate::breaking::BrokenTrace;
use crate::judging::broken_trace_of;
use crate::steps::with_steps;
use items::Items;
use layout::Program;
use program_runner::SetupFault;
use replay::{Schedules, draws_values, replay, start_of_seed};
use std::alloc::Global;
use trace_text::{STEP_LIMIT, Trace};

/// A seed whose schedule breaks its run.
#[derive(Drop)]
pub struct BrokenSeed {
    pub seed: u32,
    /// The schedule up to its break.
    pub found: BrokenTrace,
}

/// The outcome of many seeds: the first one whose schedule breaks its run, or that none was found.
#[derive(Drop)]
pub enum BiasedOutcome {
    Broken(BrokenSeed),
    Sound,
}

/// The schedule that a seed draws, up to its break, if it breaks its run.
fn broken_by_seed(
    alloc: Global,
    program: &Program,
    start: &Trace,
    seed: u32,
    steps: u32,
) -> Result<Option<BrokenTrace>, SetupFault>
    requires { IsTraceOf program.now start.now }
    ensures breaking { IfOk result (λ found. IfSome found (λ f. IsBreaking program.now f.trace f.broken)) }
    ensures setup { IfOk result (λ found. IfSome found (λ f. f.trace.setup ≡ start.now.setup)) }
    ensures safe { (certs : List Section) → IsCertifiedSetup program.now start.now.setup certs → IfOk result (λ found. found ≡ None) }
    ensures fault { IfErr result (λ e. e ≢ fault.Memory → IsSetupFault program.now start.now.setup e) }
{
    let steps = steps.min(STEP_LIMIT as u32);
    let drawn = drawn_steps(alloc, program, &start.setup, seed, steps)?;
    if !drawn.may_break {
        return Ok(None);
    }
    let trace = with_steps(alloc, program, start, drawn.lines)?;
    let found = broken_trace_of(alloc, program, &trace)?;
    Ok(found)
}

/// The same from the start of the seed: with the numbers that it draws too, where it draws some.
fn broken_of_seed(
    alloc: Global,
    program: &Program,
    start: &Trace,
    seed: u32,
    schedules: Schedules,
) -> Result<Option<BrokenTrace>, SetupFault>
    requires { IsTraceOf program.now start.now }
    ensures breaking { IfOk result (λ found. IfSome found (λ f. IsBreaking program.now f.trace f.broken)) }
    ensures setup { IfOk result (λ found. IfSome found (λ f. f.trace.setup ≡ setup_of_seed schedules.drawn_values program.now start.now.setup seed)) }
    ensures safe { (certs : List Section) → IsCertifiedSetup program.now start.now.setup certs → IfOk result (λ found. found ≡ None) }
    ensures fault { IfErr result (λ e. e ≢ fault.Memory → IsSetupFault program.now start.now.setup e) }
{
    if !draws_values(program, schedules.drawn_values) {
        return broken_by_seed(alloc, program, start, seed, schedules.steps);
    }
    let before = with_steps(alloc, program, start, Items::new(alloc))?;
    let begun = start_of_seed(alloc, program, before, seed, schedules.drawn_values)?;
    let found = broken_by_seed(alloc, program, &begun, seed, schedules.steps);
    drop(begun);
    found
}

/// A trace with the steps that a seed draws, as many as these at most, from the start of a trace. Steps past a trace's limit are left out.
pub fn biased_trace(
    alloc: Global,
    program: &Program,
    start: &Trace,
    seed: u32,
    steps: u32,
) -> Result<Trace, SetupFault>
    requires { IsTraceOf program.now start.now }
    ensures is_trace { IfOk result (IsTraceOf program.now) }
    ensures setup { IfOk result (λ made. made.setup ≡ start.now.setup) }
    ensures few { IfOk result (λ made. step_sum made.steps ≤ min steps 10000000) }
    ensures fault { IfErr result (λ e. e ≢ fault.Memory → IsSetupFault program.now start.now.setup e) }
{
    let steps = steps.min(STEP_LIMIT as u32);
    let drawn = drawn_steps(alloc, program, &start.setup, seed, steps)?;
    let trace = with_steps(alloc, program, start, drawn.lines)?;
    Ok(trace)
}

/// Whether the threads of a trace may begin.
fn may_begin(alloc: Global, program: &Program, start: &Trace) -> Result<(), SetupFault>
    requires { IsTraceOf program.now start.now }
    ensures no_fault { IfOk result (λ _. HasNoFault program.now start.now.setup) }
    ensures fault { IfErr result (λ e. e ≢ fault.Memory → IsSetupFault program.now start.now.setup e) }
{
    let before = with_steps(alloc, program, start, Items::new(alloc))?;
    let _outcome = replay(alloc, program, &before)?;
    Ok(())
}

/// Draws a schedule with few switches for each seed, from the start of a trace: the first one that breaks its run, up to the break. It was
/// replayed. Steps past a trace's limit are left out.
pub fn first_broken(
    alloc: Global,
    program: &Program,
    start: &Trace,
    schedules: Schedules,
) -> Result<BiasedOutcome, SetupFault>
    requires { IsTraceOf program.now start.now }
    ensures outcome { IfOk result (IsBiasedOutcome program.now (setup_of_seed schedules.drawn_values program.now start.now.setup) schedules.first schedules.past) }
    ensures no_fault { IfOk result (λ _. HasNoFault program.now start.now.setup) }
    ensures fault { IfErr result (λ e. e ≢ fault.Memory → IsSetupFault program.now start.now.setup e) }
    // Where the program is certified, and the threads begin with what its certificates promise, there is none.
    ensures safe { (certs : List Section) → IsCertifiedSetup program.now start.now.setup certs → IfOk result IsSoundOutcome }
{
    may_begin(alloc, program, start)?;
    for seed in schedules.first..schedules.past {
        match broken_of_seed(alloc, program, start, seed, schedules) {
            Ok(Some(found)) => return Ok(BiasedOutcome::Broken(BrokenSeed { seed, found })),
            Ok(None) => {}
            Err(fault) => return Err(fault),
        }
    }
    Ok(BiasedOutcome::Sound)
}
