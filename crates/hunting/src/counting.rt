//! How much happens in the runs of seeds.
ghost use Rattle.std.specs.Prelude.{◌≡◌, ◌≢◌, ◌≤◌, false, length, min, IfOk, IfErr, IfSome};
ghost use Rattle.trace_text.specs.Traces.{IsTraceOf};
ghost use Rattle.program_runner.specs.Setups.{IsSetupFault};
ghost use Rattle.program_runner.specs.declared.setup_fault.SetupFault.TheVariants as fault;
ghost use Rattle.replay.specs.Lists.{actors_of};
ghost use Rattle.replay.specs.DrawnValues.{setup_of_seed};
ghost use Rattle.replay.specs.Soaks.{actors_drawn};
ghost use Rattle.hunting.specs.Happened.{IsCounted, IsReportOfSeed, is_ended, ends_in, cycles_in, nothing, with_report};

use crate::biased_searching::biased_trace;
use crate::steps::with_steps;
use items::Items;
use layout::Program;
use program_runner::SetupFault;
use replay::{Outcome, Report, Schedules, ThreadOutcome, drawn_trace, replay, start_of_seed};
use std::alloc::Global;
use trace_text::{STEP_LIMIT, Trace};

/// The runs of which is counted how much happens.
#[derive(Clone, Copy)]
pub struct Sample {
    pub schedules: Schedules,
    /// Whether the seeds draw with few switches between actors, and not uniformly.
    pub biased: bool,
    /// After how many steps no further seeds are looked at.
    pub budget: u64,
}

/// How much happened in the runs of some seeds.
#[derive(Clone, Copy)]
pub struct Happened {
    /// How many seeds this was counted of.
    pub seeds: u32,
    /// Cells that were claimed, and cells that were freed.
    pub claims: u64,
    pub frees: u64,
    /// Cycles of the collector that ended: after each it has asked for the first stage of the next one.
    pub cycles: u64,
    /// Threads that ended.
    pub ends: u64,
}

/// Whether a thread has ended.
fn is_ended(outcome: &ThreadOutcome) -> bool
    ensures { result ≡ is_ended outcome.now }
{
    match outcome {
        ThreadOutcome::Returned(_) | ThreadOutcome::Ended => true,
        ThreadOutcome::Absent | ThreadOutcome::Running(_) => false,
    }
}

/// How many threads of a run ended.
fn ends_in(report: &Report) -> usize
    ensures { result ≡ ends_in report.now }
{
    report
        .threads
        .as_slice()
        .iter()
        .filter(|outcome| is_ended(outcome))
        .count()
}

/// How many cycles of the collector ended in a run. Each has three stages.
fn cycles_in(report: &Report) -> u64
    ensures { result ≡ cycles_in report.now }
{
    report.posted.saturating_sub(1) / 3
}

impl Happened {
    /// What happened in no run.
    pub(crate) fn nothing() -> Self
        ensures { result ≡ nothing }
    {
        Happened {
            seeds: 0,
            claims: 0,
            frees: 0,
            cycles: 0,
            ends: 0,
        }
    }

    /// What happened in one more run too, if the counts have room for it.
    pub(crate) fn with(self, report: &Report) -> Option<Happened>
        ensures { IfSome result (λ more. more ≡ with_report self report.now) }
    {
        Some(Happened {
            seeds: self.seeds.checked_add(1)?,
            claims: self.claims.checked_add(report.claims)?,
            frees: self.frees.checked_add(report.frees)?,
            cycles: self.cycles.checked_add(cycles_in(report))?,
            ends: self.ends.checked_add(ends_in(report) as u64)?,
        })
    }
}

impl Sample {
    /// The same runs, without the steps past a trace's limit.
    fn within_limit(self) -> Sample
        ensures { result ≡ record self { schedules = record self.schedules { steps = min self.schedules.steps 10000000 } } }
    {
        let steps = self.schedules.steps.min(STEP_LIMIT as u32);
        Sample {
            schedules: Schedules {
                steps,
                ..self.schedules
            },
            ..self
        }
    }
}

/// A trace with the steps that a seed draws, uniformly or with few switches, from the start of the seed.
fn trace_of_seed(
    alloc: Global,
    program: &Program,
    start: &Trace,
    seed: u32,
    sample: Sample,
) -> Result<Trace, SetupFault>
    requires is_trace { IsTraceOf program.now start.now }
    requires few { sample.schedules.steps ≤ 10000000 }
    ensures is_trace { IfOk result (IsTraceOf program.now) }
    ensures setup { IfOk result (λ made. made.setup ≡ setup_of_seed sample.schedules.drawn_values program.now start.now.setup seed) }
    ensures steps { sample.biased ≡ false → IfOk result (λ made. actors_of made.steps ≡ actors_drawn (length made.setup.starts) seed sample.schedules.steps) }
    ensures fault { IfErr result (λ e. e ≢ fault.Memory → IsSetupFault program.now start.now.setup e) }
{
    let Schedules {
        steps,
        drawn_values,
        ..
    } = sample.schedules;
    let before = with_steps(alloc, program, start, Items::new(alloc))?;
    let begun = start_of_seed(alloc, program, before, seed, drawn_values)?;
    if sample.biased {
        let trace = biased_trace(alloc, program, &begun, seed, steps);
        drop(begun);
        return trace;
    }
    let trace = drawn_trace(alloc, begun, seed, steps)?;
    Ok(trace)
}

/// Where the actors are after the steps that a seed draws, if no step breaks the run.
fn report_of_seed(
    alloc: Global,
    program: &Program,
    start: &Trace,
    seed: u32,
    sample: Sample,
) -> Result<Option<Report>, SetupFault>
    requires is_trace { IsTraceOf program.now start.now }
    requires few { sample.schedules.steps ≤ 10000000 }
    ensures report { sample.biased ≡ false → IfOk result (λ report. IfSome report (IsReportOfSeed program.now (setup_of_seed sample.schedules.drawn_values program.now start.now.setup) sample.schedules.steps seed)) }
    ensures fault { IfErr result (λ e. e ≢ fault.Memory → IsSetupFault program.now start.now.setup e) }
{
    let trace = trace_of_seed(alloc, program, start, seed, sample)?;
    match replay(alloc, program, &trace)? {
        Outcome::Sound(report) => Ok(Some(report)),
        Outcome::Broken(_) => Ok(None),
    }
}

/// Counts what happens in the steps that seeds draw from the start of a trace, in their order. It ends with the last of the seeds, once the
/// budget is spent, or at a seed whose schedule breaks its run. A seed's steps past a trace's limit are left out.
pub fn counted(
    alloc: Global,
    program: &Program,
    start: &Trace,
    sample: Sample,
) -> Result<Happened, SetupFault>
    requires { IsTraceOf program.now start.now }
    ensures counted { sample.biased ≡ false → IfOk result (IsCounted program.now (setup_of_seed sample.schedules.drawn_values program.now start.now.setup) (min sample.schedules.steps 10000000) sample.schedules.first) }
    ensures fault { IfErr result (λ e. e ≢ fault.Memory → IsSetupFault program.now start.now.setup e) }
{
    let few = sample.within_limit();
    let mut happened = Happened::nothing();
    let mut spent: u64 = 0;
    for seed in sample.schedules.first..sample.schedules.past {
        if spent >= sample.budget {
            return Ok(happened);
        }
        let Some(report) = report_of_seed(alloc, program, start, seed, few)? else {
            return Ok(happened);
        };
        let Some(more) = happened.with(&report) else {
            return Ok(happened);
        };
        happened = more;
        spent = spent.saturating_add(u64::from(few.schedules.steps));
    }
    Ok(happened)
}
