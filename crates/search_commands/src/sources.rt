//! Where the schedules of a search come from, and what comes of some of its seeds.
ghost use Rattle.std.specs.Prelude.{◌≡◌, ◌≢◌, ◌≤◌, IfOk, IfErr};
ghost use Rattle.command_line.specs.declared.options.Draws.TheVariants as draws;
ghost use Rattle.trace_text.specs.Traces.{IsTraceOf};
ghost use Rattle.program_runner.specs.Setups.{HasNoFault, IsSetupFault};
ghost use Rattle.program_runner.specs.declared.setup_fault.SetupFault.TheVariants as fault;
ghost use Rattle.search_commands.specs.Sources.{Fits, IsFaultOf, IsHuntTried, IsSoakTried, IsTried, MayBegin};

use certs::Section;
use command_line::Draws;
use hunting::{BiasedOutcome, BrokenSeed, Hunted, first_broken, hunt};
use layout::Program;
use replay::{ReplayFault, Schedules, SeedBreak, SoakOutcome, soak};
use reports::Traced;
use std::alloc::Global;
use std::thread::Threads;

/// A program whose starts are drawn too. The arguments are below what these certificates promise.
#[derive(Clone, Copy)]
pub(crate) struct Hunt<'a> {
    pub program: &'a Program,
    pub sections: &'a [Section],
}

/// Where the schedules of a search come from.
#[derive(Clone, Copy)]
pub(crate) enum Source<'a> {
    /// Each seed draws the steps, from the start of a trace.
    Soak(&'a Traced, Draws),
    /// Each seed draws the steps with few switches, and of each 64 seeds the first one draws how runs begin.
    Hunt(Hunt<'a>),
}

/// What comes of the seeds of a search.
#[derive(Drop)]
pub(crate) enum Searched {
    /// No schedule of the seeds below this one broke its run. These were tried.
    SoundBelow(u32),
    /// The least seed whose uniform draws break its run.
    BrokenAt(SeedBreak),
    /// The first seed whose schedule broke its run, with its steps.
    Found(BrokenSeed),
}

/// Tries uniform draws.
fn try_uniform(
    rt: &(impl Threads + Sync),
    alloc: Global,
    traced: &Traced,
    seeds: Schedules,
) -> Result<Option<Searched>, ReplayFault>
    requires of_program { IsTraceOf traced.now.program traced.now.trace }
    requires range { seeds.first ≤ seeds.past }
    ensures tried { IfOk result (IsSoakTried draws.Uniform traced.now seeds) }
    ensures may_begin { IfOk result (λ _. HasNoFault traced.now.program traced.now.trace.setup) }
    ensures fault { IfErr result (λ e. e ≢ fault.Memory → IsSetupFault traced.now.program traced.now.trace.setup e) }
{
    match soak(rt, alloc, &traced.program, &traced.trace.setup, seeds)? {
        SoakOutcome::Broken(at) => Ok(Some(Searched::BrokenAt(at))),
        SoakOutcome::Sound => Ok(None),
    }
}

/// Tries draws with few switches.
fn try_biased(
    alloc: Global,
    traced: &Traced,
    seeds: Schedules,
) -> Result<Option<Searched>, ReplayFault>
    requires { IsTraceOf traced.now.program traced.now.trace }
    ensures tried { IfOk result (IsSoakTried draws.Biased traced.now seeds) }
    ensures may_begin { IfOk result (λ _. HasNoFault traced.now.program traced.now.trace.setup) }
    ensures fault { IfErr result (λ e. e ≢ fault.Memory → IsSetupFault traced.now.program traced.now.trace.setup e) }
{
    match first_broken(alloc, &traced.program, &traced.trace, seeds)? {
        BiasedOutcome::Broken(broken) => Ok(Some(Searched::Found(broken))),
        BiasedOutcome::Sound => Ok(None),
    }
}

/// Tries draws of starts and of steps. Where no start can be drawn, the search is over.
fn try_hunt(alloc: Global, of: Hunt<'_>, seeds: Schedules) -> Result<Option<Searched>, ReplayFault>
    requires { seeds.first ≤ seeds.past }
    ensures tried { IfOk result (IsHuntTried of.entry.program.now seeds) }
    ensures fault { IfErr result (λ e. e ≡ fault.Memory) }
{
    match hunt(alloc, of.program, of.sections, seeds) {
        Ok(Hunted::Broken(broken)) => Ok(Some(Searched::Found(broken))),
        Ok(Hunted::NoStart(seed)) => Ok(Some(Searched::SoundBelow(seed))),
        Ok(Hunted::Sound) => Ok(None),
        Err(_refused) => Err(ReplayFault::Memory),
    }
}

/// Tries these seeds of a source: with what the search is over, if it is. A trace whose threads may not begin is refused also where no seed
/// is tried.
pub(crate) fn try_seeds(
    rt: &(impl Threads + Sync),
    alloc: Global,
    source: Source<'_>,
    seeds: Schedules,
) -> Result<Option<Searched>, ReplayFault>
    requires fits { Fits source }
    requires range { seeds.first ≤ seeds.past }
    ensures tried { IfOk result (IsTried source.entry seeds) }
    ensures may_begin { IfOk result (λ _. MayBegin source.entry) }
    ensures fault { IfErr result (λ e. e ≢ fault.Memory → IsFaultOf source.entry e) }
{
    match source {
        Source::Soak(traced, Draws::Uniform) => try_uniform(rt, alloc, traced, seeds),
        Source::Soak(traced, Draws::Biased) => try_biased(alloc, traced, seeds),
        Source::Hunt(of) => try_hunt(alloc, of, seeds),
    }
}
