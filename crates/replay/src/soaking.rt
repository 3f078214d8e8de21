ghost use Rattle.std.specs.Prelude.{◌≡◌, ◌≢◌, ◌≤◌, List, not, IfOk, IfErr};
ghost use Rattle.certs.specs.declared.section.Section.{Section};
ghost use Rattle.program_runner.specs.Setups.{IsSetupOf, IsSetupFault, HasNoFault, IsCertifiedSetup};
ghost use Rattle.program_runner.specs.declared.setup_fault.SetupFault.TheVariants as fault;
ghost use Rattle.replay.specs.DrawnValues.{setup_of_seed};
ghost use Rattle.replay.specs.Soaks.{IsSoakOutcome, IsSoundSoak, IsEndOfSeed, IsTold, IsLeastFrom, is_sound, answer_in};

use crate::drawing::actor_drawn;
use crate::drawn_values::{draws_values, setup_drawn};
use crate::outcome::{Break, SeedBreak, SoakOutcome};
use crate::seeds::{draw, seeded};
use crate::watch::Watch;
use layout::Program;
use program_runner::{SetupFault, setup_law};
use rayon::prelude::*;
use std::alloc::Global;
use std::thread::Threads;
use trace_text::Setup;

/// The number of seeds that are tried before it is asked whether one of them was broken.
const CHUNK: u32 = 256;

/// The schedules of the seeds from `first` to below `past`, each of this many steps.
#[derive(Clone, Copy)]
pub struct Schedules {
    pub first: u32,
    pub past: u32,
    pub steps: u32,
    /// Whether each seed also draws the numbers that threads get from outside after those of the setup. Only the wide forms have such numbers.
    pub drawn_values: bool,
}

/// The outcome of one seed: where its schedule first breaks its run, if it does.
#[derive(Clone, Copy)]
struct SeedEnd {
    seed: u32,
    told: Result<Option<Break>, SetupFault>,
}

impl SeedEnd {
    /// The seed with its break, if there is one.
    fn answer(self) -> Result<Option<SeedBreak>, SetupFault>
        ensures { result ≡ answer_in self.seed self.told }
    {
        match self.told {
            Ok(None) => Ok(None),
            Ok(Some(broken)) => Ok(Some(SeedBreak {
                seed: self.seed,
                broken,
            })),
            Err(fault) => Err(fault),
        }
    }
}

/// Runs the schedule of each seed: the least seed whose schedule breaks its run, whichever ended first.
pub fn soak(
    rt: &(impl Threads + Sync),
    alloc: Global,
    program: &Program,
    setup: &Setup,
    schedules: Schedules,
) -> Result<SoakOutcome, SetupFault>
    requires setup { IsSetupOf program.now setup.now }
    requires range { schedules.first ≤ schedules.past }
    ensures outcome { IfOk result (IsSoakOutcome program.now (setup_of_seed schedules.drawn_values program.now setup.now) schedules.first schedules.past schedules.steps) }
    ensures no_fault { IfOk result (λ _. HasNoFault program.now setup.now) }
    ensures fault { IfErr result (λ e. e ≢ fault.Memory → IsSetupFault program.now setup.now e) }
    // Where the program is certified, and the threads begin with what its certificates promise, no schedule breaks its run.
    ensures safe { (certs : List Section) → IsCertifiedSetup program.now setup.now certs → IfOk result IsSoundSoak }
{
    setup_law();
    may_begin(alloc, program, setup)?;
    let Schedules { first, past, .. } = schedules;
    let mut next = first;
    while next < past {
        let end = next + CHUNK.min(past - next);
        let chunk = Schedules {
            first: next,
            past: end,
            ..schedules
        };
        if let Some(broken) = least_broken(rt, alloc, program, setup, chunk)? {
            return Ok(SoakOutcome::Broken(broken));
        }
        next = end;
    }
    Ok(SoakOutcome::Sound)
}

/// Whether the threads of a setup may begin.
fn may_begin(alloc: Global, program: &Program, setup: &Setup) -> Result<(), SetupFault>
    requires { IsSetupOf program.now setup.now }
    ensures no_fault { IfOk result (λ _. HasNoFault program.now setup.now) }
    ensures fault { IfErr result (λ e. e ≢ fault.Memory → IsSetupFault program.now setup.now e) }
{
    drop(Watch::new(alloc, program, setup)?);
    Ok(())
}

/// The least seed of a range whose schedule breaks its run.
fn least_broken(
    rt: &(impl Threads + Sync),
    alloc: Global,
    program: &Program,
    setup: &Setup,
    schedules: Schedules,
) -> Result<Option<SeedBreak>, SetupFault>
    requires setup { IsSetupOf program.now setup.now }
    requires range { schedules.first ≤ schedules.past }
    ensures least { IfOk result (IsLeastFrom program.now (setup_of_seed schedules.drawn_values program.now setup.now) schedules.steps schedules.first schedules.past) }
    ensures fault { IfErr result (λ e. e ≢ fault.Memory → IsSetupFault program.now setup.now e) }
{
    let Schedules {
        first,
        past,
        steps,
        drawn_values,
    } = schedules;
    let found = (first..past)
        .into_par_iter()
        .with_min_len(1)
        .map(
            |seed: u32| -> SeedEnd
                requires { IsSetupOf program.now setup.now }
                ensures { (result.seed ≡ seed) × IsTold program.entry.now setup.entry.now drawn_values steps seed result.told }
            {
                SeedEnd {
                    seed,
                    told: end_of_seed(alloc, program, setup, seed, steps, drawn_values),
                }
            },
        )
        .find_first(
            rt,
            |end: &SeedEnd| -> bool
                ensures { result ≡ not (is_sound end.now.told) }
            { !matches!(end.told, Ok(None)) },
        );
    match found {
        None => Ok(None),
        Some(end) => end.answer(),
    }
}

/// Where the steps that a seed draws first break its run, if they do: from the setup, or from the one with the numbers that it draws too.
fn end_of_seed(
    alloc: Global,
    program: &Program,
    setup: &Setup,
    seed: u32,
    steps: u32,
    drawn_values: bool,
) -> Result<Option<Break>, SetupFault>
    requires { IsSetupOf program.now setup.now }
    ensures end { IfOk result (IsEndOfSeed program.now (setup_of_seed drawn_values program.now setup.now) steps seed) }
    ensures fault { IfErr result (λ e. e ≢ fault.Memory → IsSetupFault program.now setup.now e) }
{
    if !draws_values(program, drawn_values) {
        return end_from(alloc, program, setup, seed, steps);
    }
    let drawn = setup_drawn(alloc, program, setup, seed)?;
    let end = end_from(alloc, program, &drawn, seed, steps);
    drop(drawn);
    end
}

/// Makes the steps that a seed draws from a setup, one by one: where they first break the run, if they do.
fn end_from(
    alloc: Global,
    program: &Program,
    setup: &Setup,
    seed: u32,
    steps: u32,
) -> Result<Option<Break>, SetupFault>
    requires { IsSetupOf program.now setup.now }
    ensures end { IfOk result (IsEndOfSeed program.now (λ _. setup.now) steps seed) }
    ensures fault { IfErr result (λ e. e ≢ fault.Memory → IsSetupFault program.now setup.now e) }
{
    let threads = setup.starts.len() as u32;
    let mut watch = Watch::new(alloc, program, setup)?;
    let mut rng = seeded(u64::from(seed));
    for _step in 0..steps {
        let actor = actor_drawn(threads, draw(&mut rng, threads));
        let broken = match watch.step(actor) {
            Ok(broken) => broken,
            Err(refused) => {
                drop(watch);
                return Err(SetupFault::from(refused));
            }
        };
        if let Some(broken) = broken {
            drop(watch);
            return Ok(Some(broken));
        }
    }
    drop(watch);
    Ok(None)
}
