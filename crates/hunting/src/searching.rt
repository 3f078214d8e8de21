//! The search that also draws how runs begin.
ghost use Rattle.std.specs.Prelude.{◌<◌, ◌≤◌, IfOk, IfSome};
ghost use Rattle.trace_text.specs.Traces.{IsTraceOf};
ghost use Rattle.hunting.specs.Hunts.{IsBrokenIn, IsHunted};

use crate::biased_searching::{BiasedOutcome, BrokenSeed, first_broken};
use crate::starts::drawn_start;
use certs::Section;
use layout::Program;
use program_runner::SetupFault;
use replay::Schedules;
use std::alloc::{AllocError, Global};
use trace_text::Trace;

/// How many seeds begin alike.
pub const ALIKE: u32 = 64;

/// What came of seeds that also draw how runs begin.
#[derive(Drop)]
pub enum Hunted {
    /// The first seed whose schedule broke its run.
    Broken(BrokenSeed),
    /// No schedule broke its run.
    Sound,
    /// No schedule of the seeds below this one did, and this one could draw no start.
    NoStart(u32),
}

/// The first of some seeds whose schedule breaks its run from a start, if there is one.
fn broken_from(
    alloc: Global,
    program: &Program,
    start: &Trace,
    schedules: Schedules,
) -> Result<Option<BrokenSeed>, AllocError>
    requires { IsTraceOf program.now start.now }
    ensures { IfOk result (λ found. IfSome found (IsBrokenIn program.now schedules.first schedules.past)) }
{
    match first_broken(alloc, program, start, schedules) {
        Ok(BiasedOutcome::Broken(broken)) => Ok(Some(broken)),
        Err(SetupFault::Memory) => Err(AllocError),
        _ => Ok(None),
    }
}

/// The seed that draws how the run of this one begins: the first of its 64.
fn seed_of_start(seed: u32) -> u32 {
    seed - seed % ALIKE
}

/// One past the last of the seeds that begin as this one, or past those of a search.
fn end_of_alike(seed: u32, past: u32) -> u32
    requires { seed < past }
    ensures later { seed < result }
    ensures within { result ≤ past }
{
    seed + (ALIKE - seed % ALIKE).min(past - seed)
}

/// Searches for a schedule that breaks a run: of each 64 seeds, counted from 0, the first one draws how runs begin, and each seed draws the
/// steps. So a seed has the same run in each search. Where certificates are given, the arguments are below what they promise.
pub fn hunt(
    alloc: Global,
    program: &Program,
    sections: &[Section],
    schedules: Schedules,
) -> Result<Hunted, AllocError>
    requires { schedules.first ≤ schedules.past }
    ensures { IfOk result (IsHunted program.now schedules.first schedules.past) }
{
    let Schedules { first, past, .. } = schedules;
    let mut next = first;
    while next < past {
        let end = end_of_alike(next, past);
        let Some(start) = drawn_start(alloc, program, sections, seed_of_start(next))? else {
            return Ok(Hunted::NoStart(next));
        };
        let alike = Schedules {
            first: next,
            past: end,
            ..schedules
        };
        let found = broken_from(alloc, program, &start, alike);
        drop(start);
        if let Some(broken) = found? {
            return Ok(Hunted::Broken(broken));
        }
        next = end;
    }
    Ok(Hunted::Sound)
}
