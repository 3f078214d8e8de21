//! The search for a schedule that breaks its run, some seeds at a time.
ghost use Rattle.std.specs.Prelude.{◌≡◌, ◌≢◌, ◌<◌, IfOk, IfErr};
ghost use Rattle.program_runner.specs.declared.setup_fault.SetupFault.TheVariants as fault;
ghost use Rattle.search_commands.specs.Sources.{Fits, IsFaultOf, IsSearched, MayBegin, past_seed};

use crate::onlooker::{Onlooker, SoFar};
use crate::pace::Pace;
use crate::sources::{Searched, Source, try_seeds};
use command_line::Search;
use hunting::ALIKE;
use replay::{ReplayFault, Schedules};
use std::alloc::Global;
use std::thread::Threads;
use std::time::Clock;

/// How many seeds of a trace are tried first.
const FIRST: u32 = 16;

/// How many seeds are tried first.
fn first_size(source: Source<'_>) -> u32
    ensures { 0 < result }
{
    match source {
        Source::Soak(_, _) => FIRST,
        Source::Hunt(_) => ALIKE,
    }
}

/// One past the last seed of a search.
pub(crate) fn past_seed(search: Search) -> u32
    ensures { result ≡ past_seed search }
{
    search.first.saturating_add(search.seeds)
}

/// Tries the seeds of a search, some at a time, until one breaks its run, none can go on, or the time is over.
pub(crate) fn search_for<P: Onlooker>(
    rt: &(impl Threads + Clock + Sync),
    alloc: Global,
    source: Source<'_>,
    search: Search,
    onlooker: &mut P,
) -> Result<Searched, ReplayFault>
    requires { Fits source }
    ensures searched { IfOk result (IsSearched source.entry search) }
    ensures may_begin { IfOk result (λ _. MayBegin source.entry) }
    ensures fault { IfErr result (λ e. e ≢ fault.Memory → IsFaultOf source.entry e) }
{
    let Search {
        first,
        steps,
        drawn_values,
        ..
    } = search;
    let past = past_seed(search);
    let none = Schedules {
        first,
        past: first,
        steps,
        drawn_values,
    };
    drop(try_seeds(rt, alloc, source, none)?);
    let mut pace = Pace::start(rt, first_size(source));
    let mut next = first;
    while next < past {
        if pace.is_over(search.seconds) {
            return Ok(Searched::SoundBelow(next));
        }
        let end = next + pace.size().min(past - next);
        let some = Schedules {
            first: next,
            past: end,
            steps,
            drawn_values,
        };
        if let Some(searched) = try_seeds(rt, alloc, source, some)? {
            return Ok(searched);
        }
        next = end;
        pace = pace.tried(rt);
        onlooker.goes_on(SoFar {
            tried: next - first,
            seeds: past - first,
            elapsed: pace.elapsed(),
            seconds: search.seconds,
        });
    }
    Ok(Searched::SoundBelow(next))
}
