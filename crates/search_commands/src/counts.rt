//! How much happens in the runs of sound seeds.
ghost use Rattle.std.specs.Prelude.{OnOk};
ghost use Rattle.reports.specs.Said.{GivesText};
ghost use Rattle.trace_text.specs.Traces.{IsTraceOf};

use crate::searching::past_seed;
use command_line::{Draws, Search};
use hunting::{Happened, Sample, counted};
use layout::Program;
use replay::Schedules;
use reports::{Files, Traced, read_traced};
use std::alloc::Global;
use std::io;
use std::io::Write;
use trace_text::Trace;

/// How many seeds are looked at.
const SEEDS: u32 = 16;

/// After how many steps no further seeds are.
const STEPS: u64 = 1_000_000;

/// Says what happened in the runs of some seeds from this one on, and where that shows little of the collector.
fn tell_counts(err: &mut Vec<u8>, first: u32, threads: u64, happened: Happened) -> io::Result<()>
    ensures { OnOk result (GivesText err.old.items err.new.items) }
{
    let Happened {
        seeds,
        claims,
        frees,
        cycles,
        ends,
    } = happened;
    let mend = if frees == 0 {
        "  mend:  nothing was freed, so this shows nothing: make more steps\n"
    } else {
        ""
    };
    write!(
        err,
        "the runs of {seeds} seeds from {first} on: {claims} cells claimed, {frees} freed, {cycles} cycles over, {ends} of {threads} threads ended\n{mend}"
    )
}

/// How many steps are looked at: of biased seeds one in twenty, since they are drawn and made anew.
fn budget_of(search: Search) -> u64 {
    match search.draws {
        Draws::Uniform => STEPS,
        Draws::Biased => {
            let all = u64::from(search.seeds).saturating_mul(u64::from(search.steps));
            (all / 20).max(1).min(STEPS)
        }
    }
}

/// What happens in the runs of the first seeds of a search, if memory is ample and the threads may begin.
fn counts_of(alloc: Global, program: &Program, start: &Trace, search: Search) -> Option<Happened>
    requires { IsTraceOf program.now start.now }
{
    let first = search.first;
    let schedules = Schedules {
        first,
        past: past_seed(search).min(first.saturating_add(SEEDS)),
        steps: search.steps,
        drawn_values: search.drawn_values,
    };
    let sample = Sample {
        schedules,
        biased: matches!(search.draws, Draws::Biased),
        budget: budget_of(search),
    };
    match counted(alloc, program, start, sample) {
        Ok(happened) => Some(happened),
        Err(_) => None,
    }
}

/// Says what happens in the runs of the first seeds of a search, from the start of a trace.
fn tell_traced(
    alloc: Global,
    program: &Program,
    start: &Trace,
    search: Search,
    err: &mut Vec<u8>,
) -> io::Result<()>
    requires { IsTraceOf program.now start.now }
    ensures { OnOk result (GivesText err.old.items err.new.items) }
{
    let threads = start.setup.starts.len() as u64;
    let Some(happened) = counts_of(alloc, program, start, search) else {
        return Ok(());
    };
    if happened.seeds == 0 {
        return Ok(());
    }
    let threads = threads.saturating_mul(u64::from(happened.seeds));
    tell_counts(err, search.first, threads, happened)
}

/// Says how much happens in the runs of the first seeds of a search.
pub fn tell_happened(
    alloc: Global,
    search: Search,
    files: &Files<'_>,
    err: &mut Vec<u8>,
) -> io::Result<()>
    ensures { OnOk result (GivesText err.old.items err.new.items) }
{
    match read_traced(alloc, files) {
        Ok(traced) => {
            let Traced { program, trace } = traced;
            let told = tell_traced(alloc, &program, &trace, search, err);
            drop(trace);
            drop(program);
            told
        }
        Err(fault) => {
            drop(fault);
            Ok(())
        }
    }
}
