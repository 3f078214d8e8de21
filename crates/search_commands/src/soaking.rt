//! The command `soak`.
ghost use Rattle.std.specs.Prelude.{◌≡◌, ◌≤◌, true, false, IfOk};
ghost use Rattle.command_line.specs.declared.options.Draws.TheVariants as draws;
ghost use Rattle.command_line.specs.declared.options.Shrink.TheVariants as shrink;
ghost use Rattle.trace_text.specs.Traces.{IsTraceOf};
ghost use Rattle.program_runner.specs.Setups.{HasNoFault};
ghost use Rattle.replay.specs.DrawnValues.{setup_of_seed};
ghost use Rattle.replay.specs.Soaks.{IsLeastBreak};
ghost use Rattle.hunting.specs.Shorter.{IsBreaking};
ghost use Rattle.reports.specs.Report.{IsTold};
ghost use Rattle.reports.specs.Said.{Saves, Tells};
ghost use Rattle.reports.specs.TraceRuns.{OfRun};
ghost use Rattle.search_commands.specs.Searches.{OfSeeds, of_sound, of_too_long, seeds_word};
ghost use Rattle.search_commands.specs.Sources.{IsSoaked, past_seed, seed_break};

use crate::found_seeds::{Soak, broken_seed, tell_found};
use crate::onlooker::Onlooker;
use crate::searching::search_for;
use crate::sources::{Searched, Source};
use command_line::{Draws, Search, Shrink, SoakOptions};
use hunting::{BrokenSeed, BrokenTrace, broken_trace};
use layout::Program;
use replay::{SeedBreak, start_of_seed};
use reports::{
    Files, Outputs, Results, STATUS_YES, Traced, memory, no_threads, read_traced, unread,
};
use std::alloc::{AllocError, Global};
use std::io;
use std::io::Write;
use std::thread::Threads;
use std::time::Clock;
use trace_text::{STEP_LIMIT, Trace};

/// How seeds are called.
fn seeds_word(draws: Draws) -> &'static str
    ensures { result.now ≡ seeds_word draws }
{
    match draws {
        Draws::Uniform => "seeds",
        Draws::Biased => "biased seeds",
    }
}

/// Says how many seeds were tried, none of which is broken.
fn sound<W: Write>(out: &mut W, draws: Draws, seeds: u32) -> io::Result<u8>
    ensures { IfOk result (λ status. IsTold (W.contents out.old) (W.contents out.new) status (of_sound draws seeds)) }
{
    writeln!(out, "sound {seeds} {}", seeds_word(draws))?;
    Ok(STATUS_YES)
}

/// Says which seed is broken, whose steps are more than a trace may list. So nothing is saved.
fn too_long(outputs: &mut Outputs, at: SeedBreak) -> io::Result<u8>
    ensures { IfOk result (λ status. Tells outputs.old outputs.new status (of_too_long at)) }
{
    let err = &mut outputs.err;
    writeln!(err, "error P3")?;
    broken_seed(&mut outputs.out, Draws::Uniform, at)
}

/// Whether of a broken seed its line is wanted alone: its steps are neither made fewer nor saved.
fn wants_line_alone(soak: Soak) -> bool
    ensures shrink { result ≡ true → soak.options.shrink ≡ shrink.AsDrawn }
    ensures saves { result ≡ true → soak.saves ≡ false }
    ensures wants { result ≡ false → soak.options.shrink ≡ shrink.AsDrawn → soak.saves ≡ true }
{
    match soak.options.shrink {
        Shrink::AsDrawn => !soak.saves,
        Shrink::WithTries(_) => false,
    }
}

/// The steps of a seed that is broken by uniform draws, up to its break, from the start of the seed.
fn found_again(
    alloc: Global,
    program: &Program,
    trace: Trace,
    at: SeedBreak,
    search: Search,
) -> Result<BrokenSeed, AllocError>
    requires is_trace { IsTraceOf program.now trace }
    requires few { at.broken.step ≤ 10000000 }
    requires least { IsLeastBreak program.now (setup_of_seed search.drawn_values program.now trace.setup) search.first (past_seed search) search.steps at }
    ensures breaking { IfOk result (λ broken. IsBreaking program.now broken.found.trace broken.found.broken) }
    ensures setup { IfOk result (λ broken. broken.found.trace.setup ≡ setup_of_seed search.drawn_values program.now trace.setup broken.seed) }
    ensures seed { IfOk result (λ broken. seed_break broken ≡ at) }
{
    let SeedBreak { seed, broken } = at;
    let start = start_of_seed(alloc, program, trace, seed, search.drawn_values)?;
    let trace = broken_trace(alloc, start, at)?;
    let found = BrokenTrace { trace, broken };
    Ok(BrokenSeed { seed, found })
}

/// Says which seed is broken by uniform draws. Where they are wanted, its steps are drawn once more.
fn tell_drawn(
    alloc: Global,
    traced: Traced,
    at: SeedBreak,
    soak: Soak,
    results: &mut Results,
    onlooker: &mut impl Onlooker,
) -> io::Result<u8>
    requires uniform { soak.options.search.draws ≡ draws.Uniform }
    requires is_trace { IsTraceOf traced.program traced.trace }
    requires no_fault { HasNoFault traced.program traced.trace.setup }
    requires least { IsLeastBreak traced.program (setup_of_seed soak.options.search.drawn_values traced.program traced.trace.setup) soak.options.search.first (past_seed soak.options.search) soak.options.search.steps at }
    ensures said { IfOk result (Saves (OfSeeds soak.options soak.saves traced.program traced.trace) results.old results.new) }
    ensures kept { soak.saves ≡ false → results.new.saved.items ≡ results.old.saved.items }
{
    let Traced { program, trace } = traced;
    if wants_line_alone(soak) {
        drop(program);
        drop(trace);
        return broken_seed(&mut results.outputs.out, Draws::Uniform, at);
    }
    if at.broken.step > STEP_LIMIT {
        drop(program);
        drop(trace);
        return too_long(&mut results.outputs, at);
    }
    match found_again(alloc, &program, trace, at, soak.options.search) {
        Ok(broken) => {
            let status = tell_found(alloc, &program, broken, soak, results, onlooker);
            drop(program);
            status
        }
        Err(_refused) => {
            drop(program);
            memory(&mut results.outputs.err)
        }
    }
}

/// Says what came of the seeds of a search. Where that is wanted, the steps of a broken one are made fewer, and saved.
fn tell_soaked(
    alloc: Global,
    traced: Traced,
    searched: Searched,
    soak: Soak,
    results: &mut Results,
    onlooker: &mut impl Onlooker,
) -> io::Result<u8>
    requires is_trace { IsTraceOf traced.program traced.trace }
    requires no_fault { HasNoFault traced.program traced.trace.setup }
    requires searched { IsSoaked soak.options.search.draws soak.options.search traced searched }
    ensures said { IfOk result (Saves (OfSeeds soak.options soak.saves traced.program traced.trace) results.old results.new) }
    ensures kept { soak.saves ≡ false → results.new.saved.items ≡ results.old.saved.items }
{
    let search = soak.options.search;
    match searched {
        Searched::SoundBelow(past) => {
            drop(traced);
            sound(&mut results.outputs.out, search.draws, past - search.first)
        }
        Searched::BrokenAt(at) => tell_drawn(alloc, traced, at, soak, results, onlooker),
        Searched::Found(broken) => {
            let status = tell_found(alloc, &traced.program, broken, soak, results, onlooker);
            drop(traced);
            status
        }
    }
}

/// Makes the steps that each seed draws, from the start of a trace.
fn soak_traced(
    rt: &(impl Threads + Clock + Sync),
    alloc: Global,
    traced: Traced,
    soak: Soak,
    results: &mut Results,
    onlooker: &mut impl Onlooker,
) -> io::Result<u8>
    requires { IsTraceOf traced.program traced.trace }
    ensures said { IfOk result (Saves (OfSeeds soak.options soak.saves traced.program traced.trace) results.old results.new) }
    ensures kept { soak.saves ≡ false → results.new.saved.items ≡ results.old.saved.items }
{
    let search = soak.options.search;
    let source = Source::Soak(&traced, search.draws);
    let searched = search_for(rt, alloc, source, search, onlooker);
    onlooker.ended();
    match searched {
        Ok(searched) => tell_soaked(alloc, traced, searched, soak, results, onlooker),
        Err(fault) => {
            drop(traced);
            no_threads(&mut results.outputs.err, fault)
        }
    }
}

/// Runs the seeds of a search with its number of steps each, from the start of the trace in the module, which has the shapes where it
/// writes `ptr`. The steps of the trace are left out. Where the options say so, those of a broken seed are made fewer; and they are saved.
pub fn soak_files(
    rt: &(impl Threads + Clock + Sync),
    alloc: Global,
    options: SoakOptions,
    files: &Files<'_>,
    results: &mut Results,
    onlooker: &mut impl Onlooker,
) -> io::Result<u8>
    ensures said { IfOk result (Saves (λ before after. OfRun (λ p t. OfSeeds options files.now.saves p t before after) files.now.of_module files.now.trace files.now.shapes) results.old results.new) }
    ensures kept { files.now.saves ≡ false → results.new.saved.items ≡ results.old.saved.items }
{
    let soak = Soak {
        options,
        saves: files.saves,
    };
    match read_traced(alloc, files) {
        Ok(traced) => soak_traced(rt, alloc, traced, soak, results, onlooker),
        Err(fault) => unread(&mut results.outputs.err, fault),
    }
}
