//! What `soak` prints and saves of a broken seed whose steps are at hand.
ghost use Rattle.std.specs.Prelude.{◌≡◌, false, IfOk, OnOk};
ghost use Rattle.std.specs.Io.KnownBytes.{Appends};
ghost use Rattle.replay.specs.DrawnValues.{setup_of_seed};
ghost use Rattle.hunting.specs.Shorter.{IsBreaking};
ghost use Rattle.program_runner.specs.Setups.{HasNoFault};
ghost use Rattle.trace_text.specs.declared.trace.Trace.{Trace as AnyTrace};
ghost use Rattle.reports.specs.Report.{IsTold};
ghost use Rattle.reports.specs.Said.{Saves};
ghost use Rattle.command_line.specs.declared.options.Shrink.TheVariants as shrink;
ghost use Rattle.search_commands.specs.Searches.{IsBroken, OfSeeds, of_seed, of_shorter, seed_text, seed_words};
ghost use Rattle.search_commands.specs.Sources.{seed_break};

use crate::onlooker::Onlooker;
use crate::shorter::{ShorterBreak, Wish, add_trace, shorten, write_shorter};
use command_line::{Draws, Shrink, SoakOptions};
use hunting::BrokenSeed;
use layout::Program;
use replay::SeedBreak;
use reports::{Results, STATUS_NO, memory, write_break};
use std::alloc::Global;
use std::io;
use std::io::Write;

/// What is asked of a soak, and whether a trace is saved.
#[derive(Clone, Copy)]
pub(crate) struct Soak {
    pub options: SoakOptions,
    pub saves: bool,
}

/// With what the line of a broken seed begins.
fn seed_words(draws: Draws) -> &'static str
    ensures { result.now ≡ seed_words draws }
{
    match draws {
        Draws::Uniform => "broken seed ",
        Draws::Biased => "broken biased seed ",
    }
}

/// Writes the line of a seed whose schedule breaks its run: `broken seed 103 221 c reach-blue 3`.
fn write_seed<W: Write>(out: &mut W, draws: Draws, at: &SeedBreak) -> io::Result<()>
    ensures { OnOk result (Appends (W.contents out.old) (W.contents out.new) (seed_text draws at.now)) }
{
    write!(out, "{}{} ", seed_words(draws), at.seed)?;
    write_break(out, &at.broken)?;
    Ok(())
}

/// Says which seed is broken.
pub(crate) fn broken_seed<W: Write>(out: &mut W, draws: Draws, at: SeedBreak) -> io::Result<u8>
    ensures { IfOk result (λ status. IsTold (W.contents out.old) (W.contents out.new) status (of_seed draws at)) }
{
    write_seed(out, draws, &at)?;
    Ok(STATUS_NO)
}

/// Says which seed is broken, and how a shorter trace breaks its run.
fn broken_shorter<W: Write>(
    out: &mut W,
    draws: Draws,
    at: SeedBreak,
    shorter: ShorterBreak,
) -> io::Result<u8>
    ensures { IfOk result (λ status. IsTold (W.contents out.old) (W.contents out.new) status (of_shorter draws at shorter.broken shorter.tries)) }
{
    write_seed(out, draws, &at)?;
    write_shorter(out, shorter)?;
    Ok(STATUS_NO)
}

/// The seed with its break.
fn seed_break(broken: &BrokenSeed) -> SeedBreak
    ensures { result ≡ seed_break broken.now }
{
    SeedBreak {
        seed: broken.seed,
        broken: broken.found.broken,
    }
}

/// Says which seed is broken, and saves its steps where that is wanted.
fn tell_as_drawn(
    alloc: Global,
    program: &Program,
    broken: BrokenSeed,
    soak: Soak,
    results: &mut Results,
) -> io::Result<u8>
    requires breaking { IsBreaking program.now broken.found.trace broken.found.broken }
    requires as_drawn { soak.options.shrink ≡ shrink.AsDrawn }
    ensures said { (t : AnyTrace) → HasNoFault program.now t.setup → broken.found.trace.setup ≡ setup_of_seed soak.options.search.drawn_values program.now t.setup broken.seed → IsBroken soak.options.search program.now t (seed_break broken)
        → IfOk result (Saves (OfSeeds soak.options soak.saves program.now t) results.old results.new) }
    ensures kept { soak.saves ≡ false → results.new.saved.items ≡ results.old.saved.items }
{
    let at = seed_break(&broken);
    let added = add_trace(
        alloc,
        program,
        &broken.found.trace,
        soak.saves,
        &mut results.saved,
    );
    drop(broken);
    match added {
        Ok(()) => broken_seed(&mut results.outputs.out, soak.options.search.draws, at),
        Err(_refused) => memory(&mut results.outputs.err),
    }
}

/// Says which seed is broken. Where that is wanted, its steps are made fewer, and saved.
pub(crate) fn tell_found(
    alloc: Global,
    program: &Program,
    broken: BrokenSeed,
    soak: Soak,
    results: &mut Results,
    onlooker: &mut impl Onlooker,
) -> io::Result<u8>
    requires { IsBreaking program.now broken.found.trace broken.found.broken }
    // The seed is of the search for breaks from the start of this trace, with the numbers that the seed draws where that is wanted.
    ensures said { (t : AnyTrace) → HasNoFault program.now t.setup → broken.found.trace.setup ≡ setup_of_seed soak.options.search.drawn_values program.now t.setup broken.seed → IsBroken soak.options.search program.now t (seed_break broken)
        → IfOk result (Saves (OfSeeds soak.options soak.saves program.now t) results.old results.new) }
    ensures kept { soak.saves ≡ false → results.new.saved.items ≡ results.old.saved.items }
{
    let tries = match soak.options.shrink {
        Shrink::AsDrawn => return tell_as_drawn(alloc, program, broken, soak, results),
        Shrink::WithTries(tries) => tries,
    };
    let at = seed_break(&broken);
    let wish = Wish {
        tries,
        saves: soak.saves,
    };
    match shorten(alloc, program, broken, wish, &mut results.saved, onlooker) {
        Ok(shorter) => {
            let draws = soak.options.search.draws;
            broken_shorter(&mut results.outputs.out, draws, at, shorter)
        }
        Err(_refused) => memory(&mut results.outputs.err),
    }
}
