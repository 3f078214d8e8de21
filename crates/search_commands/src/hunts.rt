//! The command `hunt`.
ghost use Rattle.std.specs.Prelude.{◌≡◌, ◌≤◌, false, IfOk, OnOk};
ghost use Rattle.std.specs.Io.KnownBytes.{Appends};
ghost use Rattle.reports.specs.Report.{IsTold};
ghost use Rattle.reports.specs.Said.{Saves};
ghost use Rattle.search_commands.specs.Searches.{OfHunt, OfHuntCerts, OfHuntFiles, OfHuntShaped, of_broken, of_nothing, search_of_hunt, starts_of, tried_text};
ghost use Rattle.search_commands.specs.Sources.{past_seed};
ghost use Rattle.hunting.specs.Hunts.{IsBrokenIn};

use crate::onlooker::Onlooker;
use crate::searching::search_for;
use crate::shorter::{ShorterBreak, Wish, shorten};
use crate::sources::{Hunt, Searched, Source};
use command_line::{Draws, HuntOptions, Search};
use hunting::{ALIKE, BrokenSeed};
use layout::Program;
use module_check::UnderCheck;
use reports::{
    Certified, Files, Results, STATUS_NO, STATUS_YES, memory, not_laid_out, program_in,
    read_certified, unread, write_break,
};
use std::alloc::Global;
use std::io;
use std::io::Write;
use std::thread::Threads;
use std::time::Clock;

/// What is asked of a hunt, and whether the trace that it finds is saved.
#[derive(Clone, Copy)]
struct Asked {
    options: HuntOptions,
    saves: bool,
}

/// The seeds that were tried: from the first one to below the last.
#[derive(Clone, Copy)]
struct Tried {
    first: u32,
    past: u32,
}

/// How many starts these seeds have.
fn starts_of(tried: Tried) -> u32
    requires { tried.first ≤ tried.past }
    ensures { result ≡ starts_of tried.first tried.past }
{
    if tried.first == tried.past {
        return 0;
    }
    tried.past.div_ceil(ALIKE) - tried.first / ALIKE
}

/// What was tried.
fn write_tried<W: Write>(out: &mut W, tried: Tried, tries: u32) -> io::Result<()>
    requires { tried.first ≤ tried.past }
    ensures { OnOk result (Appends (W.contents out.old) (W.contents out.new) (tried_text tried.first tried.past tries)) }
{
    let starts = starts_of(tried);
    let seeds = tried.past - tried.first;
    writeln!(out, "starts {starts} seeds {seeds} tries {tries}")
}

/// A break that was found, and what was tried.
fn broken<W: Write>(out: &mut W, shorter: ShorterBreak, tried: Tried) -> io::Result<u8>
    requires { tried.first ≤ tried.past }
    ensures { IfOk result (λ status. IsTold (W.contents out.old) (W.contents out.new) status (of_broken shorter.broken tried.first tried.past shorter.tries)) }
{
    write!(out, "broken ")?;
    write_break(out, &shorter.broken)?;
    write_tried(out, tried, shorter.tries)?;
    Ok(STATUS_NO)
}

/// What was tried, where nothing was found.
fn nothing<W: Write>(out: &mut W, tried: Tried) -> io::Result<u8>
    requires { tried.first ≤ tried.past }
    ensures { IfOk result (λ status. IsTold (W.contents out.old) (W.contents out.new) status (of_nothing tried.first tried.past)) }
{
    let starts = starts_of(tried);
    let seeds = tried.past - tried.first;
    writeln!(out, "sound {seeds} seeds")?;
    writeln!(out, "starts {starts}")?;
    Ok(STATUS_YES)
}

/// Makes the schedule of a broken seed shorter, saves it, and says how it breaks its run and what was tried.
fn tell_shorter(
    alloc: Global,
    program: &Program,
    found: BrokenSeed,
    asked: Asked,
    results: &mut Results,
    onlooker: &mut impl Onlooker,
) -> io::Result<u8>
    requires { IsBrokenIn program.now asked.options.first (past_seed (search_of_hunt asked.options)) found }
    ensures said { IfOk result (Saves (OfHunt asked.options asked.saves program.now) results.old results.new) }
    ensures kept { asked.saves ≡ false → results.new.saved.items ≡ results.old.saved.items }
{
    let tried = Tried {
        first: asked.options.first,
        past: found.seed + 1,
    };
    let wish = Wish {
        tries: asked.options.tries,
        saves: asked.saves,
    };
    match shorten(alloc, program, found, wish, &mut results.saved, onlooker) {
        Ok(shorter) => broken(&mut results.outputs.out, shorter, tried),
        Err(_refused) => memory(&mut results.outputs.err),
    }
}

/// Searches for a schedule that breaks its run, and says what came of it.
fn hunt_program(
    rt: &(impl Threads + Clock + Sync),
    alloc: Global,
    of: Hunt<'_>,
    asked: Asked,
    results: &mut Results,
    onlooker: &mut impl Onlooker,
) -> io::Result<u8>
    ensures said { IfOk result (Saves (OfHunt asked.options asked.saves of.entry.program.now) results.old results.new) }
    ensures kept { asked.saves ≡ false → results.new.saved.items ≡ results.old.saved.items }
{
    let HuntOptions {
        first,
        seeds,
        steps,
        seconds,
        ..
    } = asked.options;
    let search = Search {
        first,
        seeds,
        steps,
        draws: Draws::Biased,
        drawn_values: false,
        seconds,
    };
    let searched = search_for(rt, alloc, Source::Hunt(of), search, onlooker);
    onlooker.ended();
    match searched {
        Ok(Searched::Found(found)) => {
            tell_shorter(alloc, of.program, found, asked, results, onlooker)
        }
        Ok(Searched::SoundBelow(past)) => {
            nothing(&mut results.outputs.out, Tried { first, past })
        }
        Ok(Searched::BrokenAt(_)) => unreachable!(),
        Err(_refused) => memory(&mut results.outputs.err),
    }
}

/// Searches in a module with the shapes and the promises of its certificates.
fn hunt_certified(
    rt: &(impl Threads + Clock + Sync),
    alloc: Global,
    certified: Certified,
    asked: Asked,
    results: &mut Results,
    onlooker: &mut impl Onlooker,
) -> io::Result<u8>
    ensures said { IfOk result (Saves (OfHuntCerts asked.options asked.saves certified.of_module certified.certs) results.old results.new) }
    ensures kept { asked.saves ≡ false → results.new.saved.items ≡ results.old.saved.items }
{
    match UnderCheck::new(alloc, certified.of_module, certified.certs) {
        Ok(under) => {
            let of = Hunt {
                program: under.program(),
                sections: under.certs().sections.as_slice(),
            };
            let status = hunt_program(rt, alloc, of, asked, results, onlooker);
            drop(under);
            status
        }
        Err(refused) => {
            let status = not_laid_out(&mut results.outputs.err, &refused);
            drop(refused);
            status
        }
    }
}

/// Searches in a module, which has the shapes where it writes `ptr`.
fn hunt_shaped(
    rt: &(impl Threads + Clock + Sync),
    alloc: Global,
    asked: Asked,
    files: &Files<'_>,
    results: &mut Results,
    onlooker: &mut impl Onlooker,
) -> io::Result<u8>
    ensures said { IfOk result (Saves (OfHuntShaped asked.options asked.saves files.now.of_module files.now.shapes) results.old results.new) }
    ensures kept { asked.saves ≡ false → results.new.saved.items ≡ results.old.saved.items }
{
    match program_in(alloc, files) {
        Ok(program) => {
            let of = Hunt {
                program: &program,
                sections: &[],
            };
            let status = hunt_program(rt, alloc, of, asked, results, onlooker);
            drop(program);
            status
        }
        Err(fault) => unread(&mut results.outputs.err, fault),
    }
}

/// Searches for a schedule of the module that breaks its run. Where a certificate is given, the module has its shapes and the arguments
/// are below what it promises; otherwise the module has the shapes that are given.
pub fn hunt_files(
    rt: &(impl Threads + Clock + Sync),
    alloc: Global,
    options: HuntOptions,
    files: &Files<'_>,
    results: &mut Results,
    onlooker: &mut impl Onlooker,
) -> io::Result<u8>
    ensures said { IfOk result (Saves (OfHuntFiles options files.now.saves files.now.of_module files.now.certificate files.now.shapes) results.old results.new) }
    ensures kept { files.now.saves ≡ false → results.new.saved.items ≡ results.old.saved.items }
{
    let asked = Asked {
        options,
        saves: files.saves,
    };
    let Some(_) = files.certificate else {
        return hunt_shaped(rt, alloc, asked, files, results, onlooker);
    };
    match read_certified(alloc, files) {
        Ok(certified) => hunt_certified(rt, alloc, certified, asked, results, onlooker),
        Err(fault) => unread(&mut results.outputs.err, fault),
    }
}
