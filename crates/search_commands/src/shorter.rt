//! Shorter traces: how they are found and saved, and what is printed of them.
ghost use Rattle.std.specs.Prelude.{◌≡◌, ◌≤◌, false, IfOk, OnOk, OnErr};
ghost use Rattle.std.specs.Io.KnownBytes.{Appends};
ghost use Rattle.hunting.specs.Shorter.{IsBreaking, kind_of};
ghost use Rattle.trace_text.specs.Print.{trace_shown};
ghost use Rattle.search_commands.specs.Searches.{IsAdded, IsShorter, shorter_text, tries_text};

use crate::onlooker::Onlooker;
use hunting::{BrokenSeed, BrokenTrace, ShorterTrace, shortened};
use layout::Program;
use replay::Break;
use reports::write_break;
use std::alloc::{AllocError, Global};
use std::io;
use std::io::Write;
use trace_text::{Trace, print_trace};

/// How far a trace is made shorter, and whether what is found is saved.
#[derive(Clone, Copy)]
pub(crate) struct Wish {
    pub tries: u32,
    pub saves: bool,
}

/// The break of a shorter trace, and how many were tried.
#[derive(Clone, Copy)]
pub(crate) struct ShorterBreak {
    pub broken: Break,
    pub tries: u32,
}

/// Appends the text of a trace, if that is wanted.
pub(crate) fn add_trace(
    alloc: Global,
    program: &Program,
    trace: &Trace,
    wanted: bool,
    saved: &mut Vec<u8>,
) -> Result<(), AllocError>
    ensures added { OnOk result (IsAdded wanted (trace_shown program.now trace.now) saved.old.items saved.new.items) }
    ensures err { OnErr result (saved.new.items ≡ saved.old.items) }
    ensures kept { wanted ≡ false → saved.new.items ≡ saved.old.items }
{
    if wanted {
        let text = print_trace(alloc, trace, program)?;
        saved.extend_from_slice(text.as_slice())?;
    }
    Ok(())
}

/// Saves the trace that was found, if that is wanted.
fn save_shorter(
    alloc: Global,
    program: &Program,
    shorter: ShorterTrace,
    wanted: bool,
    saved: &mut Vec<u8>,
) -> Result<ShorterBreak, AllocError>
    requires { IsBreaking program.now shorter.found.trace shorter.found.broken }
    ensures shorter { IfOk result (λ b. IsShorter program.now wanted b.broken saved.old.items saved.new.items) }
    ensures broken { IfOk result (λ b. b.broken ≡ shorter.found.broken) }
    ensures tries { IfOk result (λ b. b.tries ≡ shorter.tries) }
    ensures err { OnErr result (saved.new.items ≡ saved.old.items) }
    ensures kept { wanted ≡ false → saved.new.items ≡ saved.old.items }
{
    let ShorterTrace { found, tries } = shorter;
    let BrokenTrace { trace, broken } = found;
    add_trace(alloc, program, &trace, wanted, saved)?;
    Ok(ShorterBreak { broken, tries })
}

/// Makes a trace that breaks its run shorter.
fn make_shorter(
    alloc: Global,
    program: &Program,
    found: BrokenTrace,
    wish: Wish,
    saved: &mut Vec<u8>,
) -> Result<ShorterBreak, AllocError>
    requires { IsBreaking program.now found.trace found.broken }
    ensures shorter { IfOk result (λ b. IsShorter program.now wish.saves b.broken saved.old.items saved.new.items) }
    ensures kind { IfOk result (λ b. kind_of b.broken.cause ≡ kind_of found.broken.cause) }
    ensures tries { IfOk result (λ b. b.tries ≤ wish.tries) }
    ensures err { OnErr result (saved.new.items ≡ saved.old.items) }
    ensures kept { wish.saves ≡ false → saved.new.items ≡ saved.old.items }
{
    match shortened(alloc, program, found, wish.tries) {
        Ok(shorter) => save_shorter(alloc, program, shorter, wish.saves, saved),
        Err(_refused) => Err(AllocError),
    }
}

/// Makes the schedule of a broken seed shorter, and tells the onlooker of it.
pub(crate) fn shorten(
    alloc: Global,
    program: &Program,
    broken: BrokenSeed,
    wish: Wish,
    saved: &mut Vec<u8>,
    onlooker: &mut impl Onlooker,
) -> Result<ShorterBreak, AllocError>
    requires { IsBreaking program.now broken.found.trace broken.found.broken }
    ensures shorter { IfOk result (λ b. IsShorter program.now wish.saves b.broken saved.old.items saved.new.items) }
    ensures kind { IfOk result (λ b. kind_of b.broken.cause ≡ kind_of broken.found.broken.cause) }
    ensures tries { IfOk result (λ b. b.tries ≤ wish.tries) }
    ensures err { OnErr result (saved.new.items ≡ saved.old.items) }
    ensures kept { wish.saves ≡ false → saved.new.items ≡ saved.old.items }
{
    let BrokenSeed { seed, found } = broken;
    onlooker.shortens(seed);
    let shorter = make_shorter(alloc, program, found, wish, saved);
    onlooker.ended();
    shorter
}

/// How many traces were tried.
fn write_tries<W: Write>(out: &mut W, tries: u32) -> io::Result<()>
    ensures { OnOk result (Appends (W.contents out.old) (W.contents out.new) (tries_text tries)) }
{
    writeln!(out, "tries {tries}")
}

/// The break of a shorter trace, and how many were tried.
pub(crate) fn write_shorter<W: Write>(out: &mut W, shorter: ShorterBreak) -> io::Result<()>
    ensures { OnOk result (Appends (W.contents out.old) (W.contents out.new) (shorter_text shorter.broken shorter.tries)) }
{
    write!(out, "shorter ")?;
    write_break(out, &shorter.broken)?;
    write_tries(out, shorter.tries)?;
    Ok(())
}
