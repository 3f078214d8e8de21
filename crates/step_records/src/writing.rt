ghost use Rattle.std.specs.Prelude.{◌≡◌, Option, List, ◌∷◌, OnOk, IfErr};
ghost use Rattle.colours.specs.Runs.{Event};
ghost use Rattle.layout.specs.Layouts.{LaidOut};
ghost use Rattle.moves.specs.Calls.{move_in};
ghost use Rattle.moves.specs.Runs.{with_next};
ghost use Rattle.record_text.specs.declared.entry.Entry.{Entry as AnEntry};
ghost use Rattle.record_text.specs.Written.{IsRecord};
ghost use Rattle.runs.specs.Moves.{cells_of};
ghost use Rattle.runs.specs.ModuleRuns.{Happening as AHappening, OfThread, heap_of};
ghost use Rattle.stepping.specs.Ends.{Tells};
ghost use Rattle.trace_text.specs.declared.trace.Setup.{Setup as ASetup};
ghost use Rattle.step_records.specs.Named.{roots_by, TellsNext};
ghost use Rattle.step_records.specs.Recorded.{IsRecordOf, HasNamed, HasSaid, IsFaultOf};

use crate::record_fault::RecordFault;
use crate::said::{SaidMove, cell_of, said_of};
use moves::{Move, WordValue};
use record_text::{RECORD_LIMIT, Recorded, entry_of, put_entry};
use stepping::{Happening, MadeStep};

/// Adds what an entry says to a record.
fn put_said(bytes: &mut Vec<u8>, said: Recorded) -> Result<(), RecordFault>
    ensures said { (entries : List AnEntry) → IsRecord bytes.old.items entries → OnOk result (HasSaid bytes.new.items entries said) }
    ensures fault { (p : LaidOut) (setup : ASetup) → IfErr result (IsFaultOf p setup) }
{
    if bytes.len() >= RECORD_LIMIT {
        return Err(RecordFault::TooLarge);
    }
    let Some(entry) = entry_of(said) else {
        return Err(RecordFault::TooLarge);
    };
    put_entry(bytes, entry)?;
    Ok(())
}

/// Names the roots of a thread.
fn put_roots(bytes: &mut Vec<u8>, thread: u32, roots: &[WordValue]) -> Result<(), RecordFault>
    ensures named { (run : List Event) → IsRecordOf run bytes.old.items → OnOk result (HasNamed run thread (cells_of roots.now) bytes.new.items) }
    ensures fault { (p : LaidOut) (setup : ASetup) → IfErr result (IsFaultOf p setup) }
{
    for root in roots {
        let Some(cell) = cell_of(*root) else {
            return Err(RecordFault::TooLarge);
        };
        put_said(bytes, Recorded::Root(thread, cell))?;
    }
    Ok(())
}

/// The roots that a thread with these roots names by a move: all by an answer, and none by another one.
fn roots_by<'a>(made: &Move, roots: &'a [WordValue]) -> &'a [WordValue]
    ensures { cells_of result.now ≡ roots_by made.now roots.now }
{
    match made {
        Move::Answers(_stage) => roots,
        _ => &[],
    }
}

/// Adds a move of a thread that has these roots.
fn put_move(
    bytes: &mut Vec<u8>,
    thread: u32,
    made: &Move,
    roots: &[WordValue],
) -> Result<(), RecordFault>
    ensures made { (run : List AHappening) → IsRecordOf (heap_of run) bytes.old.items → OnOk result (IsRecordOf (heap_of (OfThread thread (move_in roots.now made.now) ∷ run)) bytes.new.items) }
    ensures fault { (p : LaidOut) (setup : ASetup) → IfErr result (IsFaultOf p setup) }
{
    put_roots(bytes, thread, roots_by(made, roots))?;
    match said_of(made) {
        None => Err(RecordFault::TooLarge),
        Some(SaidMove::NoStep) => Ok(()),
        Some(SaidMove::Step(step)) => put_said(bytes, Recorded::Thread(thread, step)),
    }
}

/// Adds the step that an actor made to the record of the run before it. A thread that answers has these roots.
fn put_step(
    bytes: &mut Vec<u8>,
    happening: &Happening,
    roots: &[WordValue],
) -> Result<(), RecordFault>
    ensures made { (run : List AHappening) (happened : AHappening) → IsRecordOf (heap_of run) bytes.old.items → Tells (λ t. roots.now) happening.now happened
        → OnOk result (IsRecordOf (heap_of (happened ∷ run)) bytes.new.items) }
    ensures fault { (p : LaidOut) (setup : ASetup) → IfErr result (IsFaultOf p setup) }
{
    match happening {
        Happening::Thread(thread, made) => put_move(bytes, *thread, made, roots),
        Happening::Collector(turn) => put_said(bytes, Recorded::Collector(*turn)),
    }
}

/// Adds what an actor made to the record of the run before it, if it made a step. A thread that answers has these roots.
pub fn put_made(
    bytes: &mut Vec<u8>,
    made: &Option<MadeStep>,
    roots: &[WordValue],
) -> Result<(), RecordFault>
    ensures made { (run : List AHappening) (next : Option AHappening) → IsRecordOf (heap_of run) bytes.old.items → TellsNext roots.now made.now next
        → OnOk result (IsRecordOf (heap_of (with_next next run)) bytes.new.items) }
    ensures fault { (p : LaidOut) (setup : ASetup) → IfErr result (IsFaultOf p setup) }
{
    match made {
        None => Ok(()),
        Some(step) => put_step(bytes, &step.happening, roots),
    }
}
