ghost use Rattle.std.specs.Prelude.{◌≡◌};
ghost use Rattle.record_text.specs.Recorded.{recorded_of, thread_step, turn_recorded};

use crate::entry::Entry;
use colours::Turn;

/// The actor of an entry that is the collector's.
pub const COLLECTOR: u8 = 255;

/// A step of a thread, with what it found or stored; of an answer without its roots.
#[derive(Clone, Copy)]
pub enum ThreadStep {
    /// Reads a word: the cell, the word, the value found.
    ReadWord(u32, u32, u64),
    /// Reads what a barriered store will replace: the cell, the word, the value found.
    ReadOldValue(u32, u32, u64),
    /// Marks a cell.
    Mark(u32),
    /// Stores after the barrier: the cell, the word, the value.
    StoreAfterBarrier(u32, u32, u64),
    /// Stores without one: the cell, the word, the value.
    StorePlain(u32, u32, u64),
    /// Tries to take a free cell: the cell, whether it is won.
    Claim(u32, bool),
    /// Reads the posted stage.
    ReadPosted(u64),
    /// Stores the own stage.
    StoreStage(u64),
    /// Of a late thread: reads the posted stage.
    ReadPostedFirst(u64),
    /// Of a late thread: stores that stage as its own.
    EnterStage(u64),
    /// Of a late thread: reads the posted stage again.
    ReadPostedAgain(u64),
}

/// What an entry says.
#[derive(Clone, Copy)]
pub enum Recorded {
    /// A step of the thread with this number.
    Thread(u32, ThreadStep),
    /// A root that the thread names at its next answer.
    Root(u32, u32),
    Collector(Turn),
    /// No step of its actor is of this kind.
    Unknown,
}

/// What an entry says.
pub fn read_entry(entry: Entry) -> Recorded
    ensures { result ≡ recorded_of entry }
{
    if entry.actor == COLLECTOR {
        return match turn_recorded(entry) {
            Some(turn) => Recorded::Collector(turn),
            None => Recorded::Unknown,
        };
    }
    let thread = u32::from(entry.actor);
    if entry.kind == 13 {
        return Recorded::Root(thread, entry.cell);
    }
    match thread_step(entry) {
        Some(step) => Recorded::Thread(thread, step),
        None => Recorded::Unknown,
    }
}

/// The step of a thread that an entry says.
fn thread_step(entry: Entry) -> Option<ThreadStep>
    ensures { result ≡ thread_step entry }
{
    let word = u32::from(entry.word);
    match entry.kind {
        1 => Some(ThreadStep::ReadWord(entry.cell, word, entry.value)),
        2 => Some(ThreadStep::ReadOldValue(entry.cell, word, entry.value)),
        3 => Some(ThreadStep::Mark(entry.cell)),
        4 => Some(ThreadStep::StoreAfterBarrier(entry.cell, word, entry.value)),
        5 => Some(ThreadStep::StorePlain(entry.cell, word, entry.value)),
        6 => Some(ThreadStep::Claim(entry.cell, true)),
        7 => Some(ThreadStep::Claim(entry.cell, false)),
        8 => Some(ThreadStep::ReadPosted(entry.value)),
        9 => Some(ThreadStep::StoreStage(entry.value)),
        10 => Some(ThreadStep::ReadPostedFirst(entry.value)),
        11 => Some(ThreadStep::EnterStage(entry.value)),
        12 => Some(ThreadStep::ReadPostedAgain(entry.value)),
        _ => None,
    }
}

/// The step of the collector that an entry says.
fn turn_recorded(entry: Entry) -> Option<Turn>
    ensures { result ≡ turn_recorded entry }
{
    let word = u32::from(entry.word);
    match entry.kind {
        21 => Some(Turn::PostStage(entry.value)),
        22 => Some(Turn::ReadStage(entry.cell as usize, entry.value)),
        23 => Some(Turn::MarkFound(entry.cell, entry.value)),
        24 => Some(Turn::ReadColour(entry.cell, entry.value)),
        25 => Some(Turn::ScanWord(entry.cell, word, entry.value)),
        26 => Some(Turn::Blacken(entry.cell)),
        27 => Some(Turn::ClearWord(entry.cell, word)),
        28 => Some(Turn::Free(entry.cell)),
        _ => None,
    }
}
