ghost use Rattle.std.specs.Prelude.{ℕ, ◌≡◌, ◌≢◌, ◌<◌, ◌^◌, List, ◌∷◌, Some, IfSome, IfNone, OnOk};
ghost use Rattle.record_text.specs.declared.entry.Entry.{Entry as AnEntry};
ghost use Rattle.record_text.specs.Recorded.{recorded_of, thread_step, turn_recorded};
ghost use Rattle.record_text.specs.Written.{entry_by, Fits, bytes_of, word_of_step, word_of_turn, thread_of_turn, IsRecord};

use crate::entry::Entry;
use crate::steps::{COLLECTOR, Recorded, ThreadStep};
use colours::Turn;
use std::alloc::AllocError;

/// The kind of an entry and its numbers, whoever it is of.
#[derive(Clone, Copy)]
pub(crate) struct Fields {
    kind: u8,
    word: u32,
    cell: u32,
    value: u64,
}

impl Fields {
    /// Those of a step at a word.
    fn of_word(kind: u8, cell: u32, word: u32, value: u64) -> Self
        ensures { result ≡ record { kind = kind; word = word; cell = cell; value = value } }
    {
        Fields {
            kind,
            word,
            cell,
            value,
        }
    }

    /// Those of a step that names a cell.
    fn of_cell(kind: u8, cell: u32, value: u64) -> Self
        ensures { result ≡ record { kind = kind; word = 0; cell = cell; value = value } }
    {
        Fields::of_word(kind, cell, 0, value)
    }

    /// Those of a step that names a stage.
    fn of_stage(kind: u8, stage: u64) -> Self
        ensures { result ≡ record { kind = kind; word = 0; cell = 0; value = stage } }
    {
        Fields::of_word(kind, 0, 0, stage)
    }

    /// The entry of an actor, if the number of the word fits its field.
    fn by(self, actor: u8) -> Option<Entry>
        ensures some { IfSome result (λ entry. entry ≡ entry_by actor self) }
        ensures none { IfNone result (¬ (self.word < 2 ^ 16)) }
    {
        let Ok(word) = u16::try_from(self.word) else {
            return None;
        };
        Some(Entry {
            actor,
            kind: self.kind,
            word,
            cell: self.cell,
            value: self.value,
        })
    }

    /// The entry of a thread, if its number and that of the word fit their fields.
    fn by_thread(self, thread: u32) -> Option<Entry>
        ensures some { IfSome result (λ entry. (entry ≡ entry_by thread self) × (thread < 255)) }
        ensures none { IfNone result (¬ ((thread < 255) × (self.word < 2 ^ 16))) }
    {
        match actor_of(thread) {
            Some(actor) => self.by(actor),
            None => None,
        }
    }
}

/// The entry that says this, if its numbers fit their fields.
pub fn entry_of(said: Recorded) -> Option<Entry>
    ensures some { IfSome result (λ entry. recorded_of entry ≡ said) }
    ensures none { IfNone result (¬ Fits said) }
{
    match said {
        Recorded::Thread(thread, step) => fields_of_step(step).by_thread(thread),
        Recorded::Root(thread, cell) => Fields::of_cell(13, cell, 0).by_thread(thread),
        Recorded::Collector(turn) => match fields_of_turn(turn) {
            Some(fields) => fields.by(COLLECTOR),
            None => None,
        },
        Recorded::Unknown => Fields::of_cell(0, 0, 0).by(COLLECTOR),
    }
}

/// The number of a thread, if an entry can have it.
fn actor_of(thread: u32) -> Option<u8>
    ensures some { IfSome result (λ actor. (actor ≡ thread) × (thread < 255)) }
    ensures none { IfNone result (¬ (thread < 255)) }
{
    match u8::try_from(thread) {
        Ok(COLLECTOR) | Err(_) => None,
        Ok(actor) => Some(actor),
    }
}

/// The numbers of a thread's step.
fn fields_of_step(step: ThreadStep) -> Fields
    ensures reads { (actor : ℕ) → thread_step (entry_by actor result) ≡ Some step }
    ensures no_root { result.kind ≢ 13 }
    ensures word { result.word ≡ word_of_step step }
{
    match step {
        ThreadStep::ReadWord(cell, word, value) => Fields::of_word(1, cell, word, value),
        ThreadStep::ReadOldValue(cell, word, value) => Fields::of_word(2, cell, word, value),
        ThreadStep::Mark(cell) => Fields::of_cell(3, cell, 0),
        ThreadStep::StoreAfterBarrier(cell, word, value) => Fields::of_word(4, cell, word, value),
        ThreadStep::StorePlain(cell, word, value) => Fields::of_word(5, cell, word, value),
        ThreadStep::Claim(cell, true) => Fields::of_cell(6, cell, 0),
        ThreadStep::Claim(cell, false) => Fields::of_cell(7, cell, 0),
        ThreadStep::ReadPosted(stage) => Fields::of_stage(8, stage),
        ThreadStep::StoreStage(stage) => Fields::of_stage(9, stage),
        ThreadStep::ReadPostedFirst(stage) => Fields::of_stage(10, stage),
        ThreadStep::EnterStage(stage) => Fields::of_stage(11, stage),
        ThreadStep::ReadPostedAgain(stage) => Fields::of_stage(12, stage),
    }
}

/// The numbers of a step of the collector, if that of a thread fits its field.
fn fields_of_turn(turn: Turn) -> Option<Fields>
    ensures reads { IfSome result (λ fields. turn_recorded (entry_by 255 fields) ≡ Some turn) }
    ensures word { IfSome result (λ fields. fields.word ≡ word_of_turn turn) }
    ensures none { IfNone result (¬ (thread_of_turn turn < 2 ^ 32)) }
{
    match turn {
        Turn::PostStage(stage) => Some(Fields::of_stage(21, stage)),
        Turn::ReadStage(thread, stage) => match u32::try_from(thread) {
            Ok(thread) => Some(Fields::of_cell(22, thread, stage)),
            Err(_) => None,
        },
        Turn::MarkFound(cell, colour) => Some(Fields::of_cell(23, cell, colour)),
        Turn::ReadColour(cell, colour) => Some(Fields::of_cell(24, cell, colour)),
        Turn::ScanWord(cell, word, value) => Some(Fields::of_word(25, cell, word, value)),
        Turn::Blacken(cell) => Some(Fields::of_cell(26, cell, 0)),
        Turn::ClearWord(cell, word) => Some(Fields::of_word(27, cell, word, 0)),
        Turn::Free(cell) => Some(Fields::of_cell(28, cell, 0)),
    }
}

/// The bytes of an entry, whose numbers fit their fields.
fn bytes_of(entry: Entry) -> [u8; 16]
    ensures bytes { result ≡ bytes_of entry }
    ensures word { entry.word < 2 ^ 16 }
    ensures cell { entry.cell < 2 ^ 32 }
    ensures value { entry.value < 2 ^ 64 }
{
    let word = entry.word.to_le_bytes();
    let cell = entry.cell.to_le_bytes();
    let value = entry.value.to_le_bytes();
    [
        entry.actor,
        entry.kind,
        word[0],
        word[1],
        cell[0],
        cell[1],
        cell[2],
        cell[3],
        value[0],
        value[1],
        value[2],
        value[3],
        value[4],
        value[5],
        value[6],
        value[7],
    ]
}

/// Adds an entry to a record.
pub fn put_entry(bytes: &mut Vec<u8>, entry: Entry) -> Result<(), AllocError>
    ensures { (entries : List AnEntry) → IsRecord bytes.old.items entries → OnOk result (IsRecord bytes.new.items (entry ∷ entries)) }
{
    bytes.extend_from_slice(&bytes_of(entry))?;
    Ok(())
}
