//! What is explained of a record that does not conform: the rule, the step, and the entries before it that concern the same cell.
ghost use Rattle.std.specs.Prelude.{OnOk};
ghost use Rattle.reports.specs.Said.{GivesText};
ghost use Rattle.trace_text.specs.Traces.{IsTraceOf};

use crate::conforming::{code_of, record_in};
use crate::record_words::put_entry;
use conform::Verdict;
use explained_checks::Look;
use fault_texts::put_whole_fault;
use messages::{Message, Pen};
use record_text::{ENTRY_BYTES, Entry, Recorded, read_entry};
use recorded_runs::judge;
use reports::{Files, Traced, path_of, read_traced};
use std::alloc::Global;
use std::io;
use std::io::Write;

/// How many entries before a step are told at most.
const TOLD: u32 = 5;

/// A step of a record with its number, counted from 1.
#[derive(Clone, Copy)]
struct Step {
    number: u32,
    entry: Entry,
}

/// The entry at this place of a record.
fn entry_at(record: &[u8], place: usize) -> Option<Entry> {
    let bytes = record.get(place.checked_mul(ENTRY_BYTES)?..)?;
    if bytes.len() < ENTRY_BYTES {
        return None;
    }
    Some(Entry::of(bytes))
}

/// Whether an entry names a root, and so is no step.
fn is_root(entry: Entry) -> bool {
    matches!(read_entry(entry), Recorded::Root(_, _))
}

/// The step with this number.
fn step_numbered(record: &[u8], number: u32) -> Option<Step> {
    let mut steps: u32 = 0;
    for place in 0..record.len() / ENTRY_BYTES {
        let entry = entry_at(record, place)?;
        if !is_root(entry) {
            steps = steps.wrapping_add(1);
            if steps == number {
                return Some(Step { number, entry });
            }
        }
    }
    None
}

/// The cell that an entry concerns, if it is one of the heap.
fn cell_of(entry: Entry) -> Option<u32> {
    match entry.kind {
        1..=7 | 13 | 23..=28 => Some(entry.cell),
        _ => None,
    }
}

/// Whether an entry is told beside a step: it concerns the same cell, or where that concerns none, it is of the same actor.
fn is_beside(entry: Entry, step: Step) -> bool {
    match cell_of(step.entry) {
        Some(cell) => cell_of(entry) == Some(cell),
        None => entry.actor == step.entry.actor,
    }
}

/// The line of an entry; a step has its number.
fn put_line(out: &mut Message, number: Option<u32>, entry: Entry) {
    out.put("  ");
    if let Some(number) = number {
        out.put_number(u64::from(number));
        out.put(" ");
    }
    put_entry(out, entry);
    out.put("\n")
}

/// Tells the entries beside a step that come before it, but for the first ones, so many. Returns how many there are.
fn put_before(out: &mut Message, record: &[u8], step: Step, but_for: u32) -> u32 {
    let mut steps: u32 = 0;
    let mut found: u32 = 0;
    for place in 0..record.len() / ENTRY_BYTES {
        let Some(entry) = entry_at(record, place) else {
            return found;
        };
        let root = is_root(entry);
        if !root {
            steps = steps.wrapping_add(1);
            if steps == step.number {
                return found;
            }
        }
        if is_beside(entry, step) {
            if found >= but_for {
                put_line(out, if root { None } else { Some(steps) }, entry);
            }
            found = found.saturating_add(1);
        }
    }
    found
}

/// Tells a step, after the last entries beside it.
fn put_step(out: &mut Message, record: &[u8], step: Step) {
    let found = put_before(out, record, step, u32::MAX);
    put_before(out, record, step, found.saturating_sub(TOLD));
    put_line(out, Some(step.number), step.entry)
}

/// Explains what is told of a record of a run from the beginning of a trace.
fn put_traced(pen: Pen, out: &mut Message, traced: &Traced, files: &Files<'_>)
    requires { IsTraceOf traced.now.program traced.now.trace }
{
    let Some(record) = record_in(files.of_record) else {
        return;
    };
    match judge(pen.alloc, &traced.program, &traced.trace.setup, record) {
        Ok(Verdict::Broken(number, _, rule)) => {
            put_whole_fault(out, pen, path_of(files.of_record), code_of(rule));
            if let Some(step) = step_numbered(record, number) {
                put_step(out, record, step)
            }
        }
        Ok(Verdict::Conforms(_)) => {}
        Err(_fault) => out.refuse(),
    }
}

/// Explains why a record does not conform.
pub(crate) fn explain_record(
    alloc: Global,
    look: Look,
    files: &Files<'_>,
    err: &mut Vec<u8>,
) -> io::Result<()>
    ensures { OnOk result (GivesText err.old.items err.new.items) }
{
    let mut out = Message::new(alloc);
    match read_traced(alloc, files) {
        Ok(traced) => {
            put_traced(Pen { alloc, look }, &mut out, &traced, files);
            drop(traced);
        }
        Err(unread) => {
            drop(unread);
            out.refuse();
        }
    }
    match out.finish() {
        Ok(text) => err.write_all(text.as_slice()),
        Err(_) => writeln!(err, "no memory to explain it"),
    }
}
