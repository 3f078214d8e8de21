//! One step of mending: the changes that are kept where a check ends, and the texts with them.
use crate::offers::{Offers, offers_of};
use crate::pair::{Pair, with_changes};
use crate::reached::{Reached, how_far, leads_to_store, leaves, refusal_in};
use crate::trial::{Trial, trial_of};
use block_rules::Refusal;
use fixes::put_words;
use ir_tokens::Position;
use messages::{Change, ChangedFile, Message, Pen, put_position};
use std::alloc::{AllocError, Global};

/// Texts with some changes, what a check says of them, and a line for each change.
#[derive(Drop)]
pub(crate) struct Step {
    pub pair: Pair,
    pub trial: Trial,
    pub lines: Vec<u8>,
}

/// Where a check ends, to be left behind.
#[derive(Clone, Copy)]
struct Stop {
    reached: Reached,
    /// The refusal, if it ends with one.
    refusal: Option<Refusal>,
}

fn word_of(file: ChangedFile) -> &'static str {
    match file {
        ChangedFile::Module => "module ",
        ChangedFile::Certificate => "certificate ",
    }
}

/// The line of a change: `fixed module 12:3 llvm.gcwrite in place of the store`.
fn put_change(out: &mut Message, pair: &Pair, change: &Change) {
    let text = pair.text_of(change.file);
    out.put("fixed ");
    out.put(word_of(change.file));
    put_position(
        out,
        Position::after(text.get(..change.start).unwrap_or(text)),
    );
    out.put(" ");
    put_words(out, text, change);
    out.put("\n")
}

/// A line for each change.
fn lines_of(alloc: Global, pair: &Pair, changes: &[Change]) -> Result<Vec<u8>, AllocError> {
    let mut out = Message::new(alloc);
    for change in changes {
        put_change(&mut out, pair, change);
    }
    out.finish()
}

/// Tries texts after changes, which are named by these lines.
fn tried(alloc: Global, wide: bool, pair: Pair, lines: Vec<u8>) -> Result<Step, AllocError> {
    match trial_of(alloc, wide, &pair) {
        Ok(trial) => Ok(Step { pair, trial, lines }),
        Err(refused) => {
            drop(pair);
            drop(lines);
            Err(refused)
        }
    }
}

/// Tries some changes, which are made together, if there are some.
fn attempt(
    alloc: Global,
    wide: bool,
    pair: &Pair,
    changes: &[Change],
) -> Result<Option<Step>, AllocError> {
    if changes.is_empty() {
        return Ok(None);
    }
    let lines = lines_of(alloc, pair, changes)?;
    let mended = with_changes(alloc, pair, changes)?;
    Ok(Some(tried(alloc, wide, mended, lines)?))
}

/// Whether a step goes further.
fn is_further(stop: &Stop, step: &Step) -> bool {
    stop.reached.is_before(how_far(&step.pair, &step.trial))
}

/// Whether a section in place of another one is kept at once.
fn is_past(stop: &Stop, step: &Option<Step>) -> bool {
    match (step, &stop.refusal) {
        (Some(step), Some(refusal)) => leaves(&step.trial, refusal),
        (Some(step), None) => is_further(stop, step),
        _ => false,
    }
}

/// Whether a section in place of another one is kept where nothing else helps.
fn is_of_use(stop: &Stop, step: &Option<Step>) -> bool {
    match (step, &stop.refusal) {
        (Some(step), Some(refusal)) => leads_to_store(&step.trial, refusal),
        _ => false,
    }
}

/// The step, if it goes further.
fn if_further(stop: &Stop, step: Option<Step>) -> Option<Step> {
    match step {
        Some(step) => {
            if is_further(stop, &step) {
                Some(step)
            } else {
                drop(step);
                None
            }
        }
        None => None,
    }
}

/// The step with a whole certificate, or with the fixes of the module.
fn other_step(
    alloc: Global,
    wide: bool,
    pair: &Pair,
    offers: &Offers,
    stop: &Stop,
) -> Result<Option<Step>, AllocError> {
    let whole = attempt(alloc, wide, pair, offers.whole.as_slice())?;
    if let Some(step) = if_further(stop, whole) {
        return Ok(Some(step));
    }
    let code = attempt(alloc, wide, pair, offers.code.as_slice())?;
    Ok(if_further(stop, code))
}

/// A step that was found, or the section if it is of use.
fn found_or(stop: &Stop, found: Option<Step>, section: Option<Step>) -> Option<Step> {
    if found.is_some() {
        drop(section);
        return found;
    }
    if is_of_use(stop, &section) {
        return section;
    }
    drop(section);
    None
}

/// The fixes that are kept, of those that are offered.
fn chosen(
    alloc: Global,
    wide: bool,
    pair: &Pair,
    offers: &Offers,
    stop: &Stop,
) -> Result<Option<Step>, AllocError> {
    let section = attempt(alloc, wide, pair, offers.section.as_slice())?;
    if is_past(stop, &section) {
        return Ok(section);
    }
    match other_step(alloc, wide, pair, offers, stop) {
        Ok(found) => Ok(found_or(stop, found, section)),
        Err(refused) => {
            drop(section);
            Err(refused)
        }
    }
}

/// The next step of mending these texts, of which a check said this. Nothing where no safe fix leads further.
pub(crate) fn next_step(
    pen: Pen,
    wide: bool,
    pair: &Pair,
    trial: Trial,
) -> Result<Option<Step>, AllocError> {
    let stop = Stop {
        reached: how_far(pair, &trial),
        refusal: refusal_in(&trial),
    };
    let offers = offers_of(pen, wide, pair, trial)?;
    let step = chosen(pen.alloc, wide, pair, &offers, &stop);
    drop(offers);
    step
}
