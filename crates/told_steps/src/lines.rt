//! A step as a line.
use crate::events::Event;
use crate::listing::{Listing, unindented};
use crate::put_event::{Names, put_event};
use crate::slot_changes::slot_changes;
use machine::FramePlace;
use messages::Message;
use moves::Actor;
use std::alloc::Global;
use step_log::{LogStep, StepLog};

/// How wide the column of the numbers of steps is.
const NUMBER_WIDTH: usize = 6;

/// How wide that of the actors is.
const ACTOR_WIDTH: usize = 12;

/// What the lines are made of: the log, and the text of the module.
#[derive(Clone, Copy)]
pub struct Texts<'a> {
    pub log: &'a StepLog<'a>,
    pub listing: &'a Listing,
}

/// A step that was made: its number, counted from 1, what is logged of it, and what it does.
#[derive(Clone, Copy)]
pub struct Made<'a> {
    pub number: usize,
    pub step: &'a LogStep,
    pub event: &'a Event,
}

/// Blanks that fill a column in which this much stands.
fn put_blanks(out: &mut Message, used: usize, width: usize) {
    for _blank in used..width {
        out.put_byte(b' ');
    }
}

/// The number of a step, in its column.
fn put_step_number(alloc: Global, out: &mut Message, number: usize) {
    let Ok(digits) = (number as u64).to_string(alloc) else {
        return out.refuse();
    };
    put_blanks(out, digits.as_bytes().len(), NUMBER_WIDTH);
    out.put_bytes(digits.as_bytes());
    out.put("  ")
}

/// The name of an actor, in its column.
fn put_actor(out: &mut Message, actor: &Actor) {
    let start = out.len();
    match actor {
        Actor::Collector => out.put("collector"),
        Actor::Thread(number) => {
            out.put("thread ");
            out.put_number(u64::from(*number));
        }
    }
    let used = out.len().saturating_sub(start);
    put_blanks(out, used, ACTOR_WIDTH)
}

/// The place of an instruction and its text.
fn put_instruction(names: &Names, out: &mut Message, listing: &Listing, place: &FramePlace) {
    listing.put_place(out, names.module, place);
    out.put("  ");
    if let Some(line) = listing.line_of(place) {
        out.put_bytes(unindented(listing.line(line)));
    }
    out.put("    ")
}

/// What a step does, in words, with the root slots that it changes.
pub fn put_done(names: &Names, out: &mut Message, log: &StepLog, made: Made) {
    put_event(names, out, made.event);
    match slot_changes(log, made.number, made.step) {
        Some(changes) => changes.put(names, out),
        None => {}
    }
}

/// A step without the end of its line.
pub fn put_step(names: &Names, out: &mut Message, texts: Texts, made: Made) {
    put_step_number(names.alloc, out, made.number);
    put_actor(out, &made.step.actor);
    if let Some(place) = &made.step.place {
        put_instruction(names, out, texts.listing, place);
    }
    put_done(names, out, texts.log, made)
}

/// The end of a line that stands for this many steps.
pub fn end_line(out: &mut Message, count: u64) {
    if count > 1 {
        out.put("    .. ");
        out.put_number(count);
        out.put(" times");
    }
    out.put("\n")
}

/// Whether two steps are of one actor.
pub fn is_same_actor(one: &Actor, other: &Actor) -> bool {
    match (one, other) {
        (Actor::Collector, Actor::Collector) => true,
        (Actor::Thread(one), Actor::Thread(other)) => *one == *other,
        _ => false,
    }
}
