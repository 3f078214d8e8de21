use items::Items;
use layout::Program;
use machine::{Action, wrapped};
use moves::{Actor, Move};
use replay::World;
use std::alloc::{AllocError, Global};
use stepping::{Happening, MadeStep};
use trace_text::{Setup, Start};

/// The numbers that threads take from outside of the module.
#[derive(Drop)]
pub struct FromOutside<'a> {
    /// Whether the module may ask for any.
    wide: bool,
    starts: &'a [Start],
    /// How many each thread has taken so far.
    taken: Items<usize>,
}

impl<'a> FromOutside<'a> {
    /// Before any is taken.
    pub fn new(
        alloc: Global,
        program: &Program,
        setup: &'a Setup,
    ) -> Result<FromOutside<'a>, AllocError> {
        let starts = setup.starts.as_slice();
        let taken: Vec<usize> = vec![in alloc; 0; starts.len()]?;
        Ok(FromOutside {
            wide: program.module().wide,
            starts,
            taken: Items::from_vec(taken),
        })
    }

    /// How many bits the number has for which the actor asks, if it is a thread that asks for one.
    pub fn asked(&self, world: &World<'_>, actor: Actor) -> Option<u32> {
        let Actor::Thread(number) = actor else {
            return None;
        };
        if !self.wide {
            return None;
        }
        match world.thread(number)?.next() {
            Action::Foreign { bits } => Some(bits),
            _ => None,
        }
    }

    /// The next number of a thread, which is taken then.
    fn next_of(&mut self, thread: usize) -> u64 {
        let Some(taken) = self.taken.get(thread).copied() else {
            return 0;
        };
        if thread < self.taken.len() {
            self.taken.set(thread, taken.saturating_add(1));
        }
        match self.starts.get(thread) {
            Some(start) => start.values.get(taken).copied().unwrap_or(0),
            None => 0,
        }
    }

    /// The number that was taken, where a thread that asked for one of so many bits then made this step. One that comes late asks too,
    /// and makes other steps first.
    pub fn take(&mut self, asked: Option<u32>, made: &Option<MadeStep>) -> Option<u64> {
        let Some(bits) = asked else {
            return None;
        };
        let Some(made) = made else {
            return None;
        };
        match made.happening {
            Happening::Thread(number, Move::Works) => {
                Some(wrapped(bits, self.next_of(number as usize)))
            }
            _ => None,
        }
    }
}
