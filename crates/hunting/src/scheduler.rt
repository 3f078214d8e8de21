//! Who makes the next steps of a run.
ghost use Rattle.std.specs.Prelude.{◌≤◌, length};

use crate::changes::Changes;
use crate::habits::{Habits, OfActor, Way, drawn_habits, of_collector, of_thread};
use crate::numbers::{below, falls};
use crate::places::{Place, Places};
use crate::seen::Seen;
use items::Items;
use rand_core::{Rng, SeedableRng};
use rand_pcg::Pcg32;
use std::alloc::{AllocError, Global};

/// The rank of an actor that has no step left.
const OVER: u32 = 0;

/// Ranks that are drawn are from this one on, and those that fall are below it.
const MIDDLE: u32 = 1 << 31;

/// Whether an actor is drawn.
#[derive(Clone, Copy)]
enum Presence {
    Here,
    /// A thread stands at a place, until it is called.
    Away,
}

/// Draws the steps of a schedule. Actors are numbers here: those of the threads, and after them that of the collector.
#[derive(Drop)]
pub(crate) struct Scheduler {
    rng: Pcg32,
    habits: Habits,
    changes: Changes,
    /// What is drawn for each actor.
    actors: Items<OfActor>,
    weights: Items<u32>,
    ranks: Items<u32>,
    presence: Items<Presence>,
    /// The rank that fell last.
    lowest: u32,
    current: u32,
    /// How many steps the current actor has made in a row.
    row: u32,
}

impl Scheduler {
    /// The scheduler of a seed, for actors up to this number.
    pub fn new(alloc: Global, last: u32, seed: u32) -> Result<Self, AllocError>
        requires { last ≤ 64 }
    {
        let mut rng = Pcg32::seed_from_u64(u64::from(seed));
        let habits = drawn_habits(&mut rng);
        let mut actors = Items::new(alloc);
        let mut weights = Items::new(alloc);
        let mut ranks = Items::new(alloc);
        let mut presence = Items::new(alloc);
        for actor in 0..last + 1 {
            actors.push(if actor < last {
                of_thread(&mut rng, habits.way)
            } else {
                of_collector(&mut rng, habits.way)
            })?;
            weights.push(1 << (2 * below(&mut rng, 3)))?;
            ranks.push(MIDDLE + below(&mut rng, MIDDLE))?;
            presence.push(Presence::Here)?;
        }
        let changes = match habits.way {
            Way::Lots | Way::Standing => Changes::none(),
            Way::Ranks => Changes::drawn(&mut rng),
        };
        Ok(Scheduler {
            rng,
            habits,
            changes,
            actors,
            weights,
            ranks,
            presence,
            lowest: MIDDLE,
            current: 0,
            row: 0,
        })
    }

    /// Whether no thread has a step left, as far as it was seen.
    pub fn are_threads_over(&self) -> bool {
        match self.ranks.as_slice() {
            [threads @ .., _collector] => threads.iter().all(|rank| *rank == OVER),
            [] => true,
        }
    }

    /// Who makes the next steps: a number up to this one.
    pub fn next(&mut self, last: u32) -> u32
        requires { last ≤ 64 }
        ensures { result ≤ last }
    {
        let next = match self.habits.way {
            Way::Lots | Way::Standing => self.next_by_lot(last),
            Way::Ranks => self.next_by_rank(last),
        };
        self.current = next;
        self.row = 0;
        next
    }

    /// Whether another actor comes after a step of the current one of which this was seen.
    pub fn switches(&mut self, seen: Seen) -> bool {
        self.row = self.row.saturating_add(1);
        let is_due = self.changes.is_due(&mut self.rng);
        let switches = is_due || self.is_left(seen);
        if switches {
            self.fall(seen);
        }
        switches
    }

    /// Whether the current actor is left after a step of which this was seen. Threads are called where the collector waits, and where it posts.
    fn is_left(&mut self, seen: Seen) -> bool {
        match seen {
            Seen::Over | Seen::End => true,
            Seen::Waits(thread) => {
                self.call_one(thread);
                true
            }
            Seen::Posts => {
                self.call_any();
                self.is_left_at(Place::Handshake)
            }
            Seen::At(place) => self.is_left_at(place),
            Seen::Elsewhere => self.is_left_by_lot(),
        }
    }

    /// What is drawn for the current actor.
    fn drawn(&self) -> OfActor {
        self.actors
            .get(self.current as usize)
            .copied()
            .unwrap_or(OfActor {
                leaving: 0,
                places: Places::none(),
            })
    }

    /// Whether the current actor is left after a step that was made at no place.
    fn is_left_by_lot(&mut self) -> bool {
        let leaving = self.drawn().leaving;
        self.row >= self.habits.most || falls(&mut self.rng, leaving)
    }

    /// Whether the current actor is left at a place. Then it may stand there.
    fn is_left_at(&mut self, place: Place) -> bool {
        if self.drawn().places.has(place) && falls(&mut self.rng, self.habits.at_places) {
            self.stand();
            return true;
        }
        self.is_left_by_lot()
    }

    /// The number of threads.
    fn threads(&self) -> usize
        ensures { result ≤ length self.now.presence }
    {
        self.presence.len().saturating_sub(1)
    }

    /// The current actor stands where it is, if it is a thread, and threads stand in this schedule.
    fn stand(&mut self) {
        let at = self.current as usize;
        if matches!(self.habits.way, Way::Standing) && at < self.threads() {
            self.presence.set(at, Presence::Away);
        }
    }

    /// A thread is called, if it stands.
    fn call(&mut self, thread: usize) {
        if thread < self.threads() {
            self.presence.set(thread, Presence::Here);
        }
    }

    /// Any thread is called.
    fn call_any(&mut self) {
        let threads = match u32::try_from(self.threads()) {
            Ok(threads) => threads.max(1),
            Err(_) => u32::MAX,
        };
        let thread = below(&mut self.rng, threads);
        self.call(thread as usize);
    }

    /// The thread for which the collector waits is called, or any.
    fn call_one(&mut self, awaited: usize) {
        if falls(&mut self.rng, 32) {
            self.call(awaited);
        } else {
            self.call_any();
        }
    }

    /// The rank of the current actor falls below all others. Without a step left it is over.
    fn fall(&mut self, seen: Seen) {
        self.lowest = self.lowest.saturating_sub(1).max(OVER + 1);
        let rank = match seen {
            Seen::Over => OVER,
            _ => self.lowest,
        };
        let at = self.current as usize;
        if at < self.ranks.len() {
            self.ranks.set(at, rank);
        }
    }

    /// The rank of an actor.
    fn rank(&self, actor: u32) -> u32 {
        self.ranks.get(actor as usize).copied().unwrap_or(OVER)
    }

    /// Whether a thread stands.
    fn stands(&self, actor: u32) -> bool {
        matches!(self.presence.get(actor as usize), Some(Presence::Away))
    }

    /// The weight of an actor in the next lot. The current one has none, one that stands, and one that is over.
    fn weight(&self, actor: u32) -> u32 {
        if actor == self.current || self.rank(actor) == OVER || self.stands(actor) {
            return 0;
        }
        self.weights.get(actor as usize).copied().unwrap_or(0)
    }

    /// An actor that is drawn by its weight. Where none has weight, the last one.
    fn next_by_lot(&mut self, last: u32) -> u32
        requires { last ≤ 64 }
        ensures { result ≤ last }
    {
        let mut all: u32 = 0;
        for actor in 0..last + 1 {
            all = all.saturating_add(self.weight(actor));
        }
        let mut lot = below(&mut self.rng, all.max(1));
        for actor in 0..last {
            let weight = self.weight(actor);
            if lot < weight {
                return actor;
            }
            lot -= weight;
        }
        last
    }

    /// The actor with the highest rank.
    fn next_by_rank(&self, last: u32) -> u32
        requires { last ≤ 64 }
        ensures { result ≤ last }
    {
        let mut highest = 0;
        for actor in 0..last + 1 {
            if self.rank(actor) > self.rank(highest) {
                highest = actor;
            }
        }
        highest
    }
}
