//! What a seed draws for its whole schedule.
ghost use Rattle.std.specs.Prelude.{◌<◌};

use crate::numbers::below;
use crate::places::Places;
use rand_core::Rng;

/// How the next actor is found.
#[derive(Clone, Copy)]
pub(crate) enum Way {
    /// It is drawn: those with more weight more often.
    Lots,
    /// It is the one with the highest rank.
    Ranks,
    /// It is drawn, but threads that are left at a place stand there, until they are called.
    Standing,
}

/// What a seed draws for its whole schedule.
#[derive(Clone, Copy)]
pub(crate) struct Habits {
    pub way: Way,
    /// How many times of 64 actors are left at their places.
    pub at_places: u32,
    /// How many steps an actor makes in a row at most.
    pub most: u32,
}

/// What a seed draws for one actor.
#[derive(Clone, Copy)]
pub(crate) struct OfActor {
    /// How many times of 64 it is left after a step.
    pub leaving: u32,
    /// Where it is left more often.
    pub places: Places,
}

/// How a seed finds the next actor.
fn drawn_way<R: Rng>(rng: &mut R) -> Way {
    match below(rng, 6) {
        0 => Way::Lots,
        1 => Way::Ranks,
        _ => Way::Standing,
    }
}

/// What a seed draws for its whole schedule.
pub(crate) fn drawn_habits<R: Rng>(rng: &mut R) -> Habits {
    let way = drawn_way(rng);
    match way {
        Way::Lots | Way::Ranks => Habits {
            way,
            at_places: 16 + 16 * below(rng, 3),
            most: 16 << below(rng, 6),
        },
        Way::Standing => Habits {
            way,
            at_places: 48 + 8 * below(rng, 3),
            most: 16 << below(rng, 2),
        },
    }
}

/// How many times of 64 an actor is left after a step. By ranks it is left at change points alone.
fn leaving<R: Rng>(rng: &mut R, way: Way) -> u32 {
    match way {
        Way::Lots => 64 >> below(rng, 7),
        Way::Ranks => 0,
        Way::Standing => 16 >> below(rng, 5),
    }
}

/// How many times of 64 the collector is left after a step: half of the seeds let it go on for long, and all in which threads stand.
fn leaving_of_collector<R: Rng>(rng: &mut R, way: Way) -> u32 {
    let leaving = leaving(rng, way);
    match way {
        Way::Standing => 2 >> below(rng, 3),
        Way::Lots | Way::Ranks => match below(rng, 2) {
            0 => leaving.min(8 >> below(rng, 4)),
            _ => leaving,
        },
    }
}

/// What a seed draws for a thread.
pub(crate) fn of_thread<R: Rng>(rng: &mut R, way: Way) -> OfActor {
    OfActor {
        leaving: leaving(rng, way),
        places: Places::drawn(rng),
    }
}

/// What it draws for the collector.
pub(crate) fn of_collector<R: Rng>(rng: &mut R, way: Way) -> OfActor {
    let leaving = leaving_of_collector(rng, way);
    let places = match below(rng, 2) {
        0 => Places::none(),
        _ => Places::drawn(rng),
    };
    OfActor { leaving, places }
}
