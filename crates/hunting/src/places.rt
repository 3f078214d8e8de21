//! Places around which a schedule may switch more often.
ghost use Rattle.std.specs.Prelude.{◌<◌};

use crate::numbers::below;
use rand_core::Rng;

/// What an actor has just done.
#[derive(Clone, Copy)]
pub(crate) enum Place {
    Load,
    Store,
    /// A part of a barrier before its store, a root that is marked, and the collector's trace.
    Mark,
    /// Stages: an answer at a safepoint, a thread that begins, a post of the collector, and an answer that it finds.
    Handshake,
    /// A claim, and a free.
    Cell,
}

impl Place {
    /// The bit of a place.
    fn bit(self) -> u32 {
        match self {
            Place::Load => 1,
            Place::Store => 2,
            Place::Mark => 4,
            Place::Handshake => 8,
            Place::Cell => 16,
        }
    }
}

/// Some of the places, each by its bit.
#[derive(Clone, Copy)]
pub(crate) struct Places {
    bits: u32,
}

impl Places {
    /// No place.
    pub fn none() -> Self {
        Places { bits: 0 }
    }

    /// Each place with a chance of one half.
    pub fn drawn<R: Rng>(rng: &mut R) -> Self {
        Places {
            bits: below(rng, 32),
        }
    }

    /// Whether a place is among these.
    pub fn has(self, place: Place) -> bool {
        self.bits & place.bit() != 0
    }
}
