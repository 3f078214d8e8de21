//! Change points: some steps of each stretch of a run, after which the rank of whoever made them falls.
ghost use Rattle.std.specs.Prelude.{◌<◌};

use crate::numbers::below;
use rand_core::Rng;

/// Change points of the present stretch.
#[derive(Clone, Copy)]
pub(crate) struct Changes {
    /// How many steps a stretch has, and how many of them are change points, at most three.
    stretch: u32,
    count: u32,
    points: [u32; 3],
    /// How many steps of the stretch are made.
    made: u32,
}

/// A change point of a stretch, or none.
fn point<R: Rng>(rng: &mut R, stretch: u32, is_wanted: bool) -> u32 {
    if is_wanted && stretch > 0 {
        below(rng, stretch)
    } else {
        u32::MAX
    }
}

/// The change points of a stretch.
fn points<R: Rng>(rng: &mut R, stretch: u32, count: u32) -> [u32; 3] {
    [
        point(rng, stretch, count > 0),
        point(rng, stretch, count > 1),
        point(rng, stretch, count > 2),
    ]
}

impl Changes {
    /// None at all.
    pub fn none() -> Self {
        Changes {
            stretch: 0,
            count: 0,
            points: [u32::MAX; 3],
            made: 0,
        }
    }

    /// One to three change points in each stretch of 32 to 1,024 steps.
    pub fn drawn<R: Rng>(rng: &mut R) -> Self {
        let stretch = 32 << below(rng, 6);
        let count = 1 + below(rng, 3);
        Changes {
            stretch,
            count,
            points: points(rng, stretch, count),
            made: 0,
        }
    }

    /// Whether the next step is a change point.
    pub fn is_due<R: Rng>(&mut self, rng: &mut R) -> bool {
        if self.made >= self.stretch {
            self.made = 0;
            self.points = points(rng, self.stretch, self.count);
        }
        let [first, second, third] = self.points;
        let made = self.made;
        self.made = made.saturating_add(1);
        first == made || second == made || third == made
    }
}
