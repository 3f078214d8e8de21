//! How many seeds are tried at once, and for how long.
ghost use Rattle.std.specs.Prelude.{◌≡◌, ◌<◌, None, false};

use std::time::{Clock, Duration, Instant};

/// How many seeds are tried at once at most, where the first ones were fewer.
const MOST: u32 = 1 << 20;

/// Seeds that take fewer milliseconds are followed by twice as many.
const SHORT: u128 = 250;

/// Seeds that take more milliseconds are followed by half as many.
const LONG: u128 = 1_000;

/// How many seeds come next: at least `least`, which came first.
fn next_size(least: u32, size: u32, took: Duration) -> u32
    requires { 0 < least }
    ensures { 0 < result }
{
    if took.as_millis() > LONG {
        (size / 2).max(least)
    } else if took.as_millis() < SHORT && size < MOST {
        (size * 2).max(least)
    } else {
        size.max(least)
    }
}

/// The time from then to now. Where the clock fails it is the longest one.
fn time_since(began: Option<Instant>, clock: &impl Clock) -> Duration {
    let Some(began) = began else {
        return Duration::MAX;
    };
    match began.elapsed(clock) {
        Ok(elapsed) => elapsed,
        Err(_) => Duration::MAX,
    }
}

/// How many seeds are tried at once. They are about as many as take a second or less, but not fewer than at first.
#[derive(Clone, Copy)]
pub(crate) struct Pace {
    least: u32,
    size: u32,
    began: Option<Instant>,
    elapsed: Duration,
}

impl Pace {
    /// A search begins with this number of seeds.
    pub(crate) fn start(clock: &impl Clock, least: u32) -> Pace
        requires { 0 < least }
        ensures least { 0 < result.least }
        ensures size { 0 < result.size }
    {
        let began = match Instant::now(clock) {
            Ok(now) => Some(now),
            Err(_) => None,
        };
        Pace {
            least,
            size: least,
            began,
            elapsed: Duration::ZERO,
        }
    }

    /// How many seeds come next.
    pub(crate) fn size(self) -> u32
        ensures { result ≡ self.size }
    {
        self.size
    }

    /// How long the search took.
    pub(crate) fn elapsed(self) -> Duration {
        self.elapsed
    }

    /// That number of seeds was tried.
    pub(crate) fn tried(self, clock: &impl Clock) -> Pace
        requires { 0 < self.least }
        ensures least { 0 < result.least }
        ensures size { 0 < result.size }
    {
        let elapsed = time_since(self.began, clock);
        let took = elapsed.saturating_sub(self.elapsed);
        Pace {
            least: self.least,
            size: next_size(self.least, self.size, took),
            began: self.began,
            elapsed,
        }
    }

    /// Whether a search that may take this number of seconds is over.
    pub(crate) fn is_over(self, seconds: Option<u32>) -> bool
        ensures { seconds ≡ None → result ≡ false }
    {
        match seconds {
            Some(seconds) => self.elapsed.as_secs() >= u64::from(seconds),
            None => false,
        }
    }
}
