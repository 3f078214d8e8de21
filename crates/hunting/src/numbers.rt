//! Numbers that are drawn.
ghost use Rattle.std.specs.Prelude.{◌<◌};

use rand_core::Rng;

/// A number below this one.
pub fn below<R: Rng>(rng: &mut R, past: u32) -> u32
    requires { 0 < past }
    ensures { result < past }
{
    rng.next_u32() % past
}

/// Whether a lot falls that does so this many times of 64.
pub(crate) fn falls<R: Rng>(rng: &mut R, times: u32) -> bool {
    times > 0 && below(rng, 64) < times
}
