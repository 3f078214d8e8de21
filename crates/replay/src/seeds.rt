ghost use Rattle.std.specs.Prelude.{◌≡◌, ◌≤◌};
ghost use Rattle.rand_core.specs.Steps.{stream_of, steps_u32};
ghost use Rattle.rand_pcg.specs.Pcg.{pcg32};
ghost use Rattle.replay.specs.Draws as spec;
ghost use Rattle.replay.specs.Draws.{one_draw};

use rand::RngExt;
use rand_core::{Rng, SeedableRng};
use rand_pcg::Pcg32;

/// The generator of a seed.
#[tactic(auto, unfolding(crate::specs::Draws::seeded))]
pub fn seeded(seed: u64) -> Pcg32
    ensures { stream_of (steps_u32 pcg32) result ≡ spec.seeded seed }
{
    Pcg32::seed_from_u64(seed)
}

/// One number, from 0 to `last`.
pub fn draw<R: Rng>(rng: &mut R, last: u32) -> u32
    requires { last ≤ 64 }
    ensures within { result ≤ last }
    ensures drawn { (result, R.stream rng.new) ≡ one_draw last (R.stream rng.old) }
{
    rng.random_range(0..=last)
}
