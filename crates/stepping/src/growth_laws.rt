ghost use Rattle.pools.specs.Heap.{Setup};
ghost use Rattle.stepping.specs.Growth.{ThreadsGrow, CollectorGrows};

use crate::bounds_laws::bounds_law;
use moves::Runner;

/// The law of growth: where the words and births are those after a run, each next move of a thread may be made on them and
/// makes them those after the longer run. So does each next step of the collector.
pub fn growth_law<M: Runner>()
    ensures threads { (s : Setup) → ThreadsGrow s M.action M.after_answer M.roots (M.fits s) }
    ensures collector { (s : Setup) → CollectorGrows s }
{
    bounds_law::<M>();
}
