ghost use Rattle.pools.specs.Heap.{Setup};
ghost use Rattle.runs.specs.Machine.{machine_of};
ghost use Rattle.stepping.specs.Bounds.{AreBounded};

use runs::Machine;

/// The law of bounds: after every run, the stage of each thread that has begun and not ended, and the births of each cell, are
/// below 2^62, since the cycles of the collector are fewer than 2^60 and each frees a cell at most once.
pub fn bounds_law<M: Machine>()
    ensures { (s : Setup) → AreBounded s (machine_of M.action M.after_answer M.roots) }
{}
