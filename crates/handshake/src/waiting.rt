ghost use Rattle.std.specs.Prelude.{◌≡◌};
ghost use Rattle.colours.specs.Collector.{has_answered};

use colours::DONE;

/// Whether the collector waits no longer for a thread whose stage word it read: it is the posted stage, or the thread
/// has ended.
pub fn has_answered(posted: u64, found: u64) -> bool
    ensures { result ≡ has_answered posted found }
{
    found == posted || found == DONE
}
