ghost use Rattle.std.specs.Prelude.{◌≡◌, ◌∷◌, []};
ghost use Rattle.colours.specs.Colours.{done};
ghost use Rattle.colours.specs.Steps.{StoreStage};

use crate::heap::Heap;
use crate::mutator::Mutator;
use colours::DONE;
use std::marker::Brand;

impl<'a> Heap<'a> {
    ghost use Rattle.heap_table.specs.Holders.{MayCall, IsNow, IsOfRun};

    /// The thread's last step. It holds nothing then, and the collector waits for it no longer. How a thread ends is this project's
    /// own.
    pub fn finish(&self, me: &mut Mutator)
        requires token { MayCall self.now me.old }
        ensures log { IsNow me.old (StoreStage done [] ∷ me.old.log) me.new }
        ensures run { IsOfRun me.new }
    {
        self.store_stage::<Brand, ()>(me, DONE, ());
    }
}
