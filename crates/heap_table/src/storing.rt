ghost use Rattle.std.specs.Prelude.{◌≡◌, ◌∷◌, IsTrue};
ghost use Rattle.pools.specs.Heap.{kind_of};
ghost use Rattle.pools.specs.Layouts.{is_reference_kind};
ghost use Rattle.colours.specs.Steps.{StorePlain};
ghost use Rattle.colours.specs.Mutator.{MayUse, MayStore, Fresh};

use crate::heap::Heap;
use crate::mutator::Mutator;
use colours::{Ask, Place};
use std::marker::Brand;

impl<'a> Heap<'a> {
    ghost use Rattle.heap_table.specs.Holders.{MayCall, IsNow, IsOfRun};

    /// Stores a value in one step, without the barrier. A reference goes only into a fresh cell: no word of the heap names such a
    /// cell, so nothing is lost with the old value, and only this thread can find the new one there.
    pub fn store_plain(&self, me: &mut Mutator, cell: u32, word: u32, value: u64)
        requires token { MayCall self.now me.old }
        requires cell { MayUse me.old.setup me.old.log cell }
        requires fresh { IsTrue (is_reference_kind (kind_of me.old.setup cell word)) → Fresh me.old.setup me.old.log cell }
        requires value { MayStore me.old.setup me.old.log (kind_of me.old.setup cell word) value }
        ensures log { IsNow me.old (StorePlain cell word value ∷ me.old.log) me.new }
        ensures token { MayCall self.now me.new }
        ensures run { IsOfRun me.new }
    {
        let ask = Ask::Store(Place::Word(cell, word), value);
        self.step::<Brand, (u32, u32, u64)>(me, ask, (cell, word, value));
    }
}
