ghost use Rattle.std.specs.Prelude.{◌≡◌, ◌≢◌, ◌∷◌, None};
ghost use Rattle.pools.specs.Heap.{kind_of};
ghost use Rattle.colours.specs.Steps.{ReadWord};
ghost use Rattle.colours.specs.Mutator.{MayUse, IsPossible};

use crate::heap::Heap;
use crate::mutator::Mutator;
use colours::{Ask, Place};
use std::marker::Brand;

impl<'a> Heap<'a> {
    ghost use Rattle.heap_table.specs.Holders.{MayCall, IsNow, IsOfRun};

    /// What a word of a cell holds, in one step. There is no read barrier, and no test of colours or stages.
    pub fn read(&self, me: &mut Mutator, cell: u32, word: u32) -> u64
        requires token { MayCall self.now me.old }
        requires cell { MayUse me.old.setup me.old.log cell }
        requires word { kind_of me.old.setup cell word ≢ None }
        ensures log { IsNow me.old (ReadWord cell word result ∷ me.old.log) me.new }
        ensures token { MayCall self.now me.new }
        ensures possible { IsPossible me.old.setup me.old.log (ReadWord cell word result) }
        ensures run { IsOfRun me.new }
    {
        let ask = Ask::Load(Place::Word(cell, word));
        self.step::<Brand, (u32, u32)>(me, ask, (cell, word))
    }
}
