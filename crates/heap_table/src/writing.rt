ghost use Rattle.std.specs.Prelude.{◌≡◌, ◌≢◌, ◌==◌, ◌∷◌, ◌++◌, IsTrue, not, if◌then◌else◌};
ghost use Rattle.pools.specs.Heap.{kind_of};
ghost use Rattle.pools.specs.Layouts.{is_reference_kind};
ghost use Rattle.colours.specs.Colours.{done, is_async};
ghost use Rattle.colours.specs.Steps.{ReadOldValue, Mark, StoreAfterBarrier};
ghost use Rattle.colours.specs.Calls.{marks, marks_of_new};
ghost use Rattle.colours.specs.Mutator.{stage_of, phase_of, MayFollow, MayUse, MayStore, Held, IsPossibleLog, MarkingOld, MarkingNew};
ghost use Rattle.heap_table.specs.Writes.{Replaces};

use crate::heap::Heap;
use crate::mutator::Mutator;
use colours::{Ask, Place, is_async, mark_at};
use std::marker::Brand;

impl<'a> Heap<'a> {
    ghost use Rattle.heap_table.specs.Holders.{IsOf, MayCall, IsNow, IsOfRun};

    /// Stores a reference after the barrier. As in Doligez and Gonthier (POPL 1994) the old value is marked, and at the sync stages
    /// the new one too, and only then comes the store. That the old value is marked at every stage, and that a mark is one
    /// fetch-max of the colour, is this project's own. Returns the old value, which the thread holds then.
    pub fn write(&self, me: &mut Mutator, cell: u32, word: u32, new: u32) -> u32
        requires token { MayCall self.now me.old }
        requires cell { MayUse me.old.setup me.old.log cell }
        requires word { IsTrue (is_reference_kind (kind_of me.old.setup cell word)) }
        requires new { MayStore me.old.setup me.old.log (kind_of me.old.setup cell word) new }
        ensures token { IsNow me.old me.new.log me.new × MayCall self.now me.new }
        ensures log { Replaces (stage_of me.old.log) cell word result new me.old.log me.new.log }
        ensures possible { IsPossibleLog me.new.setup me.new.log }
        ensures run { IsOfRun me.new }
    {
        let old = self.read_old(me, cell, word);
        self.mark_old(me, cell, word, old);
        self.mark_new(me, cell, word, old, new);
        self.put(me, cell, word, new);
        old
    }

    /// Reads what the store will replace.
    fn read_old(&self, me: &mut Mutator, cell: u32, word: u32) -> u32
        requires token { MayCall self.now me.old }
        requires cell { MayUse me.old.setup me.old.log cell }
        requires word { IsTrue (is_reference_kind (kind_of me.old.setup cell word)) }
        ensures log { IsNow me.old (ReadOldValue cell word result ∷ me.old.log) me.new }
    {
        let ask = Ask::Load(Place::Word(cell, word));
        let found = self.step::<Brand, (u32, u32)>(me, ask, (cell, word));
        self.reference(found)
    }

    fn mark_old(&self, me: &mut Mutator, cell: u32, word: u32, old: u32)
        requires token { IsOf self.now me.old }
        requires running { stage_of me.old.log ≢ done }
        requires phase { phase_of me.old.setup me.old.thread me.old.log ≡ (if old == 0 then MarkingNew cell word old else MarkingOld cell word old) }
        requires held { old ≢ 0 → Held me.old.setup me.old.log old }
        ensures log { IsNow me.old (marks old ++ me.old.log) me.new }
    {
        if old != 0 {
            self.mark(me, old);
        }
    }

    fn mark_new(&self, me: &mut Mutator, cell: u32, word: u32, old: u32, new: u32)
        requires token { IsOf self.now me.old }
        requires running { stage_of me.old.log ≢ done }
        requires phase { phase_of me.old.setup me.old.thread me.old.log ≡ MarkingNew cell word old }
        requires held { new ≢ 0 → Held me.old.setup me.old.log new }
        ensures log { IsNow me.old (marks_of_new (stage_of me.old.log) new ++ me.old.log) me.new }
    {
        if self.is_at_sync(me) && new != 0 {
            self.mark(me, new);
        }
    }

    fn is_at_sync(&self, me: &Mutator) -> bool
        requires running { stage_of me.now.log ≢ done }
        ensures { result ≡ not (is_async (stage_of me.now.log)) }
    {
        !is_async(me.stage)
    }

    /// Marks a cell that the thread holds.
    pub(crate) fn mark(&self, me: &mut Mutator, cell: u32)
        requires token { IsOf self.now me.old }
        requires running { stage_of me.old.log ≢ done }
        requires may { MayFollow me.old.setup (stage_of me.old.log) (phase_of me.old.setup me.old.thread me.old.log) (Mark cell) }
        requires held { Held me.old.setup me.old.log cell }
        ensures log { IsNow me.old (Mark cell ∷ me.old.log) me.new }
    {
        let ask = Ask::FetchMax(Place::Colour(cell), mark_at(me.stage));
        self.step::<Brand, u32>(me, ask, cell);
    }

    /// The store after the barrier.
    fn put(&self, me: &mut Mutator, cell: u32, word: u32, new: u32)
        requires token { IsOf self.now me.old }
        requires may { MayFollow me.old.setup (stage_of me.old.log) (phase_of me.old.setup me.old.thread me.old.log) (StoreAfterBarrier cell word new) }
        requires cell { MayUse me.old.setup me.old.log cell }
        requires word { IsTrue (is_reference_kind (kind_of me.old.setup cell word)) }
        requires new { MayStore me.old.setup me.old.log (kind_of me.old.setup cell word) new }
        ensures log { IsNow me.old (StoreAfterBarrier cell word new ∷ me.old.log) me.new }
        ensures run { IsOfRun me.new }
    {
        let ask = Ask::Store(Place::Word(cell, word), u64::from(new));
        self.step::<Brand, (u32, u32, u32)>(me, ask, (cell, word, new));
    }
}
