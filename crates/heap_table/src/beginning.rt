ghost use Rattle.std.specs.Prelude.{◌≡◌, ◌≢◌, ◌<◌, ◌^◌, ◌∷◌, [], IsTrue, IsFalse};
ghost use Rattle.colours.specs.Colours.{done};
ghost use Rattle.colours.specs.Steps.{ReadPostedFirst, EnterStage, ReadPostedAgain, StoreStage};
ghost use Rattle.colours.specs.Mutator.{stage_of, phase_of, Arriving, Entering, Leaving};
ghost use Rattle.heap_table.specs.Begins.{Begins};

use crate::heap::Heap;
use crate::mutator::Mutator;
use colours::{Ask, DONE, Place};
use std::marker::Brand;

impl<'a> Heap<'a> {
    ghost use Rattle.heap_table.specs.Holders.{IsOf, MayCall, MayBegin, IsNow, IsOfRun};

    /// One try of a late thread to begin, and whether it has begun. It enters the posted stage, and reads the posted stage again:
    /// where another one was posted meanwhile it leaves, and may try again. How a late thread begins is this project's own.
    pub fn begin(&self, me: &mut Mutator) -> bool
        requires token { MayBegin self.now me.old }
        ensures token { IsNow me.old me.new.log me.new }
        ensures begun { IsTrue result → MayCall self.now me.new }
        ensures absent { IsFalse result → MayBegin self.now me.new }
        ensures log { Begins me.old.log result me.new.log }
        ensures run { IsOfRun me.new }
    {
        let posted = self.look_first(me);
        self.enter(me, posted);
        if self.look_again(me) == posted {
            return true;
        }
        self.leave(me);
        false
    }

    fn look_first(&self, me: &mut Mutator) -> u64
        requires token { MayBegin self.now me.old }
        ensures log { IsNow me.old (ReadPostedFirst result ∷ me.old.log) me.new }
        ensures low { result < 2 ^ 62 }
    {
        self.step::<Brand, ()>(me, Ask::Load(Place::Posted), ())
    }

    fn enter(&self, me: &mut Mutator, posted: u64)
        requires token { IsOf self.now me.old }
        requires phase { phase_of me.old.setup me.old.thread me.old.log ≡ Arriving posted }
        requires low { posted < 2 ^ 62 }
        ensures log { IsNow me.old (EnterStage posted ∷ me.old.log) me.new }
    {
        self.store_stage::<Brand, ()>(me, posted, ());
    }

    fn look_again(&self, me: &mut Mutator) -> u64
        requires token { IsOf self.now me.old }
        requires phase { phase_of me.old.setup me.old.thread me.old.log ≡ Entering }
        ensures log { IsNow me.old (ReadPostedAgain result ∷ me.old.log) me.new }
        ensures run { IsOfRun me.new }
    {
        self.step::<Brand, ()>(me, Ask::Load(Place::Posted), ())
    }

    fn leave(&self, me: &mut Mutator)
        requires token { IsOf self.now me.old }
        requires phase { phase_of me.old.setup me.old.thread me.old.log ≡ Leaving }
        ensures log { IsNow me.old (StoreStage done [] ∷ me.old.log) me.new }
        ensures run { IsOfRun me.new }
    {
        self.store_stage::<Brand, ()>(me, DONE, ());
    }
}
