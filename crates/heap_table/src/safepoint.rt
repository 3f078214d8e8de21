ghost use Rattle.std.specs.Prelude.{◌≡◌, ◌≢◌, ◌<◌, ◌^◌, ◌∷◌, ◌++◌, [], ℕ, IsTrue, IfSome, IfNone};
ghost use Rattle.lemmas.specs.Lists.{IsIn};
ghost use Rattle.colours.specs.Colours.{done, is_async};
ghost use Rattle.colours.specs.Steps.{Mark, ReadPosted, StoreStage};
ghost use Rattle.colours.specs.Mutator.{stage_of, phase_of, MayFollow, MayUse, Answering, Held};
ghost use Rattle.colours.specs.Calls.{marks};
ghost use Rattle.heap_table.specs.Safepoints.{with_marks, before_answer, Responds, OwesAnswer};

use crate::heap::Heap;
use crate::mutator::Mutator;
use colours::{Ask, Place, is_async};
use std::marker::Brand;

impl<'a> Heap<'a> {
    ghost use Rattle.heap_table.specs.Holders.{IsOf, MayCall, IsNow, IsOfRun};

    /// Answers the posted stage where it is another than the thread's, and returns whether it did. As in Doligez and Gonthier
    /// (POPL 1994) a thread answers at points of its own choice, and marks its own roots at the third handshake. Afterwards it
    /// holds the roots that it named, and nothing else.
    pub fn safepoint(&self, me: &mut Mutator, roots: &[u32]) -> bool
        requires token { MayCall self.now me.old }
        requires roots { (root : ℕ) → IsIn root roots.now → MayUse me.old.setup me.old.log root }
        ensures token { IsNow me.old me.new.log me.new × MayCall self.now me.new }
        ensures log { Responds (stage_of me.old.log) roots.now me.old.log result me.new.log }
        ensures run { IsOfRun me.new }
    {
        match self.poll(me) {
            Some(posted) => {
                self.respond(me, posted, roots);
                true
            }
            None => false,
        }
    }

    /// The first half of a safepoint, for callers who list their roots only where they are asked for: reads the posted stage.
    /// Where it is another than the thread's, the thread owes the answer then.
    pub fn poll(&self, me: &mut Mutator) -> Option<u64>
        requires token { MayCall self.now me.old }
        ensures same { IfNone result (IsNow me.old (ReadPosted (stage_of me.old.log) ∷ me.old.log) me.new × MayCall self.now me.new) }
        ensures other { IfSome result (λ posted. (posted ≢ stage_of me.old.log) × IsNow me.old (ReadPosted posted ∷ me.old.log) me.new × OwesAnswer self.now me.new posted) }
        ensures run { IsOfRun me.new }
    {
        let stage = me.stage();
        let posted = self.look(me);
        if posted == stage {
            return None;
        }
        Some(posted)
    }

    /// The other half: marks the roots where the posted stage is that of the trace, and stores it as the thread's own.
    pub fn respond(&self, me: &mut Mutator, posted: u64, roots: &[u32])
        requires owes { OwesAnswer self.now me.old posted }
        requires roots { (root : ℕ) → IsIn root roots.now → MayUse me.old.setup me.old.log root }
        ensures log { IsNow me.old (StoreStage posted roots.now ∷ before_answer posted roots.now me.old.log) me.new }
        ensures token { MayCall self.now me.new }
        ensures run { IsOfRun me.new }
    {
        self.prepare(me, posted, roots);
        self.answer(me, posted, roots);
    }

    fn look(&self, me: &mut Mutator) -> u64
        requires token { MayCall self.now me.old }
        ensures log { IsNow me.old (ReadPosted result ∷ me.old.log) me.new }
        ensures low { result < 2 ^ 62 }
        ensures run { IsOfRun me.new }
    {
        self.step::<Brand, ()>(me, Ask::Load(Place::Posted), ())
    }

    fn prepare(&self, me: &mut Mutator, posted: u64, roots: &[u32])
        requires token { IsOf self.now me.old }
        requires running { stage_of me.old.log ≢ done }
        requires phase { phase_of me.old.setup me.old.thread me.old.log ≡ Answering posted [] }
        requires roots { (root : ℕ) → IsIn root roots.now → MayUse me.old.setup me.old.log root }
        ensures log { IsNow me.old (before_answer posted roots.now me.old.log) me.new }
    {
        if is_async(posted) {
            self.mark_all(me, posted, roots);
        }
    }

    fn mark_all(&self, me: &mut Mutator, posted: u64, roots: &[u32])
        requires token { IsOf self.now me.old }
        requires running { stage_of me.old.log ≢ done }
        requires stage { IsTrue (is_async posted) }
        requires phase { phase_of me.old.setup me.old.thread me.old.log ≡ Answering posted [] }
        requires roots { (root : ℕ) → IsIn root roots.now → MayUse me.old.setup me.old.log root }
        ensures log { IsNow me.old (with_marks roots.now me.old.log) me.new }
    {
        for root in roots {
            self.mark_root(me, *root);
        }
    }

    fn mark_root(&self, me: &mut Mutator, root: u32)
        requires token { IsOf self.now me.old }
        requires running { stage_of me.old.log ≢ done }
        requires may { root ≢ 0 → MayFollow me.old.setup (stage_of me.old.log) (phase_of me.old.setup me.old.thread me.old.log) (Mark root) }
        requires held { root ≢ 0 → Held me.old.setup me.old.log root }
        ensures log { IsNow me.old (marks root ++ me.old.log) me.new }
    {
        if root != 0 {
            self.mark(me, root);
        }
    }

    fn answer(&self, me: &mut Mutator, posted: u64, roots: &[u32])
        requires token { IsOf self.now me.old }
        requires may { MayFollow me.old.setup (stage_of me.old.log) (phase_of me.old.setup me.old.thread me.old.log) (StoreStage posted roots.now) }
        requires roots { (root : ℕ) → IsIn root roots.now → MayUse me.old.setup me.old.log root }
        requires low { posted < 2 ^ 62 }
        ensures log { IsNow me.old (StoreStage posted roots.now ∷ me.old.log) me.new }
        ensures run { IsOfRun me.new }
    {
        self.store_stage::<Brand, &[u32]>(me, posted, roots);
    }
}
