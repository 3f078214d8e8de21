ghost use Rattle.std.specs.Prelude.{ℕ, ◌≡◌, ◌≢◌, ◌<◌, ◌∷◌, [], IfOk, IfErr, IfNone, OnOk, OnErr, IsTrue, IsFalse, slice_index};
ghost use Rattle.colours.specs.Colours.{done};
ghost use Rattle.colours.specs.Steps.{ReadWord, StorePlain, StoreAfterBarrier, StoreStage};
ghost use Rattle.colours.specs.Mutator.{stage_of, IsDisciplined};
ghost use Rattle.heap_table.specs.Allocs.{Allocates};
ghost use Rattle.heap_table.specs.Begins.{Begins};
ghost use Rattle.heap_table.specs.Holders.{MayCall, MayBegin, IsNow, IsOfRun};
ghost use Rattle.heap_table.specs.Writes.{Replaces};
ghost use Rattle.watched.specs.Answers.{Answers};
ghost use Rattle.watched.specs.Reasons.{IsUseReason, IsPlainReason, IsWriteReason, IsRootReason};

use crate::refusal::Refusal;
use heap_table::{Heap, Mutator, Plan};
use pools::{LayoutId, WordKind};
use std::alloc::{AllocError, Global};
use std::marker::Model;
use watch::{Holdings, others_law};

/// A thread's token, with what the thread holds and what of it is fresh. Contracts see the token. Where a call says so it is
/// refused: then it makes no step, and the token is as it was.
#[derive(Drop)]
pub struct Watched<'a> {
    pub(crate) me: Mutator,
    pub(crate) known: Holdings,
    pub(crate) plan: &'a Plan<'a>,
}

impl<'a> Model for Watched<'a> {
    ghost use Rattle.std.specs.Prelude.{◌≡◌};
    ghost use Rattle.heap_table.specs.Holders.{Holder};
    ghost use Rattle.watch.specs.Knows.{Knows};

    ghost Value = { Holder };

    ghost view = { λ w. w.me };

    ghost invariant = { λ w. Knows w.me.setup w.me.log w.known × (w.plan.now ≡ w.me.setup) };
}

impl<'a> Watched<'a> {
    /// The token of a thread that has made no step.
    pub fn new(alloc: Global, me: Mutator, plan: &'a Plan<'a>) -> Result<Self, AllocError>
        requires fresh { me.log ≡ [] }
        requires plan { plan.now ≡ me.setup }
        ensures { IfOk result (λ w. w ≡ me) }
    {
        let known = Holdings::new(alloc, plan.pools.cells())?;
        Ok(Watched { me, known, plan })
    }

    /// The token alone.
    pub fn into_token(self) -> Mutator
        ensures { result ≡ self.entry }
    {
        let Watched {
            me,
            known: _,
            plan: _,
        } = self;
        me
    }

    /// The log is the thread's share of a run of the heap, and each result in it is a possible one. This is so of every token.
    pub fn is_of_run_law(&self)
        ensures { IsOfRun self.now }
    {
        self.me.is_of_run_law();
    }

    /// What a word of a cell holds. Refused where the thread may not use the cell, or it has no such word.
    pub fn read(&mut self, heap: &Heap<'_>, cell: u32, word: u32) -> Result<u64, Refusal>
        requires token { MayCall heap.now self.old }
        ensures token { MayCall heap.now self.new }
        ensures read { IfOk result (λ value. IsNow self.old (ReadWord cell word value ∷ self.old.log) self.new) }
        ensures refused { OnErr result (self.new ≡ self.old) }
        ensures why { IfErr result (IsUseReason self.old.setup self.old.log cell word) }
        // It is refused exactly where the step would break the discipline.
        ensures keeps { IfOk result (λ value. IsDisciplined self.old.setup self.old.log (ReadWord cell word value)) }
        ensures breaks { OnErr result ((value : ℕ) → ¬ IsDisciplined self.old.setup self.old.log (ReadWord cell word value)) }
    {
        others_law();
        let kind = self.kind(cell, word)?;
        let value = heap.read(&mut self.me, cell, word);
        if let WordKind::Reference(_) = kind {
            heap.few_cells_law();
            self.known.found(value as u32);
        }
        Ok(value)
    }

    /// Stores a number or a reference in one step, without the barrier. Refused where the thread may not use the cell, it has no
    /// such word, the number does not fit the word, or the word holds references and the cell is not fresh, or the thread does
    /// not hold what is to be stored, or that is of another layout.
    pub fn store_plain(
        &mut self,
        heap: &Heap<'_>,
        cell: u32,
        word: u32,
        value: u64,
    ) -> Result<(), Refusal>
        requires token { MayCall heap.now self.old }
        ensures token { MayCall heap.now self.new }
        ensures stored { OnOk result (IsNow self.old (StorePlain cell word value ∷ self.old.log) self.new) }
        ensures refused { OnErr result (self.new ≡ self.old) }
        ensures why { IfErr result (IsPlainReason self.old.setup self.old.log cell word value) }
        ensures keeps { OnOk result (IsDisciplined self.old.setup self.old.log (StorePlain cell word value)) }
        ensures breaks { OnErr result (¬ IsDisciplined self.old.setup self.old.log (StorePlain cell word value)) }
    {
        others_law();
        let kind = self.kind(cell, word)?;
        if self.is_barred(&kind, cell) {
            return Err(Refusal::NotFresh);
        }
        if let Some(why) = self.refused_value(&kind, value) {
            return Err(why);
        }
        heap.few_cells_law();
        heap.store_plain(&mut self.me, cell, word, value);
        if let WordKind::Reference(_) = kind {
            self.known.stored(value as u32);
        }
        Ok(())
    }

    /// Stores a reference after the barrier. Refused where the thread may not use the cell, it has no such word, that holds no
    /// references, the thread does not hold what is to be stored, or that is of another layout.
    pub fn write(&mut self, heap: &Heap<'_>, cell: u32, word: u32, new: u32) -> Result<(), Refusal>
        requires token { MayCall heap.now self.old }
        ensures token { MayCall heap.now self.new }
        ensures written { OnOk result (IsNow self.old self.new.log self.new × (old : ℕ) × Replaces (stage_of self.old.log) cell word old new self.old.log self.new.log) }
        ensures refused { OnErr result (self.new ≡ self.old) }
        ensures why { IfErr result (IsWriteReason self.old.setup self.old.log cell word new) }
        ensures keeps { OnOk result (IsDisciplined self.old.setup self.old.log (StoreAfterBarrier cell word new)) }
        ensures breaks { OnErr result (¬ IsDisciplined self.old.setup self.old.log (StoreAfterBarrier cell word new)) }
    {
        others_law();
        let kind = self.kind(cell, word)?;
        let WordKind::Reference(_) = kind else {
            return Err(Refusal::NoReference);
        };
        if let Some(why) = self.refused_value(&kind, u64::from(new)) {
            return Err(why);
        }
        let old = heap.write(&mut self.me, cell, word, new);
        self.me.is_of_run_law();
        self.known.found(old);
        self.known.stored(new);
        Ok(())
    }

    /// Takes a free cell of the layout's pool, and returns 0 where each was tried in vain. No try breaks the discipline. Where
    /// there is no such layout, or its pool is empty, no step is made.
    pub fn alloc(&mut self, heap: &Heap<'_>, layout: LayoutId) -> u32
        requires token { MayCall heap.now self.old }
        ensures token { MayCall heap.now self.new }
        ensures none { slice_index self.old.setup.pools layout ≡ 0 → (result ≡ 0) × (self.new ≡ self.old) }
        ensures log { slice_index self.old.setup.pools layout ≢ 0 → IsNow self.old self.new.log self.new × Allocates self.old.setup layout self.old.log result self.new.log }
    {
        others_law();
        if heap.count(layout) == 0 {
            return 0;
        }
        let cell = heap.alloc(&mut self.me, layout);
        if cell != 0 {
            self.known.won(cell);
        }
        cell
    }

    /// Answers the posted stage where it is another than the thread's, and returns it then. Refused where an answer with these
    /// roots would break the discipline, also where no answer is due: the roots are looked at ahead of the posted stage, since a
    /// thread that has found another stage there has to answer it.
    pub fn safepoint(&mut self, heap: &Heap<'_>, roots: &[u32]) -> Result<Option<u64>, Refusal>
        requires token { MayCall heap.now self.old }
        ensures token { MayCall heap.now self.new }
        ensures answered { IfOk result (λ answered. IsNow self.old self.new.log self.new × Answers (stage_of self.old.log) roots.now self.old.log answered self.new.log) }
        ensures refused { OnErr result (self.new ≡ self.old) }
        ensures why { IfErr result (IsRootReason self.old.setup self.old.log roots.now) }
        ensures keeps { OnOk result ((stage : ℕ) → IsDisciplined self.old.setup self.old.log (StoreStage stage roots.now)) }
        ensures breaks { OnErr result ((stage : ℕ) → ¬ IsDisciplined self.old.setup self.old.log (StoreStage stage roots.now)) }
    {
        others_law();
        self.are_held(roots)?;
        let Some(posted) = heap.poll(&mut self.me) else {
            return Ok(None);
        };
        heap.respond(&mut self.me, posted, roots);
        self.known.answered(roots);
        Ok(Some(posted))
    }

    /// One try of a late thread to begin, and whether it has begun.
    pub fn begin(&mut self, heap: &Heap<'_>) -> bool
        requires token { MayBegin heap.now self.old }
        ensures token { IsNow self.old self.new.log self.new }
        ensures begun { IsTrue result → MayCall heap.now self.new }
        ensures absent { IsFalse result → MayBegin heap.now self.new }
        ensures log { Begins self.old.log result self.new.log }
    {
        others_law();
        let begun = heap.begin(&mut self.me);
        if !begun {
            self.known.answered(&[]);
        }
        begun
    }

    /// The thread's last step. It holds nothing then.
    pub fn finish(&mut self, heap: &Heap<'_>)
        requires token { MayCall heap.now self.old }
        ensures { IsNow self.old (StoreStage done [] ∷ self.old.log) self.new }
    {
        heap.finish(&mut self.me);
        self.known.answered(&[]);
    }
}
