ghost use Rattle.std.specs.Prelude.{ℕ, ◌≡◌, ◌<◌, ◌^◌, None, Some, List, [], ◌∷◌, length, map, slice_get, All, IfOk, IfSome, OnErr};
ghost use Rattle.std.specs.Option.{option_copied};
ghost use Rattle.pools.specs.Heap.{Setup, IsSetup, cells_in};
ghost use Rattle.runs.specs.Machine.{machine_of};
ghost use Rattle.moves.specs.declared.actor.Actor.{Actor as AnActor};
ghost use Rattle.moves.specs.declared.actor.Actor.TheVariants as actor;
ghost use Rattle.moves.specs.Runs.{run_by, IsActor};
ghost use Rattle.stepping.specs.Reach.{IsSchemaOf, IsFirstGone};
ghost use Rattle.stepping.specs.Covers.{IsOver, IsCoverAfter, IsCovered};
ghost use Rattle.stepping.specs.Ends.{AreAfterSteps, IsStep, IsOneStep};

use crate::beginning::{NewThread, shared_at_start, stands_at_start};
use crate::cover::{Cover, after_turn, stored_by, walked_on};
use crate::gone::{Gone, HeapSchema};
use crate::growth_laws::growth_law;
use crate::happening::{Happening, MadeStep};
use crate::laws::loss_law;
use crate::loss::{loss_of_move, loss_of_turn};
use crate::roots::{new_roots, roots_under_way};
use crate::walk::{Walk, walk_from};
use moves::{Actor, Runner, Shared, ThreadState, broken_by, go_on, next_move};
use std::alloc::{AllocError, Global};
use trace_sweep::Collector;

/// Threads of a machine and the collector over one heap, between two steps.
#[derive(Drop)]
pub struct Actors<'a, M> {
    schema: HeapSchema<'a>,
    threads: Vec<ThreadState<M>>,
    shared: Shared,
    collector: Collector<'a>,
}

impl<'a, M: Runner + Drop> Actors<'a, M> {
    /// The actors before their first step. The globals hold these values.
    pub fn new(
        alloc: Global,
        schema: HeapSchema<'a>,
        values: &[u64],
        threads: Vec<NewThread<M>>,
    ) -> Result<Self, AllocError>
        requires globals { length schema.globals.now < 2 ^ 32 }
        requires words { All (λ words. length words < 2 ^ 32) schema.layouts.now }
        requires pools { length schema.pools.now ≡ length schema.layouts.now }
        ensures { (s : Setup) (starts : ℕ → M) → IsSchemaOf s schema.entry → IsSetup s → s.late ≡ map (λ (thread : NewThread M). thread.is_late) threads.items → s.threads ≡ length threads.items → s.values ≡ values.now
            → ((t : ℕ) (thread : NewThread M) → slice_get threads.items t ≡ Some thread → (starts t ≡ thread.machine) × M.fits s thread.machine)
            → IfOk result (AreAfterSteps s (machine_of M.action M.after_answer M.roots) (M.fits s) starts []) }
    {
        let shared = shared_at_start(alloc, schema, values, threads.as_slice())?;
        let collector = Collector::new(schema.pools, schema.layouts, schema.globals, threads.len());
        let threads = stands_at_start(alloc, schema.layouts.count(), threads)?;
        Ok(Actors {
            schema,
            threads,
            shared,
            collector,
        })
    }

    /// How many threads there are.
    pub fn threads(&self) -> usize
        ensures { result ≡ length self.now.threads.items }
    {
        self.threads.len()
    }

    /// A thread.
    pub fn thread(&self, thread: usize) -> Option<&ThreadState<M>>
        ensures { option_copied result ≡ slice_get self.now.threads.items thread }
    {
        self.threads.get(thread)
    }

    /// The stage that was posted last.
    pub fn posted(&self) -> u64
        ensures { result ≡ self.now.shared.posted }
    {
        self.shared.posted
    }

    /// The actor makes its one next step, if it has one. Without memory nothing changes.
    pub fn step(&mut self, actor: Actor) -> Result<Option<MadeStep>, AllocError>
        requires { (s : Setup) × (starts : ℕ → M) × (before : List AnActor) × AreAfterSteps s (machine_of M.action M.after_answer M.roots) (M.fits s) starts before self.old × IsActor s.threads actor }
        ensures ok { (s : Setup) (starts : ℕ → M) (before : List AnActor) → AreAfterSteps s (machine_of M.action M.after_answer M.roots) (M.fits s) starts before self.old
            → IsActor s.threads actor
            → IfOk result (λ made. IsOneStep s (machine_of M.action M.after_answer M.roots) (M.fits s) starts before actor made self.new) }
        ensures err { OnErr result (self.new ≡ self.old) }
    {
        match actor {
            Actor::Collector => Ok(self.step_of_collector()),
            Actor::Thread(thread) => self.step_of_thread(thread),
        }
    }

    /// The collector makes its next step; none at the limit of the cycles.
    fn step_of_collector(&mut self) -> Option<MadeStep>
        requires { (s : Setup) × (starts : ℕ → M) × (before : List AnActor) × AreAfterSteps s (machine_of M.action M.after_answer M.roots) (M.fits s) starts before self.old }
        ensures { (s : Setup) (starts : ℕ → M) (before : List AnActor) → AreAfterSteps s (machine_of M.action M.after_answer M.roots) (M.fits s) starts before self.old
            → IsOneStep s (machine_of M.action M.after_answer M.roots) (M.fits s) starts before actor.Collector result self.new }
    {
        growth_law::<M>();
        loss_law::<M>();
        let motion = self.collector.next(&self.shared)?;
        let loss = loss_of_turn(motion.turn);
        if let Some(number) = motion.stored {
            self.shared.put(motion.place, number);
        }
        Some(MadeStep {
            happening: Happening::Collector(motion.turn),
            broke: None,
            loss,
        })
    }

    /// The thread makes its next step; none where it has ended. Without memory nothing changes.
    fn step_of_thread(&mut self, thread: u32) -> Result<Option<MadeStep>, AllocError>
        requires { (s : Setup) × (starts : ℕ → M) × (before : List AnActor) × AreAfterSteps s (machine_of M.action M.after_answer M.roots) (M.fits s) starts before self.old × (thread < s.threads) }
        ensures ok { (s : Setup) (starts : ℕ → M) (before : List AnActor) → AreAfterSteps s (machine_of M.action M.after_answer M.roots) (M.fits s) starts before self.old
            → thread < s.threads
            → IfOk result (λ made. IsOneStep s (machine_of M.action M.after_answer M.roots) (M.fits s) starts before (actor.Thread thread) made self.new) }
        ensures err { OnErr result (self.new ≡ self.old) }
    {
        growth_law::<M>();
        loss_law::<M>();
        let index = thread as usize;
        let thread_state = &self.threads[index];
        let Some(made) = next_move(&self.shared, self.schema.pools, thread_state)? else {
            return Ok(None);
        };
        let broke = broken_by(&self.shared, &made);
        let stage = thread_state.stage;
        let roots_after = go_on(self.schema.pools, &mut self.threads[index], &made)?;
        let loss = loss_of_move(&made, roots_after);
        self.shared.apply(index, stage, &made);
        Ok(Some(MadeStep {
            happening: Happening::Thread(thread, made),
            broke,
            loss,
        }))
    }

    /// The first thing that is gone and can be reached, after a step before which nothing was. If there is none, the cover's cells
    /// are known after the step.
    pub fn first_gone(
        &self,
        alloc: Global,
        cover: &mut Cover,
        step: &MadeStep,
    ) -> Result<Option<Gone>, AllocError>
        requires { IfSome cover.old.walk (IsOver (cells_in self.now.schema.pools.now)) }
        ensures gone { (s : Setup) (starts : ℕ → M) (before : List AnActor) (actor : AnActor) → AreAfterSteps s (machine_of M.action M.after_answer M.roots) (M.fits s) starts (actor ∷ before) self.now
            → IsStep s (machine_of M.action M.after_answer M.roots) starts (run_by s (machine_of M.action M.after_answer M.roots) starts before) actor step.now
            → IsCovered s (machine_of M.action M.after_answer M.roots) starts (run_by s (machine_of M.action M.after_answer M.roots) starts before) cover.old
            → IfOk result (IsFirstGone s (machine_of M.action M.after_answer M.roots) starts (run_by s (machine_of M.action M.after_answer M.roots) starts (actor ∷ before))) }
        ensures cover { (s : Setup) (starts : ℕ → M) (before : List AnActor) (actor : AnActor) → AreAfterSteps s (machine_of M.action M.after_answer M.roots) (M.fits s) starts (actor ∷ before) self.now
            → IsStep s (machine_of M.action M.after_answer M.roots) starts (run_by s (machine_of M.action M.after_answer M.roots) starts before) actor step.now
            → IsCovered s (machine_of M.action M.after_answer M.roots) starts (run_by s (machine_of M.action M.after_answer M.roots) starts before) cover.old
            → IfOk result (λ gone. gone ≡ None → IsCovered s (machine_of M.action M.after_answer M.roots) starts (run_by s (machine_of M.action M.after_answer M.roots) starts (actor ∷ before)) cover.new) }
    {
        let Some(walk) = cover.walk.take() else {
            return self.gone_anew(alloc, cover);
        };
        match self.kept(alloc, walk, step)? {
            None => self.gone_anew(alloc, cover),
            Some(kept) => {
                cover.walk = Some(kept);
                Ok(None)
            }
        }
    }

    /// The first thing that is gone, by all that can be reached. If there is none, the cover's cells are known.
    fn gone_anew(&self, alloc: Global, cover: &mut Cover) -> Result<Option<Gone>, AllocError>
        ensures gone { (s : Setup) (starts : ℕ → M) (actors : List AnActor) → AreAfterSteps s (machine_of M.action M.after_answer M.roots) (M.fits s) starts actors self.now
            → IfOk result (IsFirstGone s (machine_of M.action M.after_answer M.roots) starts (run_by s (machine_of M.action M.after_answer M.roots) starts actors)) }
        ensures cover { (s : Setup) (starts : ℕ → M) (actors : List AnActor) → AreAfterSteps s (machine_of M.action M.after_answer M.roots) (M.fits s) starts actors self.now
            → IfOk result (λ gone. gone ≡ None → IsCovered s (machine_of M.action M.after_answer M.roots) starts (run_by s (machine_of M.action M.after_answer M.roots) starts actors) cover.new) }
    {
        let roots = roots_under_way(alloc, self.threads.as_slice())?;
        let walk = walk_from(alloc, self.schema, &self.shared, roots.as_slice())?;
        match (walk.blue, walk.reborn) {
            (None, None) => {
                cover.walk = Some(walk);
                Ok(None)
            }
            (None, Some(cell)) => Ok(Some(Gone::Reborn(cell))),
            (Some(cell), _) => Ok(Some(Gone::Blue(cell))),
        }
    }

    /// The walk after a step, where all that can be reached is among its cells, and none of it is gone.
    fn kept(&self, alloc: Global, walk: Walk, step: &MadeStep) -> Result<Option<Walk>, AllocError>
        requires { IsOver (cells_in self.now.schema.pools.now) walk }
        ensures { (s : Setup) (starts : ℕ → M) (before : List AnActor) (actor : AnActor) → AreAfterSteps s (machine_of M.action M.after_answer M.roots) (M.fits s) starts (actor ∷ before) self.now
            → IsStep s (machine_of M.action M.after_answer M.roots) starts (run_by s (machine_of M.action M.after_answer M.roots) starts before) actor step.now
            → IsCoverAfter s (machine_of M.action M.after_answer M.roots) starts (run_by s (machine_of M.action M.after_answer M.roots) starts before) walk
            → IfOk result (λ kept. IfSome kept (IsCoverAfter s (machine_of M.action M.after_answer M.roots) starts (run_by s (machine_of M.action M.after_answer M.roots) starts (actor ∷ before)))) }
    {
        match &step.happening {
            Happening::Collector(turn) => Ok(after_turn(walk, *turn)),
            Happening::Thread(thread, made) => {
                let Some(thread_state) = self.thread(*thread as usize) else {
                    return Ok(None);
                };
                let roots = new_roots(alloc, thread_state, made)?;
                let stored = stored_by(self.schema, made);
                walked_on(walk, self.schema, &self.shared, stored, roots.as_slice())
            }
        }
    }
}
