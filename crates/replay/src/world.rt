ghost use Rattle.std.specs.Prelude.{◌≡◌, ◌≢◌, ◌<◌, Option, None, Some, List, [], ◌∷◌, length, slice_get, unwrap_or, IfOk, IfErr, OnErr};
ghost use Rattle.moves.specs.Runs.{IsActor};
ghost use Rattle.certs.specs.declared.section.Section.{Section};
ghost use Rattle.moves.specs.declared.actor.Actor.{Actor as AnActor};
ghost use Rattle.program_runner.specs.Setups.{IsSetupOf, IsSetupFault, HasNoFault, IsCertifiedSetup};
ghost use Rattle.replay.specs.Worlds.{IsAfter, ended_by, IsStepAfter, IsBrokenWorld, IsCoveredWorld, IsOverIn, IsFirstGoneOf};
ghost use Rattle.replay.specs.Keeping.{ending_after, ending_to_keep, end_told};
ghost use Rattle.replay.specs.ThreadEnds.{AreEndsOf};
ghost use Rattle.replay.specs.Named.{IsToldWith, AreNamedBy};
ghost use Rattle.stepping.specs.declared.happening.MadeStep.{MadeStep as AMadeStep};
ghost use Rattle.program_runner.specs.declared.setup_fault.SetupFault.TheVariants as fault;
ghost use Rattle.replay.specs.declared.thread_outcome.ThreadOutcome.TheVariants as end;

use crate::thread_outcome::ThreadOutcome;
use items::Items;
use layout::Program;
use machine::{Ending, Thread};
use moves::{Actor, CallPhase, Runner, ThreadState, WordValue};
use program_runner::{
    ProgramThread, SetupFault, begun_law, begun_threads, program_law, values_at_start,
};
use std::alloc::{AllocError, Global};
use std::marker::Model;
use stepping::{Actors, Cover, Gone, HeapSchema, MadeStep};
use trace_text::Setup;

/// The threads of a program and the collector, after some steps from their setup.
#[derive(Drop)]
pub struct World<'a> {
    alloc: Global,
    program: &'a Program,
    setup: &'a Setup,
    actors: Actors<'a, ProgramThread<'a>>,
    /// How each thread that has ended did so.
    endings: Items<ThreadOutcome>,
}

impl<'a> Model for World<'a> {
    ghost use Rattle.replay.specs.Worlds.{World};

    ghost Value = { World };

    ghost use Rattle.replay.specs.WorldView.{world_seen, IsKept};

    ghost view = { world_seen };

    ghost invariant = { IsKept };
}

impl<'a> World<'a> {
    /// A world before its first step.
    pub fn new(alloc: Global, program: &'a Program, setup: &'a Setup) -> Result<Self, SetupFault>
        requires { IsSetupOf program.now setup.now }
        ensures ok { IfOk result (λ world. (world.program ≡ program.now) × (world.setup ≡ setup.now) × IsAfter world []) }
        ensures no_fault { IfOk result (λ _. HasNoFault program.now setup.now) }
        ensures fault { IfErr result (λ e. e ≢ fault.Memory → IsSetupFault program.now setup.now e) }
    {
        begun_law();
        let globals = program.globals();
        if u32::try_from(globals.len()).is_err() {
            return Err(SetupFault::Memory);
        }
        let endings = no_endings(alloc, setup.starts.len())?;
        let threads = begun_threads(alloc, program, setup)?;
        let values = values_at_start(alloc, program.module())?;
        let schema = HeapSchema {
            pools: &setup.pools,
            layouts: program.layouts(),
            globals,
        };
        let actors = Actors::new(alloc, schema, values.as_slice(), threads)?;
        Ok(World {
            alloc,
            program,
            setup,
            actors,
            endings,
        })
    }

    /// The actor makes its one next step, if it has one. Without memory nothing changes.
    pub fn step(&mut self, actor: Actor) -> Result<Option<MadeStep>, AllocError>
        requires { IsActor (length self.old.setup.starts) actor }
        // The step is the actor's one next step after the run that led here, and the world is the end of the longer run.
        ensures ok { (before : List AnActor) → IsAfter self.old before → IfOk result (λ made. IsStepAfter self.old before actor made × IsAfter self.new (actor ∷ before)) }
        ensures same { (self.new.program ≡ self.old.program) × (self.new.setup ≡ self.old.setup) }
        ensures err { OnErr result (self.new ≡ self.old) }
        // Where the program is certified with some certificates, and the threads began with what these promise, the world after the step is not broken.
        ensures safe { (certs : List Section) (before : List AnActor) → IsCertifiedSetup self.old.program self.old.setup certs → IsAfter self.old before
            → IfOk result (λ _. ¬ IsBrokenWorld self.new (actor ∷ before)) }
    {
        program_law();
        let ending = ending_to_keep(&self.actors, self.endings.as_slice(), actor);
        let made = self.actors.step(actor);
        if made.is_err() {
            return made;
        }
        if let Actor::Thread(thread) = actor {
            self.endings.set(thread as usize, ending);
        }
        made
    }

    /// The first thing that is gone and can be reached, after a step before which nothing was. If there is none, the cover is
    /// one after the step.
    pub fn first_gone(&self, cover: &mut Cover, step: &MadeStep) -> Result<Option<Gone>, AllocError>
        requires { IsOverIn self.now cover.old }
        ensures gone { (before : List AnActor) (actor : AnActor) → IsAfter self.now (actor ∷ before) → IsStepAfter self.now before actor (Some step.now) → IsCoveredWorld self.now before cover.old
            → IfOk result (IsFirstGoneOf self.now (actor ∷ before)) }
        ensures cover { (before : List AnActor) (actor : AnActor) → IsAfter self.now (actor ∷ before) → IsStepAfter self.now before actor (Some step.now) → IsCoveredWorld self.now before cover.old
            → IfOk result (λ gone. gone ≡ None → IsCoveredWorld self.now (actor ∷ before) cover.new) }
    {
        self.actors.first_gone(self.alloc, cover, step)
    }

    /// The stage that was posted last.
    pub fn posted(&self) -> u64
        ensures { result ≡ self.now.shared.posted }
    {
        self.actors.posted()
    }

    /// The thread with this number, if there is one, with its frames.
    pub fn thread(&self, number: u32) -> Option<&Thread<'a>> {
        match self.actors.thread(number as usize) {
            Some(thread_state) => Some(thread_state.state.thread()),
            None => None,
        }
    }

    /// The roots that the actor names where its next step is an answer to a stage.
    pub fn roots_to_name(&self, actor: Actor) -> Result<Vec<WordValue>, AllocError>
        requires { IsActor (length self.now.setup.starts) actor }
        ensures { (before : List AnActor) (made : Option AMadeStep) → IsAfter self.now before → IsStepAfter self.now before actor made
            → IfOk result (λ roots. IsToldWith self.now before actor roots.items made) }
    {
        match actor {
            Actor::Thread(thread) => roots_named(&self.actors, thread as usize, self.alloc),
            Actor::Collector => Ok(Vec::new(self.alloc)),
        }
    }

    /// Where each thread is.
    pub fn ends(&self) -> Result<Items<ThreadOutcome>, AllocError>
        ensures { (before : List AnActor) → IsAfter self.now before → IfOk result (AreEndsOf self.now before) }
    {
        let mut ends = Items::new(self.alloc);
        for thread in 0..self.actors.threads() {
            ends.push(end_told(&self.actors, self.endings.as_slice(), thread))?;
        }
        Ok(ends)
    }
}

/// The roots of a thread that answers a stage.
fn roots_named(
    actors: &Actors<'_, ProgramThread<'_>>,
    thread: usize,
    alloc: Global,
) -> Result<Vec<WordValue>, AllocError>
    ensures { IfOk result (λ roots. AreNamedBy (slice_get actors.now.threads.items thread) roots.items) }
{
    match actors.thread(thread) {
        Some(thread_state) => match thread_state.call_phase {
            CallPhase::Answering { .. } => thread_state.state.root_references(),
            _ => Ok(Vec::new(alloc)),
        },
        None => Ok(Vec::new(alloc)),
    }
}

/// What is kept of this number of threads before their first steps: that none has returned.
fn no_endings(alloc: Global, threads: usize) -> Result<Items<ThreadOutcome>, AllocError>
    ensures { IfOk result (λ endings. length endings ≡ threads) }
{
    let mut endings = Items::new(alloc);
    for thread in 0..threads {
        let end = kept_end(endings.as_slice(), thread);
        endings.push(end)?;
    }
    Ok(endings)
}

/// What is kept of how a thread ended; of one of which nothing is kept, that it has not returned.
fn kept_end(endings: &[ThreadOutcome], thread: usize) -> ThreadOutcome
    ensures { result ≡ unwrap_or (slice_get endings.now thread) end.Ended }
{
    endings.get(thread).copied().unwrap_or(ThreadOutcome::Ended)
}

/// The end of a thread that ended so.
fn ended_by(ending: &Ending) -> ThreadOutcome
    ensures { result ≡ ended_by ending.now }
{
    match ending {
        Ending::Returned(result) => ThreadOutcome::Returned(*result),
        Ending::Over => ThreadOutcome::Ended,
    }
}

/// How a thread has ended, if its next step is its last one.
fn ending_after(
    actors: &Actors<'_, ProgramThread<'_>>,
    endings: &[ThreadOutcome],
    thread: usize,
) -> ThreadOutcome
    ensures { result ≡ ending_after (slice_get actors.now.threads.items thread) (slice_get endings.now thread) }
{
    match actors.thread(thread) {
        None
        | Some(
            ThreadState {
                call_phase: CallPhase::Ended,
                ..
            },
        ) => kept_end(endings, thread),
        Some(thread_state) => ended_by(&thread_state.state.ending()),
    }
}

/// How an actor ends, if its next step is its last one. The collector ends no thread.
fn ending_to_keep(
    actors: &Actors<'_, ProgramThread<'_>>,
    endings: &[ThreadOutcome],
    actor: Actor,
) -> ThreadOutcome
    ensures { result ≡ ending_to_keep actor actors.now.threads.items endings.now }
{
    match actor {
        Actor::Thread(thread) => ending_after(actors, endings, thread as usize),
        Actor::Collector => ThreadOutcome::Ended,
    }
}

/// Where a thread is, and how it ended if it has.
fn end_told(
    actors: &Actors<'_, ProgramThread<'_>>,
    endings: &[ThreadOutcome],
    thread: usize,
) -> ThreadOutcome
    ensures { result ≡ end_told (slice_get actors.now.threads.items thread) (slice_get endings.now thread) }
{
    match actors.thread(thread) {
        Some(thread_state) => match thread_state.call_phase {
            CallPhase::Ended => kept_end(endings, thread),
            CallPhase::Absent
            | CallPhase::Arriving { .. }
            | CallPhase::Entering
            | CallPhase::Leaving => { ThreadOutcome::Absent }
            _ => ThreadOutcome::Running(thread_state.stage),
        },
        None => ThreadOutcome::Ended,
    }
}
