ghost use Rattle.std.specs.Prelude.{◌≡◌, ◌≢◌, ◌+◌, ◌-◌, ◌^◌, min, List, [], ◌∷◌, ◌++◌, length, reverse, take, drop, IfOk, IfErr, OnOk};
ghost use Rattle.moves.specs.Runs.{IsActor, AreActors};
ghost use Rattle.layout.specs.Layouts.{LaidOut};
ghost use Rattle.moves.specs.declared.actor.Actor.{Actor as AnActor};
ghost use Rattle.trace_text.specs.declared.trace.Setup.{Setup as ASetup};
ghost use Rattle.program_runner.specs.Setups.{IsSetupOf, IsSetupFault};
ghost use Rattle.program_runner.specs.declared.setup_fault.SetupFault.TheVariants as fault;
ghost use Rattle.step_log.specs.Recorded.{IsRecorded};
ghost use Rattle.step_log.specs.Steps.{happening_of};
ghost use Rattle.step_log.specs.Upcoming.{actors_in};

use crate::frame_notes::FrameNotes;
use crate::from_outside::FromOutside;
use crate::log::LogStep;
use crate::upcoming::Upcoming;
use items::Items;
use layout::Program;
use machine::FramePlace;
use moves::Actor;
use program_runner::SetupFault;
use replay::World;
use std::alloc::{AllocError, Global};
use stepping::{Happening, MadeStep};
use trace_text::Setup;

/// A world, and what was logged of the steps that led to it.
#[derive(Drop)]
pub struct Recorder<'a> {
    alloc: Global,
    world: World<'a>,
    /// How many steps come before those that are logged.
    pub before: usize,
    pub steps: Items<LogStep>,
    pub notes: FrameNotes,
    numbers: FromOutside<'a>,
}

/// Where an actor stands, if it is a thread under way.
fn place_of(world: &World<'_>, actor: Actor) -> Option<FramePlace> {
    match actor {
        Actor::Collector => None,
        Actor::Thread(number) => match world.thread(number) {
            Some(thread) if thread.frames() > 0 => Some(thread.frame_place(0)),
            _ => None,
        },
    }
}

/// What a step did, if the actor made one.
fn happening_of(made: &Option<MadeStep>) -> Option<Happening>
    ensures { result ≡ happening_of made.now }
{
    match made {
        Some(made) => Some(made.happening),
        None => None,
    }
}

/// Notes what has changed of the actor's frames.
fn note(
    world: &World<'_>,
    actor: Actor,
    steps: usize,
    notes: &mut FrameNotes,
) -> Result<(), AllocError> {
    match actor {
        Actor::Collector => Ok(()),
        Actor::Thread(number) => match world.thread(number) {
            Some(thread) => notes.look(steps, number, thread),
            None => Ok(()),
        },
    }
}

/// What there is to note of the frames of threads before the first step.
fn first_notes(alloc: Global, world: &World<'_>, threads: u32) -> Result<FrameNotes, AllocError> {
    let mut notes = FrameNotes::new(alloc, threads as usize)?;
    for number in 0..threads {
        note(world, Actor::Thread(number), 0, &mut notes)?;
    }
    Ok(notes)
}

impl<'a> Recorder<'a> {
    /// A world before its first step.
    pub fn new(alloc: Global, program: &'a Program, setup: &'a Setup) -> Result<Self, SetupFault>
        requires { IsSetupOf program.now setup.now }
        ensures ok { IfOk result (IsRecorded program.now setup.now [] []) }
        ensures before { IfOk result (λ recorder. recorder.before ≡ 0) }
        ensures fault { IfErr result (λ e. e ≢ fault.Memory → IsSetupFault program.now setup.now e) }
    {
        let numbers = FromOutside::new(alloc, program, setup)?;
        let world = World::new(alloc, program, setup)?;
        match first_notes(alloc, &world, setup.starts.len() as u32) {
            Ok(notes) => {
                let steps = Items::new(alloc);
                Ok(Recorder {
                    alloc,
                    world,
                    before: 0,
                    steps,
                    notes,
                    numbers,
                })
            }
            Err(refused) => {
                drop(world);
                Err(SetupFault::from(refused))
            }
        }
    }

    /// The actor makes its next step, which is logged.
    fn step(&mut self, actor: Actor) -> Result<(), AllocError>
        requires { IsActor (length self.old.world.setup.starts) actor }
        ensures made { (p : LaidOut) (setup : ASetup) (first before : List AnActor) → IsRecorded p setup first before self.old
            → OnOk result (IsRecorded p setup first (actor ∷ before) self.new) }
        ensures same { self.new.world.setup ≡ self.old.world.setup }
        ensures before { self.new.before ≡ self.old.before }
    {
        let place = place_of(&self.world, actor);
        let asked = self.numbers.asked(&self.world, actor);
        let notes = self.notes.len();
        let made = self.world.step(actor)?;
        let from_outside = self.numbers.take(asked, &made);
        self.steps.push(LogStep {
            actor,
            place,
            happening: happening_of(&made),
            from_outside,
            notes,
        })?;
        let steps = self.before.saturating_add(self.steps.len());
        note(&self.world, actor, steps, &mut self.notes)?;
        Ok(())
    }

    /// Logs the next steps, this number of them or all that are left.
    pub fn record(&mut self, upcoming: &mut Upcoming<'_>, count: usize) -> Result<(), AllocError>
        requires { AreActors (length self.old.world.setup.starts) (actors_in upcoming.old) }
        ensures are_actors { AreActors (length self.new.world.setup.starts) (actors_in upcoming.new) }
        ensures left { OnOk result (actors_in upcoming.new ≡ drop count (actors_in upcoming.old)) }
        ensures made { (p : LaidOut) (setup : ASetup) (first : List AnActor) → IsRecorded p setup first first self.old
            → OnOk result (IsRecorded p setup first (reverse (take count (actors_in upcoming.old)) ++ first) self.new) }
        ensures before { self.new.before ≡ self.old.before }
    {
        for _step in 0..count {
            let Some(actor) = upcoming.next() else {
                return Ok(());
            };
            self.step(actor)?;
        }
        Ok(())
    }

    /// Forgets the steps that are logged, and what was noted of frames that are over.
    pub fn forget(&mut self) -> Result<(), AllocError>
        ensures world { self.new.world ≡ self.old.world }
        ensures before { self.new.before ≡ min (self.old.before + length self.old.steps) (2 ^ 64 - 1) }
        ensures steps { self.new.steps ≡ [] }
    {
        self.before = self.before.saturating_add(self.steps.len());
        self.steps.clear();
        self.notes.forget(self.alloc)
    }
}
