//! Makes the steps of a run as a seed draws them.
ghost use Rattle.std.specs.Prelude.{◌≡◌, ◌≢◌, ◌<◌, ◌≤◌, length, IfOk, IfErr};
ghost use Rattle.moves.specs.Runs.{IsActor};
ghost use Rattle.trace_text.specs.Traces.{step_sum};
ghost use Rattle.hunting.specs.Parts.{AreOfActors};
ghost use Rattle.program_runner.specs.Setups.{IsSetupOf, IsSetupFault, HasNoFault};
ghost use Rattle.program_runner.specs.declared.setup_fault.SetupFault.TheVariants as fault;

use crate::lines::add_line;
use crate::scheduler::Scheduler;
use crate::seen::{breaks, look_at, may_break, posts};
use items::Items;
use layout::Program;
use moves::Actor;
use program_runner::SetupFault;
use replay::World;
use std::alloc::{AllocError, Global};
use stepping::MadeStep;
use trace_text::{Setup, Steps};

/// How many stages the collector posts after the last step of the threads: those of two cycles, and one more.
const LAST_STAGES: u32 = 7;

/// The steps that a seed draws.
#[derive(Drop)]
pub(crate) struct DrawnSteps {
    pub lines: Items<Steps>,
    /// Whether a step may have broken the run.
    pub may_break: bool,
}

/// A world whose steps are drawn.
#[derive(Drop)]
struct DrawnWorld<'a> {
    world: World<'a>,
    scheduler: Scheduler,
    /// Whether a step may have broken the run.
    may_break: bool,
    /// How many stages the collector may still post where no thread has a step left. None after a step that breaks the run by itself.
    stages_left: u32,
}

/// A number as an actor: the count of threads means the collector.
fn actor_of(threads: u32, number: u32) -> Actor
    requires { number ≤ threads }
    ensures { IsActor threads result }
{
    if number == threads {
        return Actor::Collector;
    }
    Actor::Thread(number)
}

impl<'a> DrawnWorld<'a> {
    /// A world before its first step, whose steps a seed draws.
    fn new(
        alloc: Global,
        program: &'a Program,
        setup: &'a Setup,
        seed: u32,
    ) -> Result<Self, SetupFault>
        requires setup { IsSetupOf program.now setup.now }
        requires threads { length setup.now.starts ≤ 64 }
        ensures setup { IfOk result (λ drawn. drawn.world.setup ≡ setup.now) }
        ensures no_fault { IfOk result (λ _. HasNoFault program.now setup.now) }
        ensures fault { IfErr result (λ e. e ≢ fault.Memory → IsSetupFault program.now setup.now e) }
    {
        let scheduler = Scheduler::new(alloc, setup.starts.len() as u32, seed)?;
        let world = World::new(alloc, program, setup)?;
        Ok(DrawnWorld {
            world,
            scheduler,
            may_break: false,
            stages_left: LAST_STAGES,
        })
    }

    /// One step of an actor. Says whether another actor comes then.
    fn step(&mut self, actor: Actor) -> Result<bool, AllocError>
        requires { IsActor (length self.old.world.setup.starts) actor }
        ensures { self.new.world.setup ≡ self.old.world.setup }
    {
        let made = self.world.step(actor);
        match &made {
            Ok(made) => Ok(self.ends_turn(made)),
            Err(_refused) => Err(AllocError),
        }
    }

    /// Whether another actor comes after a step that was made. What matters of it is noted.
    fn ends_turn(&mut self, made: &Option<MadeStep>) -> bool
        ensures { self.new.world.setup ≡ self.old.world.setup }
    {
        if may_break(made) {
            self.may_break = true;
        }
        if breaks(made) {
            self.stages_left = 0;
        }
        if posts(made) && self.scheduler.are_threads_over() {
            self.stages_left = self.stages_left.saturating_sub(1);
        }
        let seen = look_at(made, self.world.posted());
        self.scheduler.switches(seen) || self.stages_left == 0
    }

    /// Steps of an actor until another one comes, and at most this many. Says how many they are.
    fn steps(&mut self, actor: Actor, most: u32) -> Result<u32, AllocError>
        requires actor { IsActor (length self.old.world.setup.starts) actor }
        requires some { 0 < most }
        ensures setup { self.new.world.setup ≡ self.old.world.setup }
        ensures some { IfOk result (λ count. 0 < count) }
        ensures few { IfOk result (λ count. count ≤ most) }
    {
        for count in 1..most {
            if self.step(actor)? {
                return Ok(count);
            }
        }
        self.step(actor)?;
        Ok(most)
    }
}

/// The steps that a seed draws from a setup, up to the first that breaks the run by itself, or some cycles after the threads' last one.
pub(crate) fn drawn_steps<'a>(
    alloc: Global,
    program: &'a Program,
    setup: &'a Setup,
    seed: u32,
    steps: u32,
) -> Result<DrawnSteps, SetupFault>
    requires setup { IsSetupOf program.now setup.now }
    requires threads { length setup.now.starts ≤ 64 }
    ensures actors { IfOk result (λ drawn. AreOfActors (length setup.now.starts) drawn.lines) }
    ensures few { IfOk result (λ drawn. step_sum drawn.lines ≤ steps) }
    ensures no_fault { IfOk result (λ _. HasNoFault program.now setup.now) }
    ensures fault { IfErr result (λ e. e ≢ fault.Memory → IsSetupFault program.now setup.now e) }
{
    let threads = setup.starts.len() as u32;
    let mut run = DrawnWorld::new(alloc, program, setup, seed)?;
    let mut lines = Items::new(alloc);
    let mut left = steps;
    while left > 0 && run.stages_left > 0 {
        let actor = actor_of(threads, run.scheduler.next(threads));
        let count = run.steps(actor, left)?;
        add_line(&mut lines, Steps { actor, count })?;
        left -= count;
    }
    let may_break = run.may_break;
    Ok(DrawnSteps { lines, may_break })
}
