ghost use Rattle.std.specs.Prelude.{◌≡◌, ◌≢◌, ◌<◌, ◌+◌, ◌^◌, cond, None, List, [], ◌∷◌, length, replicate, IfOk, IfErr};
ghost use Rattle.moves.specs.Runs.{IsActor};
ghost use Rattle.layout.specs.Layouts.{LaidOut};
ghost use Rattle.trace_text.specs.declared.trace.Setup.{Setup as ASetup};
ghost use Rattle.moves.specs.declared.actor.Actor.{Actor as AnActor};
ghost use Rattle.program_runner.specs.Setups.{IsSetupOf, IsSetupFault, HasNoFault};
ghost use Rattle.replay.specs.Worlds.{IsAfter, IsStepAfter, IsBrokenWorld, IsCoveredWorld, IsOverIn};
ghost use Rattle.program_runner.specs.declared.setup_fault.SetupFault.TheVariants as fault;
ghost use Rattle.replay.specs.Outcomes.{Reports};
ghost use Rattle.replay.specs.Watched.{IsWatched, IsWatchedOn, HasRoomFor, IsStepped, IsCauseAfter, claims_cell, frees_cell};

use crate::outcome::{Break, BreakCause, Report};
use crate::world::World;
use colours::Turn;
use layout::Program;
use moves::{Actor, Move};
use program_runner::{ProgramThread, SetupFault};
use std::alloc::{AllocError, Global};
use stepping::{Cover, Happening, Loss, MadeStep, cover_law};
use trace_text::Setup;

/// A world whose run was never broken so far, with what was counted on the way.
#[derive(Drop)]
pub struct Watch<'a> {
    world: World<'a>,
    /// Cells that hold all that can be reached, where they are known.
    cover: Cover,
    steps: u64,
    claims: u64,
    frees: u64,
}

impl<'a> Watch<'a> {
    /// A world before its first step.
    pub fn new(alloc: Global, program: &'a Program, setup: &'a Setup) -> Result<Self, SetupFault>
        requires { IsSetupOf program.now setup.now }
        ensures ok { IfOk result (IsWatched program.now setup.now []) }
        ensures no_fault { IfOk result (λ _. HasNoFault program.now setup.now) }
        ensures fault { IfErr result (λ e. e ≢ fault.Memory → IsSetupFault program.now setup.now e) }
    {
        Ok(Watch {
            world: World::new(alloc, program, setup)?,
            cover: Cover::unknown(),
            steps: 0,
            claims: 0,
            frees: 0,
        })
    }

    /// One step of an actor: how it breaks the run, if it does. The run goes on otherwise.
    pub fn step(&mut self, actor: Actor) -> Result<Option<Break>, AllocError>
        requires actor { IsActor (length self.old.world.setup.starts) actor }
        requires room { HasRoomFor 1 self.old }
        ensures { (p : LaidOut) (setup : ASetup) (before : List AnActor) → IsWatched p setup before self.old
            → IfOk result (IsWatchedOn p setup before (actor ∷ []) self.new) }
    {
        let made = self.world.step(actor);
        match &made {
            Ok(made) => self.told(actor, made),
            Err(_refused) => Err(AllocError),
        }
    }

    /// Makes `count` steps of one actor, or those up to the first that breaks the run.
    pub fn steps(&mut self, actor: Actor, count: u32) -> Result<Option<Break>, AllocError>
        requires actor { IsActor (length self.old.world.setup.starts) actor }
        requires room { HasRoomFor count self.old }
        ensures { (p : LaidOut) (setup : ASetup) (before : List AnActor) → IsWatched p setup before self.old
            → IfOk result (IsWatchedOn p setup before (replicate count actor) self.new) }
    {
        for _step in 0..count {
            if let Some(broken) = self.step(actor)? {
                return Ok(Some(broken));
            }
        }
        Ok(None)
    }

    /// Where the actors are.
    pub fn report(&self) -> Result<Report, AllocError>
        ensures { (p : LaidOut) (setup : ASetup) (before : List AnActor) → IsWatched p setup before self.now
            → IfOk result (Reports p setup before) }
    {
        Ok(Report {
            threads: self.world.ends()?,
            steps: self.steps,
            claims: self.claims,
            frees: self.frees,
            posted: self.world.posted(),
        })
    }

    /// What the step that the world has made tells: how it breaks the run, if it does. It is counted.
    fn told(&mut self, actor: Actor, made: &Option<MadeStep>) -> Result<Option<Break>, AllocError>
        requires room { (self.old.steps < 2 ^ 63) × (self.old.claims < 2 ^ 63) × (self.old.frees < 2 ^ 63) }
        requires cover { IsOverIn self.old.world self.old.cover }
        ensures { (p : LaidOut) (setup : ASetup) (before : List AnActor) → IsStepped p setup before actor made.now self.old
            → IfOk result (IsWatchedOn p setup before (actor ∷ []) self.new) }
    {
        self.count(made);
        match cause_after(&self.world, &mut self.cover, made)? {
            None => Ok(None),
            Some(cause) => Ok(Some(Break {
                step: self.steps,
                actor,
                cause,
            })),
        }
    }

    /// One step more.
    fn count(&mut self, made: &Option<MadeStep>)
        requires room { (self.old.steps < 2 ^ 63) × (self.old.claims < 2 ^ 63) × (self.old.frees < 2 ^ 63) }
        ensures world { self.new.world ≡ self.old.world }
        ensures cover { self.new.cover ≡ self.old.cover }
        ensures steps { self.new.steps ≡ self.old.steps + 1 }
        ensures claims { self.new.claims ≡ self.old.claims + cond (claims_cell made.now) 1 0 }
        ensures frees { self.new.frees ≡ self.old.frees + cond (frees_cell made.now) 1 0 }
    {
        self.steps += 1;
        if claims_cell(made) {
            self.claims += 1;
        }
        if frees_cell(made) {
            self.frees += 1;
        }
    }
}

/// Whether a step claims a cell.
fn claims_cell(made: &Option<MadeStep>) -> bool
    ensures { result ≡ claims_cell made.now }
{
    match made {
        Some(
            MadeStep {
                happening: Happening::Thread(_, Move::Claims { won, .. }),
                ..
            },
        ) => *won,
        _ => false,
    }
}

/// Whether it frees one.
fn frees_cell(made: &Option<MadeStep>) -> bool
    ensures { result ≡ frees_cell made.now }
{
    matches!(
        made,
        Some(MadeStep {
            happening: Happening::Collector(Turn::Free(_)),
            ..
        })
    )
}

/// The first cause by which the run is broken after a step, if it is, where it was not broken before it. If there is none, the
/// cover is one after the step.
fn cause_after(
    world: &World<'_>,
    cover: &mut Cover,
    made: &Option<MadeStep>,
) -> Result<Option<BreakCause>, AllocError>
    requires { IsOverIn world.now cover.old }
    ensures cause { (before : List AnActor) (actor : AnActor) → IsAfter world.now (actor ∷ before)
        → IsStepAfter world.now before actor made.now → IsCoveredWorld world.now before cover.old → ¬ IsBrokenWorld world.now before
        → IfOk result (IsCauseAfter world.now.program world.now.setup (actor ∷ before)) }
    ensures cover { (before : List AnActor) (actor : AnActor) → IsAfter world.now (actor ∷ before)
        → IsStepAfter world.now before actor made.now → IsCoveredWorld world.now before cover.old
        → IfOk result (λ cause. cause ≡ None → IsCoveredWorld world.now (actor ∷ before) cover.new) }
{
    cover_law::<ProgramThread<'_>>();
    let Some(step) = made else {
        return Ok(None);
    };
    if let Some(cause) = step.broke {
        return Ok(Some(BreakCause::OfStep(cause)));
    }
    if let Loss::Nothing = step.loss {
        return Ok(None);
    }
    match world.first_gone(cover, step)? {
        None => Ok(None),
        Some(gone) => Ok(Some(BreakCause::OfReach(gone))),
    }
}
