ghost use Rattle.std.specs.Prelude.{◌≡◌, List, [], ◌∷◌, length, IfOk, IfErr, OnOk};
ghost use Rattle.layout.specs.Layouts.{LaidOut};
ghost use Rattle.moves.specs.declared.actor.Actor.{Actor as AnActor};
ghost use Rattle.moves.specs.Runs.{IsActor};
ghost use Rattle.program_runner.specs.Setups.{IsSetupOf};
ghost use Rattle.replay.specs.Lists.{actors_of, run_at};
ghost use Rattle.runs.specs.ModuleRuns.{heap_of as events_of};
ghost use Rattle.trace_text.specs.Traces.{IsTraceOf};
ghost use Rattle.trace_text.specs.declared.trace.Setup.{Setup as ASetup};
ghost use Rattle.step_records.specs.Recorded.{IsRecordOf, IsRecordedTo, IsFaultOf};

use crate::record_fault::RecordFault;
use crate::writing::put_made;
use layout::Program;
use moves::Actor;
use program_runner::SetupFault;
use replay::World;
use std::alloc::Global;
use step_log::Upcoming;
use trace_text::{Setup, Trace};

/// A world, and the record of the run that led to it.
#[derive(Drop)]
struct RecordedWorld<'a> {
    world: World<'a>,
    bytes: Vec<u8>,
}

impl<'a> RecordedWorld<'a> {
    /// A world before its first step.
    fn new(alloc: Global, program: &'a Program, setup: &'a Setup) -> Result<Self, RecordFault>
        requires { IsSetupOf program.now setup.now }
        ensures ok { IfOk result (IsRecordedTo program.now setup.now []) }
        ensures fault { IfErr result (IsFaultOf program.now setup.now) }
    {
        let world = World::new(alloc, program, setup)?;
        let bytes = Vec::new(alloc);
        Ok(RecordedWorld { world, bytes })
    }

    /// The actor makes its next step, which is recorded.
    fn step(&mut self, actor: Actor) -> Result<(), RecordFault>
        requires { IsActor (length self.old.world.setup.starts) actor }
        ensures made { (p : LaidOut) (setup : ASetup) (before : List AnActor) → IsRecordedTo p setup before self.old → OnOk result (IsRecordedTo p setup (actor ∷ before) self.new) }
        ensures same { self.new.world.setup ≡ self.old.world.setup }
        ensures fault { (p : LaidOut) (setup : ASetup) → IfErr result (IsFaultOf p setup) }
    {
        let roots = self.world.roots_to_name(actor)?;
        match self.world.step(actor) {
            Ok(made) => put_made(&mut self.bytes, &made, roots.as_slice()),
            Err(_refused) => Err(RecordFault::Setup(SetupFault::Memory)),
        }
    }
}

/// The record of the first steps of a trace, this number of them or all.
pub fn record_run(
    alloc: Global,
    program: &Program,
    trace: &Trace,
    steps: u64,
) -> Result<Vec<u8>, RecordFault>
    requires { IsTraceOf program.now trace.now }
    ensures ok { IfOk result (λ bytes. IsRecordOf (events_of (run_at program.now trace.now.setup (actors_of trace.now.steps) steps)) bytes.items) }
    ensures fault { IfErr result (IsFaultOf program.now trace.now.setup) }
{
    let mut recorded = RecordedWorld::new(alloc, program, &trace.setup)?;
    let mut upcoming = Upcoming::new(trace.steps.as_slice());
    for _step in 0..steps {
        let Some(actor) = upcoming.next() else {
            return Ok(recorded.bytes);
        };
        recorded.step(actor)?;
    }
    Ok(recorded.bytes)
}
