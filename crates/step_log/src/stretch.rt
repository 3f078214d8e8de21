ghost use Rattle.std.specs.Prelude.{◌≡◌, ◌≢◌, ◌+◌, ◌-◌, ◌^◌, min, length, List, [], ◌++◌, reverse, take, drop, IfOk, IfErr, OnOk};
ghost use Rattle.moves.specs.declared.actor.Actor.{Actor as AnActor};
ghost use Rattle.layout.specs.Layouts.{LaidOut};
ghost use Rattle.trace_text.specs.Traces.{IsTraceOf};
ghost use Rattle.trace_text.specs.declared.trace.Setup.{Setup as ASetup};
ghost use Rattle.program_runner.specs.Setups.{IsSetupFault};
ghost use Rattle.program_runner.specs.declared.setup_fault.SetupFault.TheVariants as fault;
ghost use Rattle.replay.specs.Lists.{actors_of};
ghost use Rattle.step_log.specs.Steps.{AreSteps};
ghost use Rattle.step_log.specs.Logs.{IsAt};

use crate::log::{FrameNote, LogStep};
use crate::recording::Recorder;
use crate::upcoming::Upcoming;
use items::Items;
use layout::Program;
use program_runner::SetupFault;
use std::alloc::{AllocError, Global};
use std::marker::Model;
use trace_text::Trace;

/// The run of a trace, of which some steps that follow one another are logged: the newest ones.
#[derive(Drop)]
pub struct StepLog<'a> {
    recorder: Recorder<'a>,
    upcoming: Upcoming<'a>,
}

impl<'a> Model for StepLog<'a> {
    ghost use Rattle.step_log.specs.Logs.{Log};

    ghost Value = { Log };

    ghost use Rattle.step_log.specs.LogView.{log_seen, IsKept};

    ghost view = { log_seen };

    ghost invariant = { IsKept };
}

impl<'a> StepLog<'a> {
    /// The run before its first step.
    pub fn new(alloc: Global, program: &'a Program, trace: &'a Trace) -> Result<Self, SetupFault>
        requires { IsTraceOf program.now trace.now }
        ensures ok { IfOk result (λ log. IsAt program.now trace.now.setup [] log × (log.left ≡ actors_of trace.now.steps)) }
        ensures before { IfOk result (λ log. log.before ≡ 0) }
        ensures fault { IfErr result (λ e. e ≢ fault.Memory → IsSetupFault program.now trace.now.setup e) }
    {
        let recorder = Recorder::new(alloc, program, &trace.setup)?;
        Ok(StepLog {
            recorder,
            upcoming: Upcoming::new(trace.steps.as_slice()),
        })
    }

    /// Makes the next steps, this number of them or all that are left, and logs them in place of those before.
    /// Where memory is refused, some of them may have been made, and not all of these are logged.
    pub fn go_on(&mut self, count: usize) -> Result<(), AllocError>
        ensures left { OnOk result (self.new.left ≡ drop count self.old.left) }
        ensures before { OnOk result (self.new.before ≡ min (self.old.before + length self.old.steps) (2 ^ 64 - 1)) }
        // The log has a step for each of their actors: what it made after the run of those before it.
        ensures made { (p : LaidOut) (setup : ASetup) (before : List AnActor) → IsAt p setup before self.old
            → OnOk result (IsAt p setup (reverse (take count self.old.left) ++ before) self.new × AreSteps p setup before (reverse (take count self.old.left) ++ before) self.new.steps) }
    {
        self.recorder.forget()?;
        self.recorder.record(&mut self.upcoming, count)?;
        Ok(())
    }

    /// The steps that are logged.
    pub fn steps(&self) -> &[LogStep]
        ensures { result.now ≡ self.now.steps }
    {
        self.recorder.steps.as_slice()
    }

    /// How many steps come before them.
    pub fn before(&self) -> usize
        ensures { result ≡ self.now.before }
    {
        self.recorder.before
    }

    /// The number of the logged step at this place. Steps are counted from 1.
    pub fn number_at(&self, at: usize) -> usize
        ensures { result ≡ min (min (self.now.before + at) (2 ^ 64 - 1) + 1) (2 ^ 64 - 1) }
    {
        self.recorder.before.saturating_add(at).saturating_add(1)
    }

    /// How many notes of frames there are.
    pub fn notes(&self) -> usize {
        self.recorder.notes.len()
    }

    pub fn note(&self, at: usize) -> Option<&FrameNote> {
        self.recorder.notes.get(at)
    }

    /// What a root slot of a note refers to. Null is 0.
    pub fn cell(&self, note: &FrameNote, root: usize) -> Option<u32> {
        self.recorder.notes.cell(note, root)
    }

    /// The places of the last notes of all frames that are under way after the steps, the last one first.
    pub fn frames_under_way(&self, alloc: Global) -> Result<Items<usize>, AllocError> {
        self.recorder.notes.under_way(alloc)
    }
}
