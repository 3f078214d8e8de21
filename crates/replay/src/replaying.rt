ghost use Rattle.std.specs.Prelude.{◌≢◌, List, IfOk, IfErr};
ghost use Rattle.certs.specs.declared.section.Section.{Section};
ghost use Rattle.trace_text.specs.Traces.{IsTraceOf};
ghost use Rattle.program_runner.specs.Setups.{IsSetupFault, HasNoFault, IsCertifiedSetup};
ghost use Rattle.program_runner.specs.declared.setup_fault.SetupFault.TheVariants as fault;
ghost use Rattle.replay.specs.Outcomes.{IsOutcome, IsSound};

use crate::outcome::Outcome;
use crate::watch::Watch;
use layout::Program;
use program_runner::{SetupFault, setup_law};
use std::alloc::Global;
use trace_text::Trace;

/// Makes the steps of a trace: the first step after which the run is broken, with its cause, or where the actors are at the
/// end.
pub fn replay(alloc: Global, program: &Program, trace: &Trace) -> Result<Outcome, SetupFault>
    requires { IsTraceOf program.now trace.now }
    ensures outcome { IfOk result (IsOutcome program.now trace.now) }
    ensures no_fault { IfOk result (λ _. HasNoFault program.now trace.now.setup) }
    ensures fault { IfErr result (λ e. e ≢ fault.Memory → IsSetupFault program.now trace.now.setup e) }
    // Where the program is certified, and the threads begin with what its certificates promise, no step is broken.
    ensures safe { (certs : List Section) → IsCertifiedSetup program.now trace.now.setup certs → IfOk result IsSound }
{
    setup_law();
    let mut watch = Watch::new(alloc, program, &trace.setup)?;
    for steps in trace.steps.as_slice() {
        let broken = match watch.steps(steps.actor, steps.count) {
            Ok(broken) => broken,
            Err(refused) => {
                drop(watch);
                return Err(SetupFault::from(refused));
            }
        };
        if let Some(broken) = broken {
            drop(watch);
            return Ok(Outcome::Broken(broken));
        }
    }
    match watch.report() {
        Ok(report) => {
            drop(watch);
            Ok(Outcome::Sound(report))
        }
        Err(refused) => {
            drop(watch);
            Err(SetupFault::from(refused))
        }
    }
}
