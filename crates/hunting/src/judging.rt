//! Whether a trace breaks its run by a kind of cause: it is replayed.
ghost use Rattle.std.specs.Prelude.{◌≡◌, None, List, IfOk, IfSome};
ghost use Rattle.certs.specs.declared.section.Section.{Section};
ghost use Rattle.trace_text.specs.Traces.{IsTraceOf};
ghost use Rattle.program_runner.specs.Setups.{IsCertifiedSetup};
ghost use Rattle.replay.specs.Outcomes.{IsOutcome};
ghost use Rattle.replay.specs.declared.outcome.Outcome.TheVariants as outcome;
ghost use Rattle.hunting.specs.Shorter.{IsBreaking, kind_of};

use crate::breaking::BrokenTrace;
use crate::kind::{Kind, kind_of};
use crate::merging::in_fewer_lines;
use crate::steps::{total, up_to};
use layout::Program;
use program_runner::SetupFault;
use replay::{Break, Outcome, replay};
use std::alloc::{AllocError, Global};
use trace_text::Trace;

/// The trace up to its break, if it breaks its run.
pub fn broken_trace_of(
    alloc: Global,
    program: &Program,
    trace: &Trace,
) -> Result<Option<BrokenTrace>, AllocError>
    requires { IsTraceOf program.now trace.now }
    ensures breaking { IfOk result (λ found. IfSome found (λ f. IsBreaking program.now f.trace f.broken)) }
    ensures setup { IfOk result (λ found. IfSome found (λ f. f.trace.setup ≡ trace.now.setup)) }
    // Where the program is certified, and the threads begin with what its certificates promise, there is none.
    ensures safe { (certs : List Section) → IsCertifiedSetup program.now trace.now.setup certs → IfOk result (λ found. found ≡ None) }
{
    match replay(alloc, program, trace) {
        Ok(Outcome::Broken(broken)) => up_to_break(
            alloc,
            program,
            kind_of(&broken.cause),
            trace,
            broken.step,
        ),
        Ok(Outcome::Sound(_report)) => Ok(None),
        Err(SetupFault::Memory) => Err(AllocError),
        Err(_) => Ok(None),
    }
}

/// The break of a trace, if it is of this kind.
fn break_of(
    alloc: Global,
    program: &Program,
    kind: Kind,
    trace: &Trace,
) -> Result<Option<Break>, AllocError>
    requires { IsTraceOf program.now trace.now }
    ensures breaks { IfOk result (λ found. IfSome found (λ b. IsOutcome program.now trace.now (outcome.Broken b))) }
    ensures kind { IfOk result (λ found. IfSome found (λ b. kind_of b.cause ≡ kind)) }
{
    match replay(alloc, program, trace) {
        Ok(Outcome::Broken(broken)) => {
            if kind_of(&broken.cause) == kind {
                Ok(Some(broken))
            } else {
                Ok(None)
            }
        }
        Ok(Outcome::Sound(_report)) => Ok(None),
        Err(SetupFault::Memory) => Err(AllocError),
        Err(_) => Ok(None),
    }
}

/// The trace with its break, if its last step makes one of this kind.
fn ended(
    alloc: Global,
    program: &Program,
    kind: Kind,
    trace: Trace,
) -> Result<Option<BrokenTrace>, AllocError>
    requires { IsTraceOf program.now trace }
    ensures breaking { IfOk result (λ found. IfSome found (λ f. IsBreaking program.now f.trace f.broken)) }
    ensures kind { IfOk result (λ found. IfSome found (λ f. kind_of f.broken.cause ≡ kind)) }
    ensures setup { IfOk result (λ found. IfSome found (λ f. f.trace.setup ≡ trace.setup)) }
{
    match break_of(alloc, program, kind, &trace) {
        Ok(Some(broken)) if broken.step == total(trace.steps.as_slice()) => {
            Ok(Some(BrokenTrace { trace, broken }))
        }
        Ok(_) => {
            drop(trace);
            Ok(None)
        }
        Err(refused) => {
            drop(trace);
            Err(refused)
        }
    }
}

/// The trace up to a step, if that then makes a break of this kind.
fn up_to_break(
    alloc: Global,
    program: &Program,
    kind: Kind,
    trace: &Trace,
    step: u64,
) -> Result<Option<BrokenTrace>, AllocError>
    requires { IsTraceOf program.now trace.now }
    ensures breaking { IfOk result (λ found. IfSome found (λ f. IsBreaking program.now f.trace f.broken)) }
    ensures kind { IfOk result (λ found. IfSome found (λ f. kind_of f.broken.cause ≡ kind)) }
    ensures setup { IfOk result (λ found. IfSome found (λ f. f.trace.setup ≡ trace.now.setup)) }
{
    let shorter = up_to(alloc, program, trace, step)?;
    let shorter = in_fewer_lines(alloc, shorter)?;
    ended(alloc, program, kind, shorter)
}

/// The trace up to its break, if that is of this kind.
pub(crate) fn judged(
    alloc: Global,
    program: &Program,
    kind: Kind,
    trace: &Trace,
) -> Result<Option<BrokenTrace>, AllocError>
    requires { IsTraceOf program.now trace.now }
    ensures breaking { IfOk result (λ found. IfSome found (λ f. IsBreaking program.now f.trace f.broken)) }
    ensures kind { IfOk result (λ found. IfSome found (λ f. kind_of f.broken.cause ≡ kind)) }
{
    match break_of(alloc, program, kind, trace)? {
        Some(broken) => up_to_break(alloc, program, kind, trace, broken.step),
        None => Ok(None),
    }
}
