ghost use Rattle.std.specs.Prelude.{◌≡◌, map, IfOk};
ghost use Rattle.mutators.specs.Reports.{told, end_of};

use items::Items;
use machine::{Ending, Value};
use program_runner::ProgramThread;
use serving::{Job, ServingEnd};
use std::alloc::{AllocError, Global};

/// How a thread of a run ended.
#[derive(Clone, Copy)]
pub enum ThreadEnd {
    /// Its first function returned, with this result if it has one.
    Returned(Option<Value>),
    /// It ended otherwise.
    Ended,
    /// It reached its limit.
    Stopped,
    /// There was no memory for it.
    Memory,
    /// It is late, and reached its limit before it had begun.
    Absent,
}

/// How each thread ended that was served.
pub(crate) fn ends_of(
    alloc: Global,
    jobs: &[Job<ProgramThread<'_>>],
) -> Result<Items<ThreadEnd>, AllocError>
    ensures { IfOk result (λ ends. ends ≡ map end_of jobs.now) }
{
    let ends = each_end(alloc, jobs)?;
    Ok(Items::from_vec(ends))
}

/// The same, as they are collected.
fn each_end(alloc: Global, jobs: &[Job<ProgramThread<'_>>]) -> Result<Vec<ThreadEnd>, AllocError>
    ensures { IfOk result (λ ends. ends.items ≡ map end_of jobs.now) }
{
    jobs.iter().map(|job| end_of(job)).collect(alloc)
}

/// How a thread ended that was served.
fn end_of(job: &Job<ProgramThread<'_>>) -> ThreadEnd
    ensures { result ≡ end_of job.now }
{
    told(job.outcome, job.machine.ending())
}

/// What is told of a thread that was served so far, and that ends so if it asks for its end.
fn told(outcome: ServingEnd, ending: Ending) -> ThreadEnd
    ensures { result ≡ told outcome ending }
{
    match (outcome, ending) {
        (ServingEnd::Ended, Ending::Returned(result)) => ThreadEnd::Returned(result),
        (ServingEnd::Ended, Ending::Over) => ThreadEnd::Ended,
        (ServingEnd::Stopped, _) => ThreadEnd::Stopped,
        (ServingEnd::Memory, _) => ThreadEnd::Memory,
        (ServingEnd::Absent, _) => ThreadEnd::Absent,
    }
}
