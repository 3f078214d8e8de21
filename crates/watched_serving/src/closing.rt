ghost use Rattle.std.specs.Prelude.{◌≡◌, IfOk, map};
ghost use Rattle.heap_table.specs.Sweepers.{IsSweeperOf};
ghost use Rattle.heap_table.specs.Closing.{AreOf, EndsSo};
ghost use Rattle.watched_serving.specs.Jobs.{token_of};

use crate::beside::WatchedJob;
use heap_table::{Closed, Heap, Mutator, Sweeper};
use std::alloc::{AllocError, Global};

/// Closes the heap once its threads were served. There is one run of the heap, of which the logs of all threads and of the
/// collector are the shares.
pub fn close_after<'a, R: Drop>(
    alloc: Global,
    heap: Heap<'a>,
    jobs: Vec<WatchedJob<'_, R>>,
    sweeper: Sweeper<'_>,
) -> Result<Closed<'a>, AllocError>
    requires jobs { AreOf heap (map token_of jobs.items) }
    requires sweeper { IsSweeperOf heap sweeper }
    ensures setup { IfOk result (λ closed. closed.setup ≡ heap.entry.setup) }
    ensures run { IfOk result (λ closed. EndsSo heap.entry.setup (map token_of jobs.entry.items) sweeper.entry closed) }
{
    let mutators = into_tokens(alloc, jobs)?;
    Ok(heap.close(mutators, sweeper))
}

/// The tokens of threads that were served, in their order.
fn into_tokens<R: Drop>(
    alloc: Global,
    mut jobs: Vec<WatchedJob<'_, R>>,
) -> Result<Vec<Mutator>, AllocError>
    ensures { IfOk result (λ tokens. tokens.items ≡ map token_of jobs.entry.items) }
{
    let mut mutators = Vec::with_capacity(alloc, jobs.len())?;
    while let Some(job) = jobs.pop() {
        mutators.insert(0, into_token(job))?;
    }
    Ok(mutators)
}

/// The token of a thread that was served.
fn into_token<R: Drop>(job: WatchedJob<'_, R>) -> Mutator
    ensures { result ≡ token_of job.entry }
{
    let WatchedJob {
        me,
        machine: _,
        is_late: _,
        outcome: _,
    } = job;
    me.into_token()
}
