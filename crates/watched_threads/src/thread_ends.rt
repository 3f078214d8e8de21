ghost use Rattle.std.specs.Prelude.{◌≡◌, ◌≤◌, length, IfOk, IfErr};
ghost use Rattle.mutators.specs.Reports.{told};
ghost use Rattle.watched_threads.specs.Ends.{EndedSo, BrokeSo, AreToldSo, HaveFrames};

use crate::report::{BrokenThread, ToldThreads};
use items::Items;
use machine::{Ending, FramePlace};
use mutators::ThreadEnd;
use program_runner::ProgramThread;
use serving::ServingEnd;
use std::alloc::{AllocError, Global};
use watched_serving::{Breach, WatchedEnd, WatchedJob};

/// What is told of threads that were served. One that broke the discipline has a frame, in which its instruction is.
pub(crate) fn told_of(
    alloc: Global,
    jobs: &[WatchedJob<'_, ProgramThread<'_>>],
) -> Result<ToldThreads, AllocError>
    requires few { length jobs.now ≤ 64 }
    requires framed { HaveFrames jobs.now }
    ensures { IfOk result (AreToldSo jobs.now) }
{
    let mut ends = Vec::with_capacity(alloc, jobs.len())?;
    for (thread, job) in jobs.iter().enumerate() {
        match end_of(job) {
            Ok(end) => ends.push(end)?,
            Err(why) => {
                let at = job.machine.thread().frame_place(0);
                return Ok(ToldThreads::Broken(BrokenThread {
                    thread: thread as u32,
                    at,
                    why,
                }));
            }
        }
    }
    Ok(ToldThreads::Ends(Items::from_vec(ends)))
}

/// How a thread ended that was served, if it broke nothing.
fn end_of(job: &WatchedJob<'_, ProgramThread<'_>>) -> Result<ThreadEnd, Breach>
    ensures ok { IfOk result (EndedSo job.now) }
    ensures broke { IfErr result (BrokeSo job.now) }
{
    match job.outcome {
        WatchedEnd::Kept(outcome) => Ok(told(outcome, job.machine.ending())),
        WatchedEnd::Broke(why) => Err(why),
    }
}

/// What is told of a thread that was served so far, and that ends so if it asks for its end.
fn told(outcome: ServingEnd, ending: Ending) -> ThreadEnd
    ensures { result ≡ told outcome ending }
{
    match (outcome, ending) {
        (ServingEnd::Ended, Ending::Returned(result)) => ThreadEnd::Returned(result),
        (ServingEnd::Ended, Ending::Over) => ThreadEnd::Ended,
        (ServingEnd::Stopped, _) => ThreadEnd::Stopped,
        (ServingEnd::Memory, _) => ThreadEnd::Memory,
        (ServingEnd::Absent, _) => ThreadEnd::Absent,
    }
}
