ghost use Rattle.std.specs.Prelude.{◌≡◌, [], length, IfOk};
ghost use Rattle.heap_words.specs.Tokens.{Shared};
ghost use Rattle.heap_table.specs.Opening.{IsNew, AreNew};
ghost use Rattle.program_runner.specs.Heaps.{heap_of};
ghost use Rattle.program_runner.specs.Setups.{AreBegun, HasNoFault};
ghost use Rattle.watched_threads.specs.Jobs.{IsJobOf, AreJobs, BeginsAs};

use heap_table::{Heap, Mutator, Plan};
use layout::Program;
use program_runner::{ProgramThread, begun_law};
use serving::ServingEnd;
use std::alloc::{AllocError, Global};
use stepping::NewThread;
use trace_text::Setup;
use watched::Watched;
use watched_serving::{WatchedEnd, WatchedJob};

/// A setup of a program, with what the words of its globals hold at the start and which of its threads are late.
#[derive(Clone, Copy)]
pub(crate) struct Given<'x> {
    pub(crate) program: &'x Program,
    pub(crate) setup: &'x Setup,
    pub(crate) values: &'x [u64],
    pub(crate) late: &'x [bool],
}

/// The threads of a setup with their tokens, each at the beginning of its function.
pub(crate) fn new_jobs<'p, 'b>(
    alloc: Global,
    given: Given<'_>,
    plan: &'p Plan<'p>,
    heap: &Heap<'_>,
    mut threads: Vec<NewThread<ProgramThread<'b>>>,
    mut tokens: Vec<Mutator>,
) -> Result<Vec<WatchedJob<'p, ProgramThread<'b>>>, AllocError>
    requires heap { heap.now.setup ≡ heap_of given.program.now given.setup.now }
    requires plan { plan.now ≡ heap.now.setup }
    requires may { HasNoFault given.program.now given.setup.now }
    requires begun { AreBegun given.program.now given.setup.now threads.items }
    requires count { length tokens.items ≡ length given.setup.now.starts }
    requires tokens { AreNew heap.now 0 tokens.items }
    ensures ok { IfOk result (λ jobs. AreJobs given.entry.program.now given.entry.setup.now heap.now jobs.items) }
    ensures count { IfOk result (λ jobs. length jobs.items ≡ length given.entry.setup.now.starts) }
{
    let mut jobs = Vec::new(alloc);
    for number in 0..threads.len() {
        let thread = threads.remove(0);
        let me = tokens.remove(0);
        let job = new_job(alloc, given, plan, me, number, thread)?;
        jobs.push(job)?;
    }
    Ok(jobs)
}

/// The thread with this number and its token, at the beginning of its function.
fn new_job<'p, 'b>(
    alloc: Global,
    given: Given<'_>,
    plan: &'p Plan<'p>,
    me: Mutator,
    number: usize,
    thread: NewThread<ProgramThread<'b>>,
) -> Result<WatchedJob<'p, ProgramThread<'b>>, AllocError>
    requires fresh { me.log ≡ [] }
    requires plan { plan.now ≡ me.setup }
    requires may { HasNoFault given.program.now given.setup.now }
    requires begun { BeginsAs given.program.now given.setup.now number thread }
    ensures { IfOk result (λ job. (heap : Shared) → heap.setup ≡ heap_of given.entry.program.now given.entry.setup.now → IsNew heap number me → IsJobOf given.entry.program.now given.entry.setup.now heap number job) }
{
    begun_law();
    let NewThread { machine, is_late } = thread;
    let me = Watched::new(alloc, me, plan)?;
    Ok(WatchedJob {
        me,
        machine,
        is_late,
        outcome: WatchedEnd::Kept(ServingEnd::Absent),
    })
}
