ghost use Rattle.std.specs.Prelude.{◌≡◌, ◌≢◌, Some, length, slice_get, IfOk, IfErr};
ghost use Rattle.trace_text.specs.Traces.{IsStartOf};
ghost use Rattle.program_runner.specs.Setups.{IsSetupOf};
ghost use Rattle.program_runner.specs.declared.setup_fault.SetupFault.TheVariants as fault;
ghost use Rattle.program_runner.specs.Heaps.{heap_of};
ghost use Rattle.heap_table.specs.Opening.{IsNew, AreNew};
ghost use Rattle.mutators.specs.Faults.{MayStart, IsStartFault, IsRunFault, HasNoRunFault};
ghost use Rattle.mutators.specs.Jobs.{IsJobOf, AreJobs};

use crate::promises::are_under;
use block_rules::promises_in;
use heap_table::{Heap, Mutator};
use module_check::Accepted;
use program_runner::{ProgramThread, SetupFault, begun_law, begun_thread};
use serving::{Job, ServingEnd};
use std::alloc::Global;
use trace_text::{Setup, Start};

/// An accepted module, with a setup of it.
#[derive(Clone, Copy)]
pub(crate) struct AcceptedSetup<'a> {
    pub(crate) accepted: &'a Accepted,
    pub(crate) setup: &'a Setup,
}

/// The threads of a setup with their tokens, each at the beginning of its function; or the first fault.
pub(crate) fn new_jobs<'a>(
    alloc: Global,
    accepted: &'a Accepted,
    setup: &'a Setup,
    heap: &Heap<'_>,
    mut tokens: Vec<Mutator>,
) -> Result<Vec<Job<ProgramThread<'a>>>, SetupFault>
    requires setup { IsSetupOf accepted.now.program setup.now }
    requires heap { heap.now.setup ≡ heap_of accepted.now.program setup.now }
    requires count { length tokens.items ≡ length setup.now.starts }
    requires tokens { AreNew heap.now 0 tokens.items }
    ensures ok { IfOk result (λ jobs. AreJobs accepted.now.program setup.now heap.now jobs.items) }
    ensures count { IfOk result (λ jobs. length jobs.items ≡ length setup.now.starts) }
    ensures no_fault { IfOk result (λ _. HasNoRunFault accepted.now.program accepted.now.certs.sections setup.now) }
    ensures fault { IfErr result (λ e. e ≢ fault.Memory → IsRunFault accepted.now.program accepted.now.certs.sections setup.now e) }
{
    let of_setup = AcceptedSetup { accepted, setup };
    let mut jobs = Vec::new(alloc);
    for (number, begun) in setup.starts.as_slice().iter().enumerate() {
        let me = tokens.remove(0);
        let job = new_job(alloc, &of_setup, heap, me, number as u32, begun)?;
        jobs.push(job)?;
    }
    Ok(jobs)
}

/// The thread with this number and its token, at the beginning of its function.
fn new_job<'a>(
    alloc: Global,
    of_setup: &AcceptedSetup<'a>,
    heap: &Heap<'_>,
    me: Mutator,
    number: u32,
    begun: &'a Start,
) -> Result<Job<ProgramThread<'a>>, SetupFault>
    requires begun { IsStartOf of_setup.now.accepted.now.program begun.now }
    requires at { slice_get of_setup.now.setup.now.starts number ≡ Some begun.now }
    requires heap { heap.now.setup ≡ heap_of of_setup.now.accepted.now.program of_setup.now.setup.now }
    requires token { IsNew heap.now number me }
    ensures ok { IfOk result (IsJobOf of_setup.now.accepted.now.program of_setup.now.setup.now heap.now number) }
    ensures no_fault { IfOk result (λ _. MayStart of_setup.now.accepted.now.program of_setup.now.accepted.now.certs.sections begun.now) }
    ensures fault { IfErr result (λ e. e ≢ fault.Memory → IsStartFault of_setup.now.accepted.now.program of_setup.now.accepted.now.certs.sections number begun.now e) }
{
    let AcceptedSetup { accepted, setup } = *of_setup;
    begun_law();
    let machine = begun_thread(alloc, accepted.program(), setup, number, begun)?;
    let section = accepted.certs().section(begun.function);
    if !are_under(promises_in(section), begun.arguments.as_slice()) {
        return Err(SetupFault::WrongArguments(number));
    }
    Ok(Job {
        me,
        machine,
        is_late: begun.arrival.is_late(),
        outcome: ServingEnd::Absent,
    })
}
