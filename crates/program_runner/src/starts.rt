ghost use Rattle.std.specs.Prelude.{ℕ, ◌≡◌, ◌≢◌, Some, length, slice_get, IfOk, IfErr};
ghost use Rattle.trace_text.specs.Traces.{IsStartOf};
ghost use Rattle.program_runner.specs.Setups.{IsSetupOf, IsSetupFault, HasNoFault, AreBegun, MayBegin, IsFaultOf, begun_at, fault_of};
ghost use Rattle.program_runner.specs.declared.setup_fault.SetupFault.TheVariants as fault;

use crate::program_thread::ProgramThread;
use crate::setup_fault::SetupFault;
use layout::Program;
use machine::{StartFault, Thread};
use std::alloc::Global;
use stepping::NewThread;
use trace_text::{Setup, Start};

/// The threads of a setup, each at the beginning of its function, with whether it is late; or the first fault.
pub fn begun_threads<'a>(
    alloc: Global,
    program: &'a Program,
    setup: &'a Setup,
) -> Result<Vec<NewThread<ProgramThread<'a>>>, SetupFault>
    requires { IsSetupOf program.now setup.now }
    ensures ok { IfOk result (λ threads. AreBegun program.now setup.now threads.items) }
    ensures no_fault { IfOk result (λ _. HasNoFault program.now setup.now) }
    ensures fault { IfErr result (λ e. e ≢ fault.Memory → IsSetupFault program.now setup.now e) }
{
    let mut threads = Vec::new(alloc);
    for (number, begun) in setup.starts.as_slice().iter().enumerate() {
        let machine = begun_thread(alloc, program, setup, number as u32, begun)?;
        let is_late = begun.arrival.is_late();
        threads.push(NewThread { machine, is_late })?;
    }
    Ok(threads)
}

/// The thread with this number, at the beginning of its function.
pub fn begun_thread<'a>(
    alloc: Global,
    program: &'a Program,
    setup: &'a Setup,
    number: u32,
    begun: &'a Start,
) -> Result<ProgramThread<'a>, SetupFault>
    requires { IsStartOf program.now begun.now }
    ensures ok { IfOk result (λ thread. thread ≡ begun_at program.now setup.now (Some begun.now)) }
    ensures no_fault { IfOk result (λ _. MayBegin program.now begun.now) }
    ensures fault { IfErr result (λ e. e ≢ fault.Memory → IsFaultOf program.now number begun.now e) }
{
    match Thread::start(alloc, program, begun.function, begun.arguments.as_slice()) {
        Ok(thread) => Ok(ProgramThread::new(
            alloc,
            program,
            setup,
            thread,
            begun.values.as_slice(),
        )),
        Err(refused) => Err(fault_of(number, &refused)),
    }
}

/// Why the thread with this number does not begin.
fn fault_of(thread: u32, refused: &StartFault) -> SetupFault
    ensures { result ≡ fault_of thread refused.now }
{
    match refused {
        StartFault::ReferenceParameter => SetupFault::ReferenceParameter(thread),
        StartFault::WrongArguments => SetupFault::WrongArguments(thread),
        StartFault::Memory(_) => SetupFault::Memory,
    }
}
