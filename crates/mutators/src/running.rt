ghost use Rattle.std.specs.Prelude.{ℕ, ◌≡◌, ◌≢◌, ◌<◌, ◌≤◌, ◌++◌, List, [], length, map, slice_index_or, IfOk, IfErr};
ghost use Rattle.std.specs.List.{AllByRecursion};
ghost use Rattle.colours.specs.declared.turn.Turn.{Turn};
ghost use Rattle.layout.specs.Layouts.{LaidOut};
ghost use Rattle.heap_table.specs.Sweepers.{IsSweeperOf, IsNowAt};
ghost use Rattle.program_runner.specs.Heaps.{heap_of};
ghost use Rattle.program_runner.specs.Kinds.{FitsThread};
ghost use Rattle.program_runner.specs.Threads.{program_machine};
ghost use Rattle.serving.specs.Jobs.{MayBegin, WasServed};
ghost use Rattle.serving.specs.Turns.{MayTurn};
ghost use Rattle.program_runner.specs.Setups.{IsSetupOf};
ghost use Rattle.program_runner.specs.declared.setup_fault.SetupFault.TheVariants as fault;
ghost use Rattle.trace_text.specs.Arrivals.{is_late};
ghost use Rattle.mutators.specs.Faults.{IsRunFault, HasNoRunFault};
ghost use Rattle.mutators.specs.Jobs.{AreJobs};
ghost use Rattle.mutators.specs.Reports.{IsReport};

use crate::jobs::{AcceptedSetup, new_jobs};
use crate::report::RunReport;
use crate::thread_end::ends_of;
use gate::Gate;
use heap_table::{Heap, Plan, Sweeper};
use module_check::Accepted;
use program_runner::{ProgramThread, SetupFault, values_at_start};
use serving::{Job, Limits, Service, close_after, serve_beside};
use std::alloc::{AllocError, Global};
use std::thread::Threads;
use trace_sweep::heap_law;
use trace_text::Setup;

/// Runs the threads of a setup of an accepted module, each on a real thread of its own, beside the collector of their heap.
///
/// No clause says the following. Nothing holds a lock, and no thread waits for another. A thread is stopped once it has made as
/// many steps as the limit says. The limit is looked at before each instruction, which is then made whole, and a late thread's
/// steps before it has begun count too. The collector makes turns until its limit, or until it finds after a turn that all
/// threads have ended. A thread calls the gate by its number before its first step and after its last one; the collector does so
/// by the number after those.
///
/// A thread that finds no memory is finished, and is told so; the others go on. The fault is that of the first thread that may
/// not begin. It is Memory where there is none for the heap, for the threads' beginning, or for the report.
pub fn run<T: Threads + Sync, G: Gate + Sync>(
    rt: &T,
    alloc: Global,
    accepted: &Accepted,
    setup: &Setup,
    limits: Limits,
    gate: &G,
) -> Result<RunReport, SetupFault>
    requires setup { IsSetupOf accepted.now.program setup.now }
    // There is one run of these threads and the collector on their heap, and this is what came of it.
    ensures report { IfOk result (IsReport accepted.now.program setup.now limits) }
    ensures no_fault { IfOk result (λ _. HasNoRunFault accepted.now.program accepted.now.certs.sections setup.now) }
    ensures fault { IfErr result (λ e. e ≢ fault.Memory → IsRunFault accepted.now.program accepted.now.certs.sections setup.now e) }
{
    let program = accepted.program();
    let globals = program.globals();
    if u32::try_from(globals.len()).is_err() {
        return Err(SetupFault::Memory);
    }
    let values = values_at_start(alloc, program.module())?;
    let late = late_threads(alloc, setup)?;
    let plan = Plan {
        pools: &setup.pools,
        layouts: program.layouts(),
        globals,
        values: values.as_slice(),
        threads: setup.starts.len(),
        late: late.as_slice(),
    };
    let (heap, tokens, sweeper) = Heap::new(alloc, plan)?;
    let jobs = new_jobs(alloc, accepted, setup, &heap, tokens)?;
    let begun = Begun {
        heap,
        jobs,
        sweeper,
    };
    let of_setup = AcceptedSetup { accepted, setup };
    let report = run_jobs(rt, alloc, &of_setup, begun, limits, gate)?;
    Ok(report)
}

/// For each thread of a setup, whether it begins late.
fn late_threads(alloc: Global, setup: &Setup) -> Result<Vec<bool>, AllocError>
    ensures { IfOk result (λ late. late.items ≡ map (λ start. is_late start.arrival) setup.now.starts) }
{
    setup
        .starts
        .as_slice()
        .iter()
        .map(|begun| begun.arrival.is_late())
        .collect(alloc)
}

/// The heap of a setup, with its collector and with threads that may begin.
#[derive(Drop)]
struct Begun<'a, 'b> {
    heap: Heap<'a>,
    jobs: Vec<Job<ProgramThread<'b>>>,
    sweeper: Sweeper<'a>,
}

/// Runs threads that may begin, and tells what came of it.
fn run_jobs<'a, T: Threads + Sync, G: Gate + Sync>(
    rt: &T,
    alloc: Global,
    of_setup: &AcceptedSetup,
    begun: Begun<'a, '_>,
    limits: Limits,
    gate: &G,
) -> Result<RunReport, AllocError>
    requires heap { begun.heap.setup ≡ heap_of of_setup.now.accepted.now.program of_setup.now.setup.now }
    requires jobs { AreJobs of_setup.now.accepted.now.program of_setup.now.setup.now begun.heap begun.jobs.items }
    requires count { length begun.jobs.items ≡ length of_setup.now.setup.now.starts }
    requires sweeper { IsSweeperOf begun.heap begun.sweeper }
    requires fresh { begun.sweeper.log ≡ [] }
    ensures { IfOk result (IsReport of_setup.now.accepted.now.program of_setup.now.setup.now limits) }
{
    heap_law();
    let Begun {
        heap,
        mut jobs,
        mut sweeper,
    } = begun;
    let service = Service {
        heap: &heap,
        limits,
    };
    let turns = serve_programs(rt, alloc, &service, jobs.as_mut_slice(), &mut sweeper, gate);
    let threads = ends_of(alloc, jobs.as_slice())?;
    let cycles = sweeper.cycles();
    close_after(alloc, heap, jobs, sweeper)?;
    Ok(RunReport {
        threads,
        turns,
        cycles,
    })
}

/// Serves threads of a program beside one another and the collector. Returns how many turns the collector made.
fn serve_programs<'a, 'b, T: Threads + Sync, G: Gate + Sync>(
    rt: &T,
    alloc: Global,
    service: &Service,
    jobs: &mut [Job<ProgramThread<'b>>],
    sweeper: &mut Sweeper<'a>,
    gate: &G,
) -> u32
    requires jobs { AllByRecursion (MayBegin program_machine FitsThread service.now.heap.now) jobs.old }
    requires sweeper { IsSweeperOf service.now.heap.now sweeper.old }
    ensures jobs { (i : ℕ) (d : _) → i < length jobs.old → WasServed program_machine service.now.limits.steps (slice_index_or jobs.old i d) (slice_index_or jobs.new i d) }
    ensures token { IsNowAt sweeper.old sweeper.new.log sweeper.new }
    ensures turns { (turns : List Turn) × (sweeper.new.log ≡ turns ++ sweeper.old.log) × (length turns ≡ result) }
    ensures limit { result ≤ service.now.limits.turns }
    ensures first { 0 < service.now.limits.turns → MayTurn sweeper.old.setup sweeper.old.log → 0 < result }
{
    serve_beside::<T, ProgramThread<'b>, G>(rt, alloc, service, jobs, sweeper, gate)
}
