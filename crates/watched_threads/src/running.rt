ghost use Rattle.std.specs.Prelude.{ℕ, ◌≡◌, ◌≢◌, ◌<◌, ◌≤◌, ◌^◌, ◌++◌, All, List, [], length, map, slice_index_or, IfOk, IfErr};
ghost use Rattle.std.specs.List.{AllByRecursion};
ghost use Rattle.colours.specs.declared.turn.Turn.{Turn};
ghost use Rattle.layout.specs.Globals.{globals_of};
ghost use Rattle.heap_table.specs.Sweepers.{IsSweeperOf, IsNowAt};
ghost use Rattle.program_runner.specs.Heaps.{heap_of, value_of_global};
ghost use Rattle.program_runner.specs.Kinds.{FitsThread};
ghost use Rattle.program_runner.specs.Threads.{program_machine};
ghost use Rattle.program_runner.specs.Setups.{AreBegun, IsSetupOf, IsSetupFault, HasNoFault};
ghost use Rattle.program_runner.specs.declared.setup_fault.SetupFault.TheVariants as fault;
ghost use Rattle.serving.specs.Turns.{MayTurn};
ghost use Rattle.trace_text.specs.Arrivals.{is_late};
ghost use Rattle.watched_serving.specs.Jobs.{MayBegin, WasServed};
ghost use Rattle.watched_threads.specs.Jobs.{AreJobs};
ghost use Rattle.watched_threads.specs.Reports.{IsWatchReport, report_of};

use crate::jobs::{Given, new_jobs};
use crate::report::{ToldThreads, WatchReport};
use crate::thread_ends::told_of;
use gate::Gate;
use heap_table::{Heap, Plan, Sweeper};
use layout::Program;
use mutators::RunReport;
use program_runner::{ProgramThread, SetupFault, begun_threads, values_at_start};
use serving::{Limits, Service};
use std::alloc::{AllocError, Global};
use std::thread::Threads;
use stepping::NewThread;
use trace_sweep::heap_law;
use trace_text::Setup;
use watched_serving::{WatchedJob, close_after, serve_beside};

/// Runs the threads of a setup of a module that nobody has to have checked, each on a real thread of its own, beside the collector of
/// their heap. Each call on the heap is tested first. A thread whose call would break the discipline, or whose instruction has no
/// meaning there, makes no step of it, and is finished; the others go on. So the law of the heap holds for the whole run.
///
/// No clause says the following. Nothing holds a lock, and no thread waits for another. A thread is stopped once it has made as
/// many steps as the limit says. The limit is looked at before each instruction, which is then made whole, and a late thread's
/// steps before it has begun count too. The collector makes turns until its limit, or until it finds after a turn that all
/// threads have ended. A thread calls the gate by its number before its first step and after its last one; the collector does so
/// by the number after those.
///
/// The fault is that of the first thread that may not begin. It is Memory where there is none for the heap, for the threads'
/// beginning, or for the report.
pub fn watch<'x, T: Threads + Sync, G: Gate + Sync>(
    rt: &T,
    alloc: Global,
    program: &'x Program,
    setup: &'x Setup,
    limits: Limits,
    gate: &G,
) -> Result<WatchReport, SetupFault>
    requires setup { IsSetupOf program.now setup.now }
    // There is one run of these threads and the collector on their heap, and this is what came of it.
    ensures report { IfOk result (IsWatchReport program.now setup.now limits) }
    ensures no_fault { IfOk result (λ _. HasNoFault program.now setup.now) }
    ensures fault { IfErr result (λ e. e ≢ fault.Memory → IsSetupFault program.now setup.now e) }
{
    if u32::try_from(program.globals().len()).is_err() {
        return Err(SetupFault::Memory);
    }
    let threads = begun_threads(alloc, program, setup)?;
    let values = values_at_start(alloc, program.module())?;
    let late = late_threads(alloc, setup)?;
    let given = Given {
        program,
        setup,
        values: values.as_slice(),
        late: late.as_slice(),
    };
    let report = watch_given(rt, alloc, given, threads, limits, gate)?;
    Ok(report)
}

/// For each thread of a setup, whether it begins late.
fn late_threads(alloc: Global, setup: &Setup) -> Result<Vec<bool>, AllocError>
    ensures { IfOk result (λ late. late.items ≡ map (λ start. is_late start.arrival) setup.now.starts) }
{
    setup
        .starts
        .as_slice()
        .iter()
        .map(|begun| begun.arrival.is_late())
        .collect(alloc)
}

/// What the heap of a setup is set up from.
fn plan_of<'x>(given: Given<'x>) -> Plan<'x>
    requires values { given.values.now ≡ map (value_of_global given.program.now.of_module) given.program.now.of_module.globals }
    requires late { given.late.now ≡ map (λ start. is_late start.arrival) given.setup.now.starts }
    ensures is { result ≡ heap_of given.entry.program.now given.entry.setup.now }
    ensures words { All (λ words. length words < 2 ^ 32) result.layouts }
{
    Plan {
        pools: &given.setup.pools,
        layouts: given.program.layouts(),
        globals: given.program.globals(),
        values: given.values,
        threads: given.setup.starts.len(),
        late: given.late,
    }
}

/// The heap of a setup, with its collector and with threads that may begin.
#[derive(Drop)]
struct Begun<'a, 'p, 'b> {
    heap: Heap<'a>,
    jobs: Vec<WatchedJob<'p, ProgramThread<'b>>>,
    sweeper: Sweeper<'a>,
}

/// Makes the heap of a setup whose threads may begin, runs them, and tells what came of it.
fn watch_given<T: Threads + Sync, G: Gate + Sync>(
    rt: &T,
    alloc: Global,
    given: Given<'_>,
    threads: Vec<NewThread<ProgramThread<'_>>>,
    limits: Limits,
    gate: &G,
) -> Result<WatchReport, AllocError>
    requires setup { IsSetupOf given.program.now given.setup.now }
    requires globals { length (globals_of given.program.now.of_module) < 2 ^ 32 }
    requires values { given.values.now ≡ map (value_of_global given.program.now.of_module) given.program.now.of_module.globals }
    requires late { given.late.now ≡ map (λ start. is_late start.arrival) given.setup.now.starts }
    requires may { HasNoFault given.program.now given.setup.now }
    requires begun { AreBegun given.program.now given.setup.now threads.items }
    ensures { IfOk result (IsWatchReport given.entry.program.now given.entry.setup.now limits) }
{
    let plan = plan_of(given);
    let (heap, tokens, sweeper) = Heap::new(alloc, plan)?;
    let known = plan_of(given);
    let jobs = new_jobs(alloc, given, &known, &heap, threads, tokens)?;
    let begun = Begun {
        heap,
        jobs,
        sweeper,
    };
    watch_jobs(rt, alloc, given, begun, limits, gate)
}

/// Runs threads that may begin, and tells what came of it.
fn watch_jobs<'a, T: Threads + Sync, G: Gate + Sync>(
    rt: &T,
    alloc: Global,
    given: Given<'_>,
    begun: Begun<'a, '_, '_>,
    limits: Limits,
    gate: &G,
) -> Result<WatchReport, AllocError>
    requires setup { length given.setup.now.starts ≤ 64 }
    requires heap { begun.heap.setup ≡ heap_of given.program.now given.setup.now }
    requires jobs { AreJobs given.program.now given.setup.now begun.heap begun.jobs.items }
    requires count { length begun.jobs.items ≡ length given.setup.now.starts }
    requires sweeper { IsSweeperOf begun.heap begun.sweeper }
    requires fresh { begun.sweeper.log ≡ [] }
    ensures { IfOk result (IsWatchReport given.entry.program.now given.entry.setup.now limits) }
{
    heap_law();
    let Begun {
        heap,
        mut jobs,
        mut sweeper,
    } = begun;
    let service = Service {
        heap: &heap,
        limits,
    };
    let turns = serve_programs(rt, alloc, &service, jobs.as_mut_slice(), &mut sweeper, gate);
    let told = told_of(alloc, jobs.as_slice())?;
    let cycles = sweeper.cycles();
    close_after(alloc, heap, jobs, sweeper)?;
    Ok(report_of(told, turns, cycles))
}

/// What is told of threads that were served, beside a collector that made this number of turns and of cycles.
fn report_of(told: ToldThreads, turns: u32, cycles: u64) -> WatchReport
    ensures { result ≡ report_of told turns cycles }
{
    match told {
        ToldThreads::Ends(threads) => WatchReport::Kept(RunReport {
            threads,
            turns,
            cycles,
        }),
        ToldThreads::Broken(broken) => WatchReport::Broken(broken),
    }
}

/// Serves threads of a program beside one another and the collector, and tests each call first. Returns how many turns the collector
/// made.
fn serve_programs<'a, 'b, T: Threads + Sync, G: Gate + Sync>(
    rt: &T,
    alloc: Global,
    service: &Service,
    jobs: &mut [WatchedJob<'_, ProgramThread<'b>>],
    sweeper: &mut Sweeper<'a>,
    gate: &G,
) -> u32
    requires jobs { AllByRecursion (MayBegin program_machine FitsThread service.now.heap.now) jobs.old }
    requires sweeper { IsSweeperOf service.now.heap.now sweeper.old }
    ensures jobs { (i : ℕ) (d : _) → i < length jobs.old → WasServed program_machine service.now.limits.steps (slice_index_or jobs.old i d) (slice_index_or jobs.new i d) }
    ensures token { IsNowAt sweeper.old sweeper.new.log sweeper.new }
    ensures turns { (turns : List Turn) × (sweeper.new.log ≡ turns ++ sweeper.old.log) × (length turns ≡ result) }
    ensures limit { result ≤ service.now.limits.turns }
    ensures first { 0 < service.now.limits.turns → MayTurn sweeper.old.setup sweeper.old.log → 0 < result }
{
    serve_beside::<T, ProgramThread<'b>, G>(rt, alloc, service, jobs, sweeper, gate)
}
