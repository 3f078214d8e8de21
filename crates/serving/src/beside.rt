ghost use Rattle.std.specs.Prelude.{ℕ, ◌≡◌, ◌<◌, ◌≤◌, ◌++◌, List, length, slice_index_or};
ghost use Rattle.std.specs.List.{AllByRecursion};
ghost use Rattle.std.specs.Thread.{IsSync, IsSend};
ghost use Rattle.colours.specs.declared.turn.Turn.{Turn};
ghost use Rattle.runs.specs.Machine.{machine_of};
ghost use Rattle.heap_table.specs.Sweepers.{IsSweeperOf, IsNowAt};
ghost use Rattle.serving.specs.Jobs.{MayBegin, WasServed};
ghost use Rattle.serving.specs.Turns.{MayTurn};

use crate::collecting::collect;
use crate::serving::{ServingEnd, serve};
use gate::Gate;
use heap_table::{Heap, Mutator, Sweeper};
use moves::Runner;
use std::alloc::Global;
use std::sync::atomic::{AtomicUsize, Ordering};
use std::thread::{Threads, for_each_mut, join_mut};

/// A thread that is to be served, and how far it was.
#[derive(Drop)]
pub struct Job<R> {
    pub me: Mutator,
    pub machine: R,
    pub is_late: bool,
    /// Before it is served, that it has not begun.
    pub outcome: ServingEnd,
}

/// How many turns the collector makes at most, and after how many steps a thread is stopped.
#[derive(Clone, Copy)]
pub struct Limits {
    pub turns: u32,
    pub steps: u32,
}

/// How threads are served: by which heap, and how far.
#[derive(Clone, Copy)]
pub struct Service<'h, 'a> {
    pub heap: &'h Heap<'a>,
    pub limits: Limits,
}

/// Serves each thread on a real thread of its own, beside the collector.
///
/// No clause says the following. The collector makes turns until its limit, or until it
/// finds after a turn that all threads have ended. Returns how many it made. A thread calls the gate by its number, and the
/// collector by the number after those.
pub fn serve_beside<'a, T: Threads + Sync, R: Runner + Send, G: Gate + Sync>(
    rt: &T,
    alloc: Global,
    service: &Service,
    jobs: &mut [Job<R>],
    sweeper: &mut Sweeper<'a>,
    gate: &G,
) -> u32
    requires jobs { AllByRecursion (MayBegin (machine_of R.action R.after_answer R.roots) R.fits service.now.heap.now) jobs.old }
    requires sweeper { IsSweeperOf service.now.heap.now sweeper.old }
    ensures jobs { (i : ℕ) (d : _) → i < length jobs.old → WasServed (machine_of R.action R.after_answer R.roots) service.now.limits.steps (slice_index_or jobs.old i d) (slice_index_or jobs.new i d) }
    ensures token { IsNowAt sweeper.old sweeper.new.log sweeper.new }
    ensures turns { (turns : List Turn) × (sweeper.new.log ≡ turns ++ sweeper.old.log) × (length turns ≡ result) }
    ensures limit { result ≤ service.now.limits.turns }
    ensures first { 0 < service.now.limits.turns → MayTurn sweeper.old.setup sweeper.old.log → 0 < result }
{
    let ended = AtomicUsize::new(0);
    let threads = jobs.len();
    let ((), turns) = join_mut(
        rt,
        &mut ||
            requires bounds { IsSync T.row × IsSend R.row × IsSync G.row }
            requires jobs { AllByRecursion (MayBegin (machine_of R.action R.after_answer R.roots) R.fits service.now.heap.now) jobs.now }
        { serve_all(rt, alloc, service, &ended, gate, jobs) },
        &mut || collect_gated(
            service.heap,
            sweeper,
            service.limits.turns,
            &ended,
            threads,
            gate,
        ),
    );
    turns
}

/// Serves each thread on a real thread of its own.
fn serve_all<T: Threads + Sync, R: Runner + Send, G: Gate + Sync>(
    rt: &T,
    alloc: Global,
    service: &Service,
    ended: &AtomicUsize,
    gate: &G,
    jobs: &mut [Job<R>],
)
    requires { AllByRecursion (MayBegin (machine_of R.action R.after_answer R.roots) R.fits service.now.heap.now) jobs.old }
    ensures { (i : ℕ) (d : _) → i < length jobs.old → WasServed (machine_of R.action R.after_answer R.roots) service.now.limits.steps (slice_index_or jobs.old i d) (slice_index_or jobs.new i d) }
{
    let threads = jobs.len().max(1);
    for_each_mut(
        rt,
        jobs,
        threads,
        &|number, job| { serve_gated(alloc, service, number, ended, gate, job) },
    );
}

/// Serves a thread between the gate's two calls, and counts it as ended.
fn serve_gated<R: Runner, G: Gate>(
    alloc: Global,
    service: &Service,
    number: usize,
    ended: &AtomicUsize,
    gate: &G,
    job: &mut Job<R>,
)
    requires { MayBegin (machine_of R.action R.after_answer R.roots) R.fits service.now.heap.now job.old }
    ensures { WasServed (machine_of R.action R.after_answer R.roots) service.now.limits.steps job.old job.new }
{
    gate.before(number);
    let Service { heap, limits } = *service;
    let is_late = job.is_late;
    job.outcome = serve(
        alloc,
        heap,
        &mut job.me,
        &mut job.machine,
        is_late,
        limits.steps,
    );
    gate.after(number);
    ended.fetch_add(1, Ordering::SeqCst);
}

/// Makes turns of the collector between the gate's two calls.
fn collect_gated<'a, G: Gate>(
    heap: &Heap<'_>,
    sweeper: &mut Sweeper<'a>,
    limit: u32,
    ended: &AtomicUsize,
    threads: usize,
    gate: &G,
) -> u32
    requires { IsSweeperOf heap.now sweeper.old }
    ensures token { IsNowAt sweeper.old sweeper.new.log sweeper.new }
    ensures turns { (turns : List Turn) × (sweeper.new.log ≡ turns ++ sweeper.old.log) × (length turns ≡ result) }
    ensures limit { result ≤ limit }
    ensures first { 0 < limit → MayTurn sweeper.old.setup sweeper.old.log → 0 < result }
{
    gate.before(threads);
    let turns = collect(heap, sweeper, limit, ended, threads);
    gate.after(threads);
    turns
}
