ghost use Rattle.std.specs.Prelude.{ℕ, ◌≡◌, ◌<◌, ◌≤◌, ◌++◌, List, length, slice_index_or};
ghost use Rattle.std.specs.List.{AllByRecursion};
ghost use Rattle.colours.specs.declared.turn.Turn.{Turn};
ghost use Rattle.runs.specs.Machine.{machine_of};
ghost use Rattle.heap_table.specs.Sweepers.{IsSweeperOf, IsNowAt};
ghost use Rattle.watched_serving.specs.Jobs.{MayBegin, WasServed};
ghost use Rattle.serving.specs.Turns.{MayTurn};

use crate::pieces::{Piece, serve_pieces};
use crate::watching::{WatchedEnd, serve};
use gate::Gate;
use heap_table::Sweeper;
use moves::Runner;
use serving::Service;
use std::alloc::Global;
use std::thread::Threads;
use watched::Watched;

/// A thread that is to be served, each of its calls tested first, and how far it was.
#[derive(Drop)]
pub struct WatchedJob<'p, R> {
    pub me: Watched<'p>,
    pub machine: R,
    pub is_late: bool,
    /// Before it is served, that it has not begun.
    pub outcome: WatchedEnd,
}

/// Serves each thread on a real thread of its own, beside the collector, and tests each call first. A thread that breaks the discipline
/// is finished there; the others go on.
///
/// No clause says the following. The collector makes turns until its limit, or until it
/// finds after a turn that all threads have ended. Returns how many it made. A thread calls the gate by its number, and the
/// collector by the number after those.
pub fn serve_beside<'a, 'p, T: Threads + Sync, R: Runner + Send, G: Gate + Sync>(
    rt: &T,
    alloc: Global,
    service: &Service,
    jobs: &mut [WatchedJob<'p, R>],
    sweeper: &mut Sweeper<'a>,
    gate: &G,
) -> u32
    requires jobs { AllByRecursion (MayBegin (machine_of R.action R.after_answer R.roots) R.fits service.now.heap.now) jobs.old }
    requires sweeper { IsSweeperOf service.now.heap.now sweeper.old }
    ensures jobs { (i : ℕ) (d : _) → i < length jobs.old → WasServed (machine_of R.action R.after_answer R.roots) service.now.limits.steps (slice_index_or jobs.old i d) (slice_index_or jobs.new i d) }
    ensures token { IsNowAt sweeper.old sweeper.new.log sweeper.new }
    ensures turns { (turns : List Turn) × (sweeper.new.log ≡ turns ++ sweeper.old.log) × (length turns ≡ result) }
    ensures limit { result ≤ service.now.limits.turns }
    ensures first { 0 < service.now.limits.turns → MayTurn sweeper.old.setup sweeper.old.log → 0 < result }
{
    serve_pieces::<T, WatchedJob<'p, R>, G>(rt, alloc, service, jobs, sweeper, gate)
}

impl<'p, R: Runner> Piece for WatchedJob<'p, R> {
    ghost use Rattle.runs.specs.Machine.{machine_of};
    ghost use Rattle.watched_serving.specs.Jobs.{MayBegin, WasServed};

    ghost may = { MayBegin (machine_of R.action R.after_answer R.roots) R.fits };

    ghost was = { WasServed (machine_of R.action R.after_answer R.roots) };

    fn serve_piece(&mut self, alloc: Global, service: &Service) {
        let Service { heap, limits } = *service;
        let is_late = self.is_late;
        self.outcome = serve(
            alloc,
            heap,
            &mut self.me,
            &mut self.machine,
            is_late,
            limits.steps,
        );
    }
}
