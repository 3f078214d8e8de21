ghost use Rattle.std.specs.Prelude.{ℕ, ◌≡◌, ◌<◌, ◌≤◌, ◌++◌, List, length, slice_index_or};
ghost use Rattle.std.specs.List.{AllByRecursion};
ghost use Rattle.std.specs.Thread.{IsSync, IsSend};
ghost use Rattle.colours.specs.declared.turn.Turn.{Turn};
ghost use Rattle.heap_table.specs.Sweepers.{IsSweeperOf, IsNowAt};
ghost use Rattle.heap_words.specs.Tokens.{Shared};
ghost use Rattle.serving.specs.Turns.{MayTurn};

use gate::Gate;
use heap_table::{Heap, Sweeper};
use serving::{Service, collect};
use std::alloc::Global;
use std::sync::atomic::{AtomicUsize, Ordering};
use std::thread::{Threads, for_each_mut, join_mut};

/// What a real thread of its own serves.
pub(crate) trait Piece {
    /// It may be served by this heap.
    ghost may: { Shared → Self → Type 0 };

    /// It was served, up to this number of steps, and was this before and is that now.
    ghost was: { ℕ → Self → Self → Type 0 };

    fn serve_piece(&mut self, alloc: Global, service: &Service)
        requires { Self.may service.now.heap.now self.old }
        ensures { Self.was service.now.limits.steps self.old self.new };
}

/// Serves each piece on a real thread of its own, beside the collector. Returns how many turns that made.
pub(crate) fn serve_pieces<'a, T: Threads + Sync, J: Piece + Send, G: Gate + Sync>(
    rt: &T,
    alloc: Global,
    service: &Service,
    pieces: &mut [J],
    sweeper: &mut Sweeper<'a>,
    gate: &G,
) -> u32
    requires pieces { AllByRecursion (J.may service.now.heap.now) pieces.old }
    requires sweeper { IsSweeperOf service.now.heap.now sweeper.old }
    ensures pieces { (i : ℕ) (d : _) → i < length pieces.old → J.was service.now.limits.steps (slice_index_or pieces.old i d) (slice_index_or pieces.new i d) }
    ensures token { IsNowAt sweeper.old sweeper.new.log sweeper.new }
    ensures turns { (turns : List Turn) × (sweeper.new.log ≡ turns ++ sweeper.old.log) × (length turns ≡ result) }
    ensures limit { result ≤ service.now.limits.turns }
    ensures first { 0 < service.now.limits.turns → MayTurn sweeper.old.setup sweeper.old.log → 0 < result }
{
    let ended = AtomicUsize::new(0);
    let threads = pieces.len();
    let ((), turns) = join_mut(
        rt,
        &mut ||
            requires bounds { IsSync T.row × IsSend J.row × IsSync G.row }
            requires pieces { AllByRecursion (J.may service.now.heap.now) pieces.now }
        { serve_all(rt, alloc, service, &ended, gate, pieces) },
        &mut || collect_gated(
            service.heap,
            sweeper,
            service.limits.turns,
            &ended,
            threads,
            gate,
        ),
    );
    turns
}

/// Serves each piece on a real thread of its own.
fn serve_all<T: Threads + Sync, J: Piece + Send, G: Gate + Sync>(
    rt: &T,
    alloc: Global,
    service: &Service,
    ended: &AtomicUsize,
    gate: &G,
    pieces: &mut [J],
)
    requires { AllByRecursion (J.may service.now.heap.now) pieces.old }
    ensures { (i : ℕ) (d : _) → i < length pieces.old → J.was service.now.limits.steps (slice_index_or pieces.old i d) (slice_index_or pieces.new i d) }
{
    let threads = pieces.len().max(1);
    for_each_mut(
        rt,
        pieces,
        threads,
        &|number, piece| { serve_gated(alloc, service, number, ended, gate, piece) },
    );
}

/// Serves a piece between the gate's two calls, and counts it as ended.
fn serve_gated<J: Piece, G: Gate>(
    alloc: Global,
    service: &Service,
    number: usize,
    ended: &AtomicUsize,
    gate: &G,
    piece: &mut J,
)
    requires { J.may service.now.heap.now piece.old }
    ensures { J.was service.now.limits.steps piece.old piece.new }
{
    gate.before(number);
    piece.serve_piece(alloc, service);
    gate.after(number);
    ended.fetch_add(1, Ordering::SeqCst);
}

/// Makes turns of the collector between the gate's two calls.
fn collect_gated<'a, G: Gate>(
    heap: &Heap<'_>,
    sweeper: &mut Sweeper<'a>,
    limit: u32,
    ended: &AtomicUsize,
    threads: usize,
    gate: &G,
) -> u32
    requires { IsSweeperOf heap.now sweeper.old }
    ensures token { IsNowAt sweeper.old sweeper.new.log sweeper.new }
    ensures turns { (turns : List Turn) × (sweeper.new.log ≡ turns ++ sweeper.old.log) × (length turns ≡ result) }
    ensures limit { result ≤ limit }
    ensures first { 0 < limit → MayTurn sweeper.old.setup sweeper.old.log → 0 < result }
{
    gate.before(threads);
    let turns = collect(heap, sweeper, limit, ended, threads);
    gate.after(threads);
    turns
}
