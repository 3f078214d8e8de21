ghost use Rattle.std.specs.Prelude.{◌≡◌, ◌≢◌, ◌<◌, ◌^◌, ◌∷◌, [], IfOk, IfErr, OnOk, OnErr};
ghost use Rattle.colours.specs.Colours.{done};
ghost use Rattle.colours.specs.Steps.{StoreStage};
ghost use Rattle.runs.specs.Machine.{machine_of, End};
ghost use Rattle.runs.specs.RealThreads.{Left};
ghost use Rattle.moves.specs.Calls.{action_of, answer_in};
ghost use Rattle.heap_table.specs.Holders.{IsNow, MayCall};
ghost use Rattle.serving.specs.Serving.{AreListed};
ghost use Rattle.watched_serving.specs.Serving.{MayBeServed, MayCallFirst, MayServe, IsServed, WentOn, IsHalted, HaltsSo, end_by};
ghost use Rattle.watched_serving.specs.Tries.{HasTried};
ghost use Rattle.watched_serving.specs.Endings.{EndsSo};

use crate::breach::{Breach, Halt};
use crate::calls::{alloc_for, read_for, safepoint_for, store_plain_for, write_for};
use heap_table::Heap;
use moves::{Answer, Call, Runner};
use serving::{RootCells, ServingEnd};
use std::alloc::Global;
use watched::Watched;

/// The steps of a late thread's try after which it has begun.
const ARRIVAL: u64 = 3;

/// The steps of a try after which it has not.
const FAILED_TRY: u64 = 4;

/// How the serving of a watched thread ended.
#[derive(Clone, Copy)]
pub enum WatchedEnd {
    /// As that of a thread that keeps the discipline.
    Kept(ServingEnd),
    /// It asked for a call that it may not make, for this reason. No step of that call was made.
    Broke(Breach),
}

/// Makes what the thread asks for, call by call, to its end, its limit or its first call that it may not make; then the thread is
/// finished. A late thread tries to begin before its first call. The limit is looked at before each try and each call, which is
/// then made whole. Each step of a try counts, and a call counts as one step.
pub fn serve<R: Runner>(
    alloc: Global,
    heap: &Heap<'_>,
    me: &mut Watched<'_>,
    machine: &mut R,
    is_late: bool,
    limit: u32,
) -> WatchedEnd
    requires { MayBeServed (machine_of R.action R.after_answer R.roots) R.fits heap.now me.old is_late machine.old }
    ensures token { IsNow me.old me.new.log me.new }
    ensures left { Left me.old.setup (machine_of R.action R.after_answer R.roots) me.old.thread machine.old me.new.log }
    ensures end { EndsSo me.old.setup (machine_of R.action R.after_answer R.roots) me.old.thread machine.old limit result machine.new me.new.log }
{
    let limit = u64::from(limit);
    if is_late {
        serve_late(alloc, heap, me, machine, limit)
    } else {
        serve_begun(alloc, heap, me, machine, 0, limit)
    }
}

/// Serves a late thread.
fn serve_late<R: Runner>(
    alloc: Global,
    heap: &Heap<'_>,
    me: &mut Watched<'_>,
    machine: &mut R,
    limit: u64,
) -> WatchedEnd
    requires late { HasTried (machine_of R.action R.after_answer R.roots) R.fits heap.now me.old machine.old 0 me.old }
    requires few { limit < 2 ^ 32 }
    ensures token { IsNow me.old me.new.log me.new }
    ensures left { Left me.old.setup (machine_of R.action R.after_answer R.roots) me.old.thread machine.old me.new.log }
    ensures end { EndsSo me.old.setup (machine_of R.action R.after_answer R.roots) me.old.thread machine.old limit result machine.new me.new.log }
{
    for tries in 0..limit.div_ceil(FAILED_TRY) {
        if me.begin(heap) {
            let made = tries * FAILED_TRY + ARRIVAL;
            return serve_begun(alloc, heap, me, machine, made, limit);
        }
    }
    WatchedEnd::Kept(ServingEnd::Absent)
}

/// Serves a thread that has begun, after this number of steps.
fn serve_begun<R: Runner>(
    alloc: Global,
    heap: &Heap<'_>,
    me: &mut Watched<'_>,
    machine: &mut R,
    made: u64,
    limit: u64,
) -> WatchedEnd
    requires { MayCallFirst (machine_of R.action R.after_answer R.roots) R.fits heap.now me.old machine.old made }
    ensures token { IsNow me.old me.new.log me.new }
    ensures left { Left me.old.setup (machine_of R.action R.after_answer R.roots) me.old.thread machine.old me.new.log }
    ensures end { EndsSo me.old.setup (machine_of R.action R.after_answer R.roots) me.old.thread machine.old limit result machine.new me.new.log }
{
    let mut roots = RootCells::new(alloc);
    for _made in made..limit {
        let call = machine.call();
        if let Call::End = call {
            return finished(heap, me, WatchedEnd::Kept(ServingEnd::Ended));
        }
        if let Err(halt) = go_on(heap, me, machine, call, &mut roots) {
            return finished(heap, me, end_by(halt));
        }
    }
    finished(heap, me, WatchedEnd::Kept(ServingEnd::Stopped))
}

/// How a thread ends that does not go on.
fn end_by(halt: Halt) -> WatchedEnd
    ensures { result ≡ end_by halt }
{
    match halt {
        Halt::Broke(breach) => WatchedEnd::Broke(breach),
        Halt::Memory => WatchedEnd::Kept(ServingEnd::Memory),
    }
}

/// Finishes a thread that ends so.
fn finished(heap: &Heap<'_>, me: &mut Watched<'_>, end: WatchedEnd) -> WatchedEnd
    requires { MayCall heap.now me.old }
    ensures end { result ≡ end }
    ensures log { IsNow me.old (StoreStage done [] ∷ me.old.log) me.new }
{
    me.finish(heap);
    end
}

/// Makes the call that the thread asks for, and hands it the answer. A call that it may not make is not begun. Where there is no
/// memory the thread is between two calls still.
fn go_on<R: Runner>(
    heap: &Heap<'_>,
    me: &mut Watched<'_>,
    machine: &mut R,
    call: Call,
    roots: &mut RootCells,
) -> Result<(), Halt>
    requires asked { action_of call ≡ R.action machine.old }
    requires may { MayServe (machine_of R.action R.after_answer R.roots) R.fits heap.now me.old machine.old }
    requires not_end { R.action machine.old ≢ End }
    requires listed { AreListed roots.old (R.roots machine.old) }
    ensures ok { OnOk result (WentOn (machine_of R.action R.after_answer R.roots) R.fits heap.now me.old machine.old me.new machine.new) }
    ensures halted { IfErr result (λ halt. HaltsSo (machine_of R.action R.after_answer R.roots) heap.now me.old machine.old halt me.new) }
    ensures stays { OnErr result (machine.new ≡ machine.old) }
    ensures listed { OnOk result (AreListed roots.new (R.roots machine.new)) }
{
    heap.few_cells_law();
    let answer = make_call(heap, me, machine, call, roots)?;
    let after = machine.answer(answer)?;
    roots.follow(after);
    Ok(())
}

/// Makes the call that the thread asks for.
fn make_call<R: Runner>(
    heap: &Heap<'_>,
    me: &mut Watched<'_>,
    machine: &R,
    call: Call,
    roots: &mut RootCells,
) -> Result<Answer, Halt>
    requires asked { action_of call ≡ R.action machine.now }
    requires may { MayServe (machine_of R.action R.after_answer R.roots) R.fits heap.now me.old machine.now }
    requires not_end { R.action machine.now ≢ End }
    requires listed { AreListed roots.old (R.roots machine.now) }
    ensures ok { IfOk result (λ answer. IsServed (machine_of R.action R.after_answer R.roots) heap.now me.old machine.now me.new (answer_in answer)) }
    ensures why { IfErr result (IsHalted me.old.setup me.old.log (R.roots machine.now) (R.action machine.now)) }
    ensures same { OnErr result (me.new ≡ me.old) }
    ensures listed { AreListed roots.new (R.roots machine.now) }
{
    match call {
        Call::Local => Ok(Answer::Done),
        Call::Read { base, word } => Ok(read_for(heap, me, machine, base, word)?),
        Call::StorePlain { base, word, value } => {
            Ok(store_plain_for(heap, me, machine, base, word, value)?)
        }
        Call::Write { base, word, value } => Ok(write_for(heap, me, machine, base, word, value)?),
        Call::Alloc(layout) => Ok(alloc_for(heap, me, machine, layout)),
        Call::Safepoint => safepoint_for(heap, me, machine, roots),
        Call::Wrong => Err(Halt::Broke(Breach::Wrong)),
        Call::End => unreachable!(),
    }
}
