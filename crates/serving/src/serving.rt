ghost use Rattle.std.specs.Prelude.{◌≡◌, ◌≢◌, ◌<◌, ◌^◌, ◌∷◌, [], IfOk, OnOk, OnErr};
ghost use Rattle.colours.specs.Colours.{done};
ghost use Rattle.colours.specs.Steps.{StoreStage};
ghost use Rattle.runs.specs.Machine.{machine_of, End};
ghost use Rattle.runs.specs.RealThreads.{Left};
ghost use Rattle.moves.specs.Calls.{action_of, answer_in};
ghost use Rattle.heap_table.specs.Holders.{IsNow, MayCall};
ghost use Rattle.serving.specs.Serving.{MayBeServed, MayCallFirst, MayServe, IsServed, WentOn, StaysReady, AreListed};
ghost use Rattle.serving.specs.Tries.{HasTried};
ghost use Rattle.serving.specs.Endings.{EndsSo};

use crate::calls::{alloc_for, read_for, safepoint_for, store_plain_for, write_for};
use crate::root_cells::RootCells;
use heap_table::{Heap, Mutator};
use moves::{Answer, Call, Runner};
use std::alloc::{AllocError, Global};

/// The steps of a late thread's try after which it has begun.
const ARRIVAL: u64 = 3;

/// The steps of a try after which it has not.
const FAILED_TRY: u64 = 4;

/// How the serving of a thread ended.
#[derive(Clone, Copy)]
pub enum ServingEnd {
    /// It asked for its end.
    Ended,
    /// It reached its limit.
    Stopped,
    /// There was no memory.
    Memory,
    /// It is late, and reached its limit before it had begun.
    Absent,
}

/// Makes what the thread asks for, call by call, to its end or its limit; then the thread is finished. A late thread tries to
/// begin before its first call. The limit is looked at before each try and each call, which is then made whole. Each step of a
/// try counts, and a call counts as one step.
pub fn serve<R: Runner>(
    alloc: Global,
    heap: &Heap<'_>,
    me: &mut Mutator,
    machine: &mut R,
    is_late: bool,
    limit: u32,
) -> ServingEnd
    requires { MayBeServed (machine_of R.action R.after_answer R.roots) R.fits heap.now me.old is_late machine.old }
    ensures token { IsNow me.old me.new.log me.new }
    ensures left { Left me.old.setup (machine_of R.action R.after_answer R.roots) me.old.thread machine.old me.new.log }
    ensures end { EndsSo me.old.setup (machine_of R.action R.after_answer R.roots) me.old.thread machine.old limit result machine.new me.new.log }
{
    let limit = u64::from(limit);
    if is_late {
        serve_late(alloc, heap, me, machine, limit)
    } else {
        serve_begun(alloc, heap, me, machine, 0, limit)
    }
}

/// Serves a late thread.
fn serve_late<R: Runner>(
    alloc: Global,
    heap: &Heap<'_>,
    me: &mut Mutator,
    machine: &mut R,
    limit: u64,
) -> ServingEnd
    requires late { HasTried (machine_of R.action R.after_answer R.roots) R.fits heap.now me.old machine.old 0 me.old }
    requires few { limit < 2 ^ 32 }
    ensures token { IsNow me.old me.new.log me.new }
    ensures left { Left me.old.setup (machine_of R.action R.after_answer R.roots) me.old.thread machine.old me.new.log }
    ensures end { EndsSo me.old.setup (machine_of R.action R.after_answer R.roots) me.old.thread machine.old limit result machine.new me.new.log }
{
    for tries in 0..limit.div_ceil(FAILED_TRY) {
        if heap.begin(me) {
            let made = tries * FAILED_TRY + ARRIVAL;
            return serve_begun(alloc, heap, me, machine, made, limit);
        }
    }
    ServingEnd::Absent
}

/// Serves a thread that has begun, after this number of steps.
fn serve_begun<R: Runner>(
    alloc: Global,
    heap: &Heap<'_>,
    me: &mut Mutator,
    machine: &mut R,
    made: u64,
    limit: u64,
) -> ServingEnd
    requires { MayCallFirst (machine_of R.action R.after_answer R.roots) R.fits heap.now me.old machine.old made }
    ensures token { IsNow me.old me.new.log me.new }
    ensures left { Left me.old.setup (machine_of R.action R.after_answer R.roots) me.old.thread machine.old me.new.log }
    ensures end { EndsSo me.old.setup (machine_of R.action R.after_answer R.roots) me.old.thread machine.old limit result machine.new me.new.log }
{
    let mut roots = RootCells::new(alloc);
    for _made in made..limit {
        let call = machine.call();
        if let Call::End = call {
            return finished(heap, me, ServingEnd::Ended);
        }
        if go_on(heap, me, machine, call, &mut roots).is_err() {
            return finished(heap, me, ServingEnd::Memory);
        }
    }
    finished(heap, me, ServingEnd::Stopped)
}

/// Finishes a thread that ends so.
fn finished(heap: &Heap<'_>, me: &mut Mutator, end: ServingEnd) -> ServingEnd
    requires { MayCall heap.now me.old }
    ensures end { result ≡ end }
    ensures log { IsNow me.old (StoreStage done [] ∷ me.old.log) me.new }
{
    heap.finish(me);
    end
}

/// Makes the call that the thread asks for, and hands it the answer. Where there is no memory the thread is between two calls still.
fn go_on<R: Runner>(
    heap: &Heap<'_>,
    me: &mut Mutator,
    machine: &mut R,
    call: Call,
    roots: &mut RootCells,
) -> Result<(), AllocError>
    requires asked { action_of call ≡ R.action machine.old }
    requires may { MayServe (machine_of R.action R.after_answer R.roots) R.fits heap.now me.old machine.old }
    requires not_end { R.action machine.old ≢ End }
    requires listed { AreListed roots.old (R.roots machine.old) }
    ensures ok { OnOk result (WentOn (machine_of R.action R.after_answer R.roots) R.fits heap.now me.old machine.old me.new machine.new) }
    ensures err { OnErr result (StaysReady (machine_of R.action R.after_answer R.roots) heap.now me.old machine.old me.new) }
    ensures listed { OnOk result (AreListed roots.new (R.roots machine.new)) }
{
    heap.few_cells_law();
    let answer = make_call(heap, me, machine, call, roots)?;
    let after = machine.answer(answer)?;
    roots.follow(after);
    Ok(())
}

/// Makes the call that the thread asks for.
fn make_call<R: Runner>(
    heap: &Heap<'_>,
    me: &mut Mutator,
    machine: &R,
    call: Call,
    roots: &mut RootCells,
) -> Result<Answer, AllocError>
    requires asked { action_of call ≡ R.action machine.now }
    requires may { MayServe (machine_of R.action R.after_answer R.roots) R.fits heap.now me.old machine.now }
    requires not_end { R.action machine.now ≢ End }
    requires listed { AreListed roots.old (R.roots machine.now) }
    ensures ok { IfOk result (λ answer. IsServed (machine_of R.action R.after_answer R.roots) heap.now me.old machine.now me.new (answer_in answer)) }
    ensures err { OnErr result (me.new ≡ me.old) }
    ensures listed { AreListed roots.new (R.roots machine.now) }
{
    me.is_of_run_law();
    match call {
        Call::Local => Ok(Answer::Done),
        Call::Read { base, word } => Ok(read_for(heap, me, machine, base, word)),
        Call::StorePlain { base, word, value } => {
            Ok(store_plain_for(heap, me, machine, base, word, value))
        }
        Call::Write { base, word, value } => Ok(write_for(heap, me, machine, base, word, value)),
        Call::Alloc(layout) => Ok(alloc_for(heap, me, machine, layout)),
        Call::Safepoint => safepoint_for(heap, me, machine, roots),
        Call::End | Call::Wrong => unreachable!(),
    }
}
