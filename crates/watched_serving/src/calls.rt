ghost use Rattle.std.specs.Prelude.{◌≡◌, ◌<◌, ◌^◌, IfOk, IfErr, OnErr};
ghost use Rattle.runs.specs.Machine.{machine_of, Read, StorePlain, Write, Alloc, Safepoint, Got};
ghost use Rattle.moves.specs.Calls.{answer_in};
ghost use Rattle.serving.specs.Serving.{AreListed};
ghost use Rattle.watched_serving.specs.declared.breach.Breach.TheVariants.{Refused};
ghost use Rattle.watched_serving.specs.Breaches.{IsBreach};
ghost use Rattle.watched_serving.specs.Serving.{MayServe, IsServed, IsHalted};

use crate::breach::Halt;
use crate::root_lists::{cell_of, list_roots};
use heap_table::Heap;
use moves::{Answer, Runner, WordValue};
use pools::LayoutId;
use serving::RootCells;
use watched::{Refusal, Watched};

/// The read that a thread of this machine asks for.
pub(crate) fn read_for<R: Runner>(
    heap: &Heap<'_>,
    me: &mut Watched<'_>,
    machine: &R,
    base: WordValue,
    word: u32,
) -> Result<Answer, Refusal>
    requires asked { R.action machine.now ≡ Read base word }
    requires may { MayServe (machine_of R.action R.after_answer R.roots) R.fits heap.now me.old machine.now }
    ensures ok { IfOk result (λ answer. IsServed (machine_of R.action R.after_answer R.roots) heap.now me.old machine.now me.new (answer_in answer)) }
    ensures why { IfErr result (λ why. IsBreach me.old.setup me.old.log (R.roots machine.now) (R.action machine.now) (Refused why)) }
    ensures same { OnErr result (me.new ≡ me.old) }
{
    let cell = cell_of(heap, base);
    let value = me.read(heap, cell, word)?;
    me.is_of_run_law();
    Ok(got(value))
}

/// What was found in a word, as an answer.
fn got(value: u64) -> Answer
    ensures got { answer_in result ≡ Got (record { cell = value; birth = 0 }) }
    ensures small { value < 2 ^ 64 }
{
    Answer::Got(WordValue {
        cell: value,
        birth: 0,
    })
}

/// The store without the barrier that it asks for.
pub(crate) fn store_plain_for<R: Runner>(
    heap: &Heap<'_>,
    me: &mut Watched<'_>,
    machine: &R,
    base: WordValue,
    word: u32,
    value: WordValue,
) -> Result<Answer, Refusal>
    requires asked { R.action machine.now ≡ StorePlain base word value }
    requires may { MayServe (machine_of R.action R.after_answer R.roots) R.fits heap.now me.old machine.now }
    ensures ok { IfOk result (λ answer. IsServed (machine_of R.action R.after_answer R.roots) heap.now me.old machine.now me.new (answer_in answer)) }
    ensures why { IfErr result (λ why. IsBreach me.old.setup me.old.log (R.roots machine.now) (R.action machine.now) (Refused why)) }
    ensures same { OnErr result (me.new ≡ me.old) }
{
    let cell = cell_of(heap, base);
    me.store_plain(heap, cell, word, value.cell)?;
    Ok(Answer::Done)
}

/// The store after the barrier that it asks for.
pub(crate) fn write_for<R: Runner>(
    heap: &Heap<'_>,
    me: &mut Watched<'_>,
    machine: &R,
    base: WordValue,
    word: u32,
    value: WordValue,
) -> Result<Answer, Refusal>
    requires asked { R.action machine.now ≡ Write base word value }
    requires may { MayServe (machine_of R.action R.after_answer R.roots) R.fits heap.now me.old machine.now }
    ensures ok { IfOk result (λ answer. IsServed (machine_of R.action R.after_answer R.roots) heap.now me.old machine.now me.new (answer_in answer)) }
    ensures why { IfErr result (λ why. IsBreach me.old.setup me.old.log (R.roots machine.now) (R.action machine.now) (Refused why)) }
    ensures same { OnErr result (me.new ≡ me.old) }
{
    let cell = cell_of(heap, base);
    let new = cell_of(heap, value);
    me.write(heap, cell, word, new)?;
    Ok(Answer::Done)
}

/// The allocation that it asks for.
pub(crate) fn alloc_for<R: Runner>(
    heap: &Heap<'_>,
    me: &mut Watched<'_>,
    machine: &R,
    layout: LayoutId,
) -> Answer
    requires asked { R.action machine.now ≡ Alloc layout }
    requires may { MayServe (machine_of R.action R.after_answer R.roots) R.fits heap.now me.old machine.now }
    ensures { IsServed (machine_of R.action R.after_answer R.roots) heap.now me.old machine.now me.new (answer_in result) }
{
    let cell = me.alloc(heap, layout);
    got(u64::from(cell))
}

/// The safepoint that it asks for. Its roots are listed and tested ahead of the look at the posted stage, since a thread that has found
/// another stage there has to answer it.
pub(crate) fn safepoint_for<R: Runner>(
    heap: &Heap<'_>,
    me: &mut Watched<'_>,
    machine: &R,
    roots: &mut RootCells,
) -> Result<Answer, Halt>
    requires asked { R.action machine.now ≡ Safepoint }
    requires may { MayServe (machine_of R.action R.after_answer R.roots) R.fits heap.now me.old machine.now }
    requires listed { AreListed roots.old (R.roots machine.now) }
    ensures ok { IfOk result (λ answer. IsServed (machine_of R.action R.after_answer R.roots) heap.now me.old machine.now me.new (answer_in answer)) }
    ensures why { IfErr result (IsHalted me.old.setup me.old.log (R.roots machine.now) (R.action machine.now)) }
    ensures same { OnErr result (me.new ≡ me.old) }
    ensures listed { AreListed roots.new (R.roots machine.now) }
{
    list_roots(roots, heap, machine)?;
    let answered = me.safepoint(heap, roots.cells.as_slice())?;
    Ok(Answer::Answered(answered))
}
