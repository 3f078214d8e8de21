ghost use Rattle.std.specs.Prelude.{◌≡◌, IfOk, OnErr};
ghost use Rattle.runs.specs.Machine.{machine_of, Read, StorePlain, Write, Alloc, Safepoint};
ghost use Rattle.moves.specs.Calls.{answer_in};
ghost use Rattle.serving.specs.Serving.{MayServe, IsServed, AreListed};

use crate::root_cells::{RootCells, cell_of};
use heap_table::{Heap, Mutator};
use moves::{Answer, NULL, Runner, WordValue};
use pools::LayoutId;
use std::alloc::AllocError;

/// The read that a thread of this machine asks for.
pub fn read_for<R: Runner>(
    heap: &Heap<'_>,
    me: &mut Mutator,
    machine: &R,
    base: WordValue,
    word: u32,
) -> Answer
    requires asked { R.action machine.now ≡ Read base word }
    requires may { MayServe (machine_of R.action R.after_answer R.roots) R.fits heap.now me.old machine.now }
    ensures { IsServed (machine_of R.action R.after_answer R.roots) heap.now me.old machine.now me.new (answer_in result) }
{
    me.is_of_run_law();
    let cell = cell_of(heap, base);
    let value = heap.read(me, cell, word);
    Answer::Got(WordValue {
        cell: value,
        birth: 0,
    })
}

/// The store without the barrier that it asks for.
pub fn store_plain_for<R: Runner>(
    heap: &Heap<'_>,
    me: &mut Mutator,
    machine: &R,
    base: WordValue,
    word: u32,
    value: WordValue,
) -> Answer
    requires asked { R.action machine.now ≡ StorePlain base word value }
    requires may { MayServe (machine_of R.action R.after_answer R.roots) R.fits heap.now me.old machine.now }
    ensures { IsServed (machine_of R.action R.after_answer R.roots) heap.now me.old machine.now me.new (answer_in result) }
{
    me.is_of_run_law();
    let cell = cell_of(heap, base);
    heap.store_plain(me, cell, word, value.cell);
    Answer::Done
}

/// The store after the barrier that it asks for.
pub fn write_for<R: Runner>(
    heap: &Heap<'_>,
    me: &mut Mutator,
    machine: &R,
    base: WordValue,
    word: u32,
    value: WordValue,
) -> Answer
    requires asked { R.action machine.now ≡ Write base word value }
    requires may { MayServe (machine_of R.action R.after_answer R.roots) R.fits heap.now me.old machine.now }
    ensures { IsServed (machine_of R.action R.after_answer R.roots) heap.now me.old machine.now me.new (answer_in result) }
{
    me.is_of_run_law();
    let cell = cell_of(heap, base);
    let new = cell_of(heap, value);
    heap.write(me, cell, word, new);
    Answer::Done
}

/// The allocation that it asks for. No cell is tried where the layout has none.
pub fn alloc_for<R: Runner>(
    heap: &Heap<'_>,
    me: &mut Mutator,
    machine: &R,
    layout: LayoutId,
) -> Answer
    requires asked { R.action machine.now ≡ Alloc layout }
    requires may { MayServe (machine_of R.action R.after_answer R.roots) R.fits heap.now me.old machine.now }
    ensures { IsServed (machine_of R.action R.after_answer R.roots) heap.now me.old machine.now me.new (answer_in result) }
{
    if heap.count(layout) == 0 {
        return Answer::Got(NULL);
    }
    let cell = heap.alloc(me, layout);
    Answer::Got(WordValue {
        cell: u64::from(cell),
        birth: 0,
    })
}

/// The safepoint that it asks for. The roots are listed ahead of the look at the posted stage, since a thread that has found another
/// stage there has to answer it. Without memory no step is made.
pub fn safepoint_for<R: Runner>(
    heap: &Heap<'_>,
    me: &mut Mutator,
    machine: &R,
    roots: &mut RootCells,
) -> Result<Answer, AllocError>
    requires asked { R.action machine.now ≡ Safepoint }
    requires may { MayServe (machine_of R.action R.after_answer R.roots) R.fits heap.now me.old machine.now }
    requires listed { AreListed roots.old (R.roots machine.now) }
    ensures ok { IfOk result (λ answer. IsServed (machine_of R.action R.after_answer R.roots) heap.now me.old machine.now me.new (answer_in answer)) }
    ensures err { OnErr result (me.new ≡ me.old) }
    ensures listed { AreListed roots.new (R.roots machine.now) }
{
    me.is_of_run_law();
    roots.list(heap, me, machine)?;
    let Some(posted) = heap.poll(me) else {
        return Ok(Answer::Answered(None));
    };
    heap.respond(me, posted, roots.cells.as_slice());
    Ok(Answer::Answered(Some(posted)))
}
