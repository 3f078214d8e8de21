//! Traces with a thread less, or with fewer cells.
ghost use Rattle.std.specs.Prelude.{ℕ, ◌≡◌, ◌<◌, ◌≤◌, ◌-◌, ◌^◌, ◌++◌, take, drop, suc, length, slice_set, ◌+◌, IfOk, IfSome, OnOk};
ghost use Rattle.moves.specs.Runs.{IsActor};
ghost use Rattle.pools.specs.Heap.{cells_in};
ghost use Rattle.trace_text.specs.Traces.{IsTraceOf, step_sum};
ghost use Rattle.hunting.specs.Parts.{AreOfActors};

use crate::lines::add_line;
use items::Items;
use layout::{Pools, Program};
use moves::Actor;
use replay::{add_starts, counts_in, pools_copied, pools_with, starts_copied};
use std::alloc::{AllocError, Global};
use trace_text::{Setup, Start, Steps, Trace};

/// The starts without that at a place.
fn starts_without(alloc: Global, starts: &[Start], place: usize) -> Result<Items<Start>, AllocError>
    requires { place < length starts.now }
    ensures { IfOk result (λ fewer. fewer ≡ take place starts.now ++ drop (suc place) starts.now) }
{
    let mut fewer = Items::new(alloc);
    add_starts(alloc, &mut fewer, &starts[..place])?;
    add_starts(alloc, &mut fewer, &starts[place + 1..])?;
    Ok(fewer)
}

/// The actor, where a thread is left out; None is that thread. Those after it have the numbers before theirs.
fn actor_without(actor: Actor, thread: u32) -> Option<Actor>
    ensures { (threads : ℕ) → thread < threads → IsActor threads actor → IfSome result (IsActor (threads - 1)) }
{
    match actor {
        Actor::Thread(other) if other > thread => Some(Actor::Thread(other - 1)),
        Actor::Thread(other) if other == thread => None,
        _ => Some(actor),
    }
}

/// A line more, if it is not of a thread.
fn add_other(fewer: &mut Items<Steps>, line: Steps, thread: u32) -> Result<(), AllocError>
    ensures actors { (threads : ℕ) → thread < threads → IsActor threads line.actor → AreOfActors (threads - 1) fewer.old → OnOk result (AreOfActors (threads - 1) fewer.new) }
    ensures sum { OnOk result (step_sum fewer.new ≤ step_sum fewer.old + line.count) }
{
    match actor_without(line.actor, thread) {
        Some(actor) => {
            let count = line.count;
            add_line(fewer, Steps { actor, count })?;
            Ok(())
        }
        None => Ok(()),
    }
}

/// The lines that are not of a thread.
fn lines_without(alloc: Global, lines: &[Steps], thread: u32) -> Result<Items<Steps>, AllocError>
    ensures actors { (threads : ℕ) → thread < threads → AreOfActors threads lines.now → IfOk result (AreOfActors (threads - 1)) }
    ensures sum { IfOk result (λ fewer. step_sum fewer ≤ step_sum lines.now) }
{
    let mut fewer = Items::new(alloc);
    for line in lines {
        add_other(&mut fewer, *line, thread)?;
    }
    Ok(fewer)
}

/// The trace without a thread and its steps.
pub fn without_thread(
    alloc: Global,
    program: &Program,
    trace: &Trace,
    thread: u32,
) -> Result<Trace, AllocError>
    requires is_trace { IsTraceOf program.now trace.now }
    requires thread { thread < length trace.now.setup.starts }
    ensures is_trace { IfOk result (IsTraceOf program.now) }
    ensures pools { IfOk result (λ fewer. fewer.setup.pools ≡ trace.now.setup.pools) }
    ensures starts { IfOk result (λ fewer. fewer.setup.starts ≡ take thread trace.now.setup.starts ++ drop (suc thread) trace.now.setup.starts) }
{
    let pools = pools_copied(alloc, program, &trace.setup.pools)?;
    let starts = starts_without(alloc, trace.setup.starts.as_slice(), thread as usize)?;
    let steps = lines_without(alloc, trace.steps.as_slice(), thread)?;
    Ok(Trace {
        setup: Setup { pools, starts },
        steps,
    })
}

/// Puts a count in the place of that of a layout, if there is such a layout.
fn put_count(counts: &mut Items<u32>, layout: usize, count: u32)
    ensures as_many { length counts.new ≡ length counts.old }
    ensures counts { layout < length counts.old → counts.new ≡ slice_set counts.old layout count }
{
    if layout < counts.len() {
        counts.set(layout, count);
    }
}

/// The pools with this count of cells of one layout.
fn pools_with_fewer(
    alloc: Global,
    program: &Program,
    pools: &Pools,
    layout: usize,
    count: u32,
) -> Result<Pools, AllocError>
    requires { length pools.now ≡ length program.now.layouts }
    ensures one_each { IfOk result (λ fewer. length fewer ≡ length program.now.layouts) }
    ensures few { IfOk result (λ fewer. cells_in fewer ≤ 2 ^ 20) }
    ensures pools { layout < length pools.now → IfOk result (λ fewer. fewer ≡ slice_set pools.now layout count) }
{
    let Ok(layouts) = u32::try_from(program.layouts().count()) else {
        return Err(AllocError);
    };
    let mut counts = counts_in(alloc, pools, layouts)?;
    put_count(&mut counts, layout, count);
    pools_with(alloc, program, counts.as_slice())
}

/// The trace with this count of cells of one layout.
pub fn with_fewer_cells(
    alloc: Global,
    program: &Program,
    trace: &Trace,
    layout: usize,
    count: u32,
) -> Result<Trace, AllocError>
    requires { IsTraceOf program.now trace.now }
    ensures is_trace { IfOk result (IsTraceOf program.now) }
    ensures pools { layout < length trace.now.setup.pools → IfOk result (λ fewer. fewer.setup.pools ≡ slice_set trace.now.setup.pools layout count) }
    ensures starts { IfOk result (λ fewer. fewer.setup.starts ≡ trace.now.setup.starts) }
    ensures steps { IfOk result (λ fewer. fewer.steps ≡ trace.now.steps) }
{
    let pools = pools_with_fewer(alloc, program, &trace.setup.pools, layout, count)?;
    let starts = starts_copied(alloc, trace.setup.starts.as_slice())?;
    let steps = Items::from_slice(alloc, trace.steps.as_slice())?;
    Ok(Trace {
        setup: Setup { pools, starts },
        steps,
    })
}
