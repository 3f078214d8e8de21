ghost use Rattle.std.specs.Prelude.{ℕ, ◌≡◌, ◌<◌, ◌≤◌, ◌^◌, [], length, map, slice_index, IfOk};
ghost use Rattle.pools.specs.Heap.{Setup, IsSetup, cells_in, cells};
ghost use Rattle.stepping.specs.Reach.{IsSchemaOf};
ghost use Rattle.moves.specs.Shared.{ThreadStateAfter};
ghost use Rattle.stepping.specs.Starts as starts;
ghost use Rattle.stepping.specs.Starts.{IsRowAtStart, AreRowsAtStart};

use crate::gone::HeapSchema;
use colours::DONE;
use items::Items;
use moves::{CallPhase, CellWords, NULL, Shared, ThreadState, WordValue};
use std::alloc::{AllocError, Global};

/// A thread before the first step.
#[derive(Drop)]
pub struct NewThread<M> {
    /// Its machine, at the beginning.
    pub machine: M,
    /// It begins while others run.
    pub is_late: bool,
}

/// The shared words before the first step: all cells are free but that of the globals, and hold null or 0.
pub(crate) fn shared_at_start<M>(
    alloc: Global,
    schema: HeapSchema<'_>,
    values: &[u64],
    threads: &[NewThread<M>],
) -> Result<Shared, AllocError>
    ensures afterwards { (s : Setup) → IsSchemaOf s schema.entry → IsSetup s → s.late ≡ map (λ (thread : NewThread M). thread.is_late) threads.now → s.threads ≡ length threads.now → s.values ≡ values.now → IfOk result (ThreadStateAfter s []) }
    ensures limit { cells_in schema.entry.pools.now ≤ 2 ^ 20 }
{
    let cells = schema.pools.cells();
    let mut colours = zeros(alloc, cells as usize)?;
    colours.set(0, 1);
    Ok(Shared {
        posted: 0,
        stages: stages_at_start(alloc, threads)?,
        colours,
        births: zeros(alloc, cells as usize)?,
        words: rows_at_start(alloc, schema, values)?,
    })
}

/// The stage words before the first step.
fn stages_at_start<M>(alloc: Global, threads: &[NewThread<M>]) -> Result<Items<u64>, AllocError>
    ensures { IfOk result (λ stages. stages ≡ map (λ (thread : NewThread M). starts.stage_at_start thread.is_late) threads.now) }
{
    let stages: Vec<u64> = threads
        .iter()
        .map(|thread| if thread.is_late { DONE } else { 0 })
        .collect(alloc)?;
    Ok(Items::from_vec(stages))
}

/// This number of zeros.
fn zeros(alloc: Global, count: usize) -> Result<Items<u64>, AllocError>
    ensures count { IfOk result (λ numbers. length numbers ≡ count) }
    ensures zeros { IfOk result (λ numbers. (k : ℕ) → slice_index numbers k ≡ 0) }
{
    let mut numbers = Items::new(alloc);
    for _at in 0..count {
        numbers.push(0)?;
    }
    Ok(numbers)
}

/// The words of all cells before the first step.
fn rows_at_start(
    alloc: Global,
    schema: HeapSchema<'_>,
    values: &[u64],
) -> Result<CellWords, AllocError>
    ensures { (s : Setup) → IsSchemaOf s schema.entry → IsSetup s → s.values ≡ values.now → IfOk result (λ rows. AreRowsAtStart s (cells s) rows) }
{
    let mut rows = CellWords::new(alloc);
    for cell in 0..schema.pools.cells() {
        rows.push(row_at_start(alloc, schema, values, cell)?)?;
    }
    Ok(rows)
}

/// The words of a cell before the first step.
fn row_at_start(
    alloc: Global,
    schema: HeapSchema<'_>,
    values: &[u64],
    cell: u32,
) -> Result<Items<WordValue>, AllocError>
    requires { cell < cells_in schema.pools.now }
    ensures { (s : Setup) → IsSchemaOf s schema.entry → IsSetup s → s.values ≡ values.now → IfOk result (IsRowAtStart s cell) }
{
    let mut row = Items::new(alloc);
    for word in 0..schema.words(cell).len() {
        row.push(WordValue {
            cell: value_at_start(values, cell, word),
            birth: 0,
        })?;
    }
    Ok(row)
}

/// What a word holds before the first step.
fn value_at_start(values: &[u64], cell: u32, word: usize) -> u64
    ensures value { result ≡ starts.value_at_start values.now cell word }
    ensures fits { result < 2 ^ 64 }
{
    if cell == 0 {
        values.get(word).copied().unwrap_or(0)
    } else {
        0
    }
}

/// The threads before the first step, with a hint for each of this number of layouts.
pub(crate) fn stands_at_start<M: Drop>(
    alloc: Global,
    layouts: usize,
    threads: Vec<NewThread<M>>,
) -> Result<Vec<ThreadState<M>>, AllocError>
    ensures { IfOk result (λ stands. stands.items ≡ map (starts.thread_state_at_start layouts) threads.items) }
{
    let mut stands = Vec::new(alloc);
    for thread in threads {
        let thread_state = thread_state_at_start(alloc, layouts, thread)?;
        stands.push(thread_state)?;
    }
    Ok(stands)
}

/// A thread before its first move.
fn thread_state_at_start<M: Drop>(
    alloc: Global,
    layouts: usize,
    thread: NewThread<M>,
) -> Result<ThreadState<M>, AllocError>
    ensures { IfOk result (λ thread_state. thread_state ≡ starts.thread_state_at_start layouts thread) }
{
    let hints = vec![in alloc; 0_u32; layouts]?;
    let NewThread { machine, is_late } = thread;
    Ok(ThreadState {
        state: machine,
        stage: 0,
        call_phase: if is_late {
            CallPhase::Absent
        } else {
            CallPhase::Ready
        },
        replaced: NULL,
        hints: Items::from_vec(hints),
    })
}
