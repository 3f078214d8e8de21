//! How the words of a heap begin.
ghost use Rattle.std.specs.Prelude.{◌≡◌, ◌+◌, ◌<◌, ◌^◌, ℕ, length, slice_index, IfOk, All};
ghost use Rattle.pools.specs.Heap.{cells, words_of_cell};
ghost use Rattle.heap_rule.specs.Rule.{size};
ghost use Rattle.heap_words.specs.Places.{AreStarts};
ghost use Rattle.heap_words.specs.Opening.{opening_word, stage_at_start};

use colours::DONE;
use heap_rule::Plan;
use std::alloc::{AllocError, Global};

/// Each place of the table is a number of the machine.
pub(crate) fn is_small(plan: &Plan<'_>)
    requires threads { plan.now.threads < 2 ^ 32 }
    requires globals { length plan.now.globals < 2 ^ 32 }
    requires words { All (λ words. length words < 2 ^ 32) plan.now.layouts }
    ensures { size plan.now < 2 ^ 63 }
{
    let _cells = plan.pools.cells();
}

/// Where each cell begins, and where the table ends.
pub(crate) fn starts_of(alloc: Global, plan: &Plan<'_>) -> Result<Vec<usize>, AllocError>
    requires { size plan.now < 2 ^ 63 }
    ensures { IfOk result (λ starts. AreStarts plan.now starts.items) }
{
    let cells = plan.pools.cells();
    let mut starts = Vec::with_capacity(alloc, cells as usize + 1)?;
    let mut next = plan.threads + 1;
    for cell in 0..cells {
        starts.push(next)?;
        next += count_words(plan, cell) + 1;
    }
    starts.push(next)?;
    Ok(starts)
}

/// How many words a cell has, its colour not counted.
fn count_words(plan: &Plan<'_>, cell: u32) -> usize
    requires { cell < cells plan.now }
    ensures { result ≡ length (words_of_cell plan.now cell) }
{
    if cell == 0 {
        return plan.globals.len();
    }
    plan.layouts.words(plan.pools.pool_of(cell)).len()
}

/// The words of the table at the start.
pub(crate) fn opening_words(
    alloc: Global,
    plan: &Plan<'_>,
    count: usize,
) -> Result<Vec<u64>, AllocError>
    ensures count { IfOk result (λ words. length words.items ≡ count) }
    ensures words { IfOk result (λ words. (at : ℕ) → at < count → slice_index words.items at ≡ opening_word plan.now at) }
{
    let mut words = Vec::with_capacity(alloc, count)?;
    for at in 0..count {
        words.push(opening_word(plan, at))?;
    }
    Ok(words)
}

/// What a place of the table holds at the start.
fn opening_word(plan: &Plan<'_>, at: usize) -> u64
    ensures { result ≡ opening_word plan.now at }
{
    if at == 0 {
        return 0;
    }
    let after = at - 1;
    if after < plan.threads {
        return stage_at_start(plan, after);
    }
    if after == plan.threads {
        return 1;
    }
    plan.values
        .get(after - plan.threads - 1)
        .copied()
        .unwrap_or(0)
}

/// The stage word of a thread at the start. A late thread is absent: its word is `DONE`.
fn stage_at_start(plan: &Plan<'_>, thread: usize) -> u64
    ensures { result ≡ stage_at_start plan.now thread }
{
    if plan.late.get(thread).copied().unwrap_or(false) {
        DONE
    } else {
        0
    }
}
