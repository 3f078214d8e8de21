ghost use Rattle.std.specs.Prelude.{◌≡◌, ◌<◌, ◌≤◌, ◌^◌, ◌↔◌, IsTrue};
ghost use Rattle.pools.specs.Heap.{cells, kind_of, words_of_cell, IsOfLayout};

use heap_table::Plan;
use pools::{LayoutId, WordKind};

/// What a word of a cell holds.
#[tactic(auto, unfolding(pools::specs::Heap::kind_of))]
pub(crate) fn kind_at(plan: &Plan<'_>, cell: u32, word: u32) -> Option<WordKind>
    requires { cell < cells plan.now }
    ensures { result ≡ kind_of plan.now cell word }
{
    words_at(plan, cell).get(word as usize).copied()
}

/// The kinds of a cell's words.
fn words_at<'b>(plan: &'b Plan<'_>, cell: u32) -> &'b [WordKind]
    requires { cell < cells plan.now }
    ensures { result.now ≡ words_of_cell plan.now cell }
{
    if cell == 0 {
        return plan.globals;
    }
    plan.layouts.words(plan.pools.pool_of(cell))
}

/// Whether a cell is one of this layout.
#[tactic(auto, unfolding(pools::specs::Heap::layout_of))]
pub(crate) fn is_of(plan: &Plan<'_>, layout: LayoutId, cell: u32) -> bool
    requires some { 0 < cell }
    requires cell { cell < cells plan.now }
    ensures { IsTrue result ↔ IsOfLayout plan.now layout cell }
{
    plan.pools.pool_of(cell).number() == layout.number()
}

/// Whether it is the number of a cell.
pub(crate) fn is_cell(plan: &Plan<'_>, number: u64) -> bool
    ensures cell { IsTrue result ↔ (number < cells plan.now) }
    ensures few { cells plan.now ≤ 2 ^ 20 }
{
    number < u64::from(plan.pools.cells())
}

/// Whether a number fits a word of this many bits.
pub(crate) fn fits(bits: u32, number: u64) -> bool
    ensures { IsTrue result ↔ (number < 2 ^ bits) }
{
    bits >= u64::BITS || number >> bits == 0
}
