ghost use Rattle.std.specs.Prelude.{ℕ, ◌≡◌, ◌+◌, ◌<◌, ◌^◌, List, length, min, slice_index};
ghost use Rattle.pools.specs.Heap.{Setup};
ghost use Rattle.colours.specs.Calls.{cells_from};
ghost use Rattle.runs.specs.Machine.{WordValue as AWordValue};
ghost use Rattle.runs.specs.Moves.{step_of};
ghost use Rattle.runs.specs.Tries.{hints_by};
ghost use Rattle.moves.specs.Calls.{action_of, move_in};
ghost use Rattle.moves.specs.Moving.{HasHint, WinsOfLayout};
ghost use Rattle.moves.specs.Stands.{cells_by};

use crate::call::Call;
use crate::moves::Move;
use items::Items;
use pools::{LayoutId, Pools};

/// The cell that a thread with these hints tries after this number of a pool's cells.
pub(crate) fn next_cell(pools: &Pools, hints: &Items<u32>, layout: LayoutId, tried: u64) -> u64
    requires is_layout { layout < length pools.now }
    requires left { tried < slice_index pools.now layout }
    ensures { (s : Setup) → s.pools ≡ pools.now → result ≡ slice_index (cells_by s hints.now layout) tried }
{
    let place = place_from(hint_of(hints, layout), pools.count(layout), tried);
    u64::from(pools.first_cell(layout)) + place
}

/// The hint for a layout.
fn hint_of(hints: &Items<u32>, layout: LayoutId) -> u32
    ensures { result ≡ slice_index hints.now layout }
{
    hints.get(layout.number() as usize).copied().unwrap_or(0)
}

/// The place of a cell in its pool, from its place in the order of tries: from the hint up, and then from the first cell up.
fn place_from(hint: u32, count: u32, tried: u64) -> u64
    requires { tried < count }
    ensures cell { (first : ℕ) → first + result ≡ slice_index (cells_from first count (min hint count)) tried }
    ensures within { result < count }
{
    let count = u64::from(count);
    let place = u64::from(hint).min(count) + tried;
    if place < count { place } else { place - count }
}

/// Where the thread won a cell, the hint for the cell's layout becomes the place after it.
pub(crate) fn record_win(pools: &Pools, call: &Call, hints: &mut Items<u32>, made: &Move)
    requires { HasHint pools.now hints.old made.now (action_of call.now) }
    ensures { (s : Setup) (roots : List AWordValue) → s.pools ≡ pools.now → WinsOfLayout s made.now call.now
        → hints.new ≡ hints_by s hints.old (step_of (move_in roots made.now)) }
{
    let Move::Claims { claimed, won } = made else {
        return;
    };
    let Call::Alloc(layout) = call else {
        return;
    };
    if *won {
        let first = u64::from(pools.first_cell(*layout));
        hints.set(layout.number() as usize, (claimed.cell + 1 - first) as u32);
    }
}
