ghost use Rattle.std.specs.Prelude.{◌≡◌, ◌≢◌, ◌+◌, ◌-◌, ◌<◌, ◌≤◌, ◌^◌, ◌↔◌, suc, Err, length, sum, take, slice_get, unwrap_or, true, false, nat_le, IfOk, IsTrue};
ghost use Rattle.std.specs.List.Sorted.{IsNonDecreasing, IsPartitionPoint};
ghost use Rattle.pools.specs.Heap.{cells_in, layout_at};
ghost use Rattle.pools.specs.Pools.{ends_from, first_cell};
ghost use Rattle.pools.specs.declared.pools_fault.PoolsFault.TheVariants.{Mismatch, TooManyCells};

use crate::layout_id::LayoutId;
use crate::layouts::Layouts;
use crate::pools_fault::PoolsFault;
use items::Items;
use std::alloc::{AllocError, Global};
use std::marker::Model;

/// How many cells a heap may have, the globals' cell among them.
pub const CELL_LIMIT: u32 = 1 << 20;

/// How many cells each layout has. Cells are numbered from 1, the first layout's pool first.
#[derive(Drop)]
pub struct Pools {
    counts: Items<u32>,
    /// For each pool the number after that of its last cell.
    ends: Items<u32>,
}

impl Model for Pools {
    ghost use Rattle.std.specs.Prelude.{List, ℕ};
    ghost use Rattle.pools.specs.Pools.{ArePools};

    ghost Value = { List ℕ };

    ghost view = { λ pools. pools.counts };

    ghost invariant = { λ pools. ArePools pools.counts pools.ends };
}

impl Pools {
    /// One count for each layout.
    pub fn new(alloc: Global, layouts: &Layouts, counts: &[u32]) -> Result<Self, PoolsFault>
        requires { length layouts.now < 2 ^ 32 }
        ensures ok { IfOk result (λ pools. pools ≡ counts.now) }
        ensures mismatch { (result ≡ Err Mismatch) ↔ (length counts.now ≢ length layouts.now) }
        ensures too_many { (result ≡ Err TooManyCells) ↔ ((length counts.now ≡ length layouts.now) × (2 ^ 20 < cells_in counts.now)) }
    {
        if counts.len() != layouts.count() {
            return Err(PoolsFault::Mismatch);
        }
        if !fits(counts) {
            return Err(PoolsFault::TooManyCells);
        }
        let ends = ends_of(alloc, counts).map_err(PoolsFault::Memory)?;
        let counts = Items::from_slice(alloc, counts).map_err(PoolsFault::Memory)?;
        Ok(Pools { counts, ends })
    }

    /// How many cells there are, the globals' cell among them.
    pub fn cells(&self) -> u32
        ensures cells { result ≡ cells_in self.now }
        ensures limit { cells_in self.now ≤ 2 ^ 20 }
    {
        1 + self.counts.as_slice().iter().sum::<u32>()
    }

    /// How many cells of this layout there are.
    pub fn count(&self, layout: LayoutId) -> u32
        ensures { result ≡ unwrap_or (slice_get self.now layout) 0 }
    {
        self.counts
            .get(layout.number() as usize)
            .copied()
            .unwrap_or(0)
    }

    /// The number of a layout's first cell. Its other cells have the numbers after it.
    pub fn first_cell(&self, layout: LayoutId) -> u32
        requires { layout < length self.now }
        ensures { result ≡ first_cell self.now layout }
    {
        first_of(
            self.counts.as_slice(),
            self.ends.as_slice(),
            layout.number() as usize,
        )
    }

    /// The layout of a cell.
    pub fn pool_of(&self, cell: u32) -> LayoutId
        requires not_globals { 0 < cell }
        requires is_cell { cell < cells_in self.now }
        ensures layout { result ≡ layout_at self.now (cell - 1) }
        ensures is_layout { result < length self.now }
    {
        LayoutId::new(count_up_to(self.ends.as_slice(), cell) as u32)
    }
}

/// Whether this number of cells is within the limit.
fn fits(counts: &[u32]) -> bool
    ensures { IsTrue result ↔ (cells_in counts.now ≤ 2 ^ 20) }
{
    let mut cells: u32 = 1;
    for count in counts {
        if *count > CELL_LIMIT - cells {
            return false;
        }
        cells += *count;
    }
    true
}

/// For each pool the number after that of its last cell.
fn ends_of(alloc: Global, counts: &[u32]) -> Result<Items<u32>, AllocError>
    requires { cells_in counts.now ≤ 2 ^ 20 }
    ensures { IfOk result (λ ends. ends ≡ ends_from 1 counts.now) }
{
    let mut ends = Items::new(alloc);
    let mut end: u32 = 1;
    for count in counts {
        end += *count;
        ends.push(end)?;
    }
    Ok(ends)
}

/// How many of these numbers, which do not fall, are at most this one.
fn count_up_to(ends: &[u32], cell: u32) -> usize
    requires { IsNonDecreasing ends.now }
    ensures bound { result ≤ length ends.now }
    ensures point { IsPartitionPoint (λ end. nat_le end cell ≡ true) (λ end. nat_le end cell ≡ false) ends.now result }
{
    ends.partition_point(|end| *end <= cell)
}

/// The first number of a pool, found from its end.
fn first_of(counts: &[u32], ends: &[u32], layout: usize) -> u32
    requires ends_are { ends.now ≡ ends_from 1 counts.now }
    requires is_layout { layout < length counts.now }
    ensures { result ≡ first_cell counts.now layout }
{
    ends[layout] - counts[layout]
}
