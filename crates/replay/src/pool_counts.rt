//! How many cells each pool of a setup has, and pools with as many.
ghost use Rattle.std.specs.Prelude.{◌≡◌, ◌≤◌, ◌^◌, length, IfOk};
ghost use Rattle.pools.specs.Heap.{cells_in};

use items::Items;
use layout::{Pools, Program};
use pools::LayoutId;
use std::alloc::{AllocError, Global};

/// How many cells there are of each layout.
pub fn counts_in(alloc: Global, pools: &Pools, layouts: u32) -> Result<Items<u32>, AllocError>
    requires { layouts ≡ length pools.now }
    ensures { IfOk result (λ counts. counts ≡ pools.now) }
{
    let mut counts = Items::new(alloc);
    for layout in 0..layouts {
        counts.push(pools.count(LayoutId::new(layout)))?;
    }
    Ok(counts)
}

/// Pools of a program with these counts. Too many cells count as no memory for them.
pub fn pools_with(alloc: Global, program: &Program, counts: &[u32]) -> Result<Pools, AllocError>
    ensures pools { IfOk result (λ pools. pools ≡ counts.now) }
    ensures few { IfOk result (λ pools. cells_in pools ≤ 2 ^ 20) }
{
    let layouts = program.layouts();
    if u32::try_from(layouts.count()).is_err() {
        return Err(AllocError);
    }
    match Pools::new(alloc, layouts, counts) {
        Ok(pools) => {
            let _cells = pools.cells();
            Ok(pools)
        }
        Err(_) => Err(AllocError),
    }
}
