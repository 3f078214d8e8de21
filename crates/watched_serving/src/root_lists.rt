ghost use Rattle.std.specs.Prelude.{◌≡◌, ◌<◌, OnOk};
ghost use Rattle.pools.specs.Heap.{cells};
ghost use Rattle.runs.specs.Moves.{cells_of};
ghost use Rattle.serving.specs.Serving.{AreListed};

use heap_table::Heap;
use moves::{Runner, WordValue};
use serving::RootCells;
use std::alloc::AllocError;

/// Lists the roots of a thread, where they may have changed.
pub(crate) fn list_roots<R: Runner>(
    list: &mut RootCells,
    heap: &Heap<'_>,
    machine: &R,
) -> Result<(), AllocError>
    requires fits { R.fits heap.now.setup machine.now }
    requires listed { AreListed list.old (R.roots machine.now) }
    ensures cells { OnOk result (list.new.cells.items ≡ cells_of (R.roots machine.now)) }
    ensures listed { AreListed list.new (R.roots machine.now) }
{
    if list.are_current {
        return Ok(());
    }
    fill(&mut list.cells, heap, machine)?;
    list.are_current = true;
    Ok(())
}

/// Puts the cells of the thread's roots in place of those in the list.
fn fill<R: Runner>(list: &mut Vec<u32>, heap: &Heap<'_>, machine: &R) -> Result<(), AllocError>
    requires fits { R.fits heap.now.setup machine.now }
    ensures { OnOk result (list.new.items ≡ cells_of (R.roots machine.now)) }
{
    let roots = machine.root_references()?;
    list.clear();
    for root in &roots {
        list.push(cell_of(heap, *root))?;
    }
    Ok(())
}

/// The number of a reference's cell.
pub(crate) fn cell_of(heap: &Heap<'_>, at: WordValue) -> u32
    requires { at.cell < cells heap.now.setup }
    ensures { result ≡ at.cell }
{
    heap.few_cells_law();
    at.cell as u32
}
