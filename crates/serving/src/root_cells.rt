ghost use Rattle.std.specs.Prelude.{◌≡◌, ◌<◌, false, List, OnOk};
ghost use Rattle.pools.specs.Heap.{cells};
ghost use Rattle.runs.specs.Machine.{WordValue as AWordValue};
ghost use Rattle.runs.specs.Moves.{cells_of};
ghost use Rattle.moves.specs.RootsAfter.{IsToldOfRoots};
ghost use Rattle.serving.specs.Serving.{AreListed};

use heap_table::{Heap, Mutator};
use moves::{RootsAfter, Runner, WordValue};
use std::alloc::{AllocError, Global};

/// The cells of a thread's roots. They are kept from one listing to the next, so that a thread seldom takes memory for them.
#[derive(Drop)]
pub struct RootCells {
    pub cells: Vec<u32>,
    /// No root has changed since they were listed.
    pub are_current: bool,
}

impl RootCells {
    /// No list.
    pub fn new(alloc: Global) -> Self
        ensures { result.are_current ≡ false }
    {
        RootCells {
            cells: Vec::new(alloc),
            are_current: false,
        }
    }

    /// Lists the roots of the thread, where they may have changed.
    pub fn list<R: Runner>(
        &mut self,
        heap: &Heap<'_>,
        me: &Mutator,
        machine: &R,
    ) -> Result<(), AllocError>
        requires same { me.now.setup ≡ heap.now.setup }
        requires fits { R.fits me.now.setup machine.now }
        requires listed { AreListed self.old (R.roots machine.now) }
        ensures cells { OnOk result (self.new.cells.items ≡ cells_of (R.roots machine.now)) }
        ensures listed { AreListed self.new (R.roots machine.now) }
    {
        if self.are_current {
            return Ok(());
        }
        fill(&mut self.cells, heap, me, machine)?;
        self.are_current = true;
        Ok(())
    }

    /// The thread has gone on, and this is told of its roots.
    pub fn follow(&mut self, after: RootsAfter)
        ensures { (before roots : List AWordValue) → IsToldOfRoots after before roots → AreListed self.old before → AreListed self.new roots }
    {
        if let RootsAfter::Others = after {
            self.are_current = false;
        }
    }
}

/// Puts the cells of the thread's roots in place of those in the list.
fn fill<R: Runner>(
    list: &mut Vec<u32>,
    heap: &Heap<'_>,
    me: &Mutator,
    machine: &R,
) -> Result<(), AllocError>
    requires same { me.now.setup ≡ heap.now.setup }
    requires fits { R.fits me.now.setup machine.now }
    ensures { OnOk result (list.new.items ≡ cells_of (R.roots machine.now)) }
{
    let roots = machine.root_references()?;
    list.clear();
    for root in &roots {
        list.push(cell_of(heap, *root))?;
    }
    Ok(())
}

/// The number of a reference's cell.
pub(crate) fn cell_of(heap: &Heap<'_>, at: WordValue) -> u32
    requires { at.cell < cells heap.now.setup }
    ensures { result ≡ at.cell }
{
    heap.few_cells_law();
    at.cell as u32
}
