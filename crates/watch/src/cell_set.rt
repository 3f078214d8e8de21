ghost use Rattle.std.specs.Prelude.{◌≡◌, ◌<◌, false, true, length, replicate, slice_set, IfOk};
ghost use Rattle.watch.specs.CellSets.{has, with_cell, with_cells};

use std::alloc::{AllocError, Global};
use std::marker::Model;

/// A set of cells that is emptied in one step. A cell is in the set if it has the stamp of the present round.
#[derive(Drop)]
pub struct CellSet {
    stamps: Vec<u32>,
    round: u32,
}

impl Model for CellSet {
    ghost use Rattle.std.specs.Prelude.{◌<◌, ◌≤◌, Bool, List, All};
    ghost use Rattle.watch.specs.CellSets.{of_round};

    ghost Value = { List Bool };

    ghost view = { λ set. of_round set.round set.stamps.items };

    ghost invariant = { λ set. (0 < set.round) × All (λ stamp. stamp ≤ set.round) set.stamps.items };
}

impl CellSet {
    /// The empty set, of this number of cells.
    pub fn new(alloc: Global, cells: u32) -> Result<Self, AllocError>
        ensures { IfOk result (λ set. set ≡ replicate cells false) }
    {
        let stamps = Vec::from_elem(alloc, 0, cells as usize)?;
        Ok(CellSet { stamps, round: 1 })
    }

    /// Whether the cell is in the set; one without a stamp never is.
    pub fn has(&self, cell: u32) -> bool
        ensures { result ≡ has self.now cell }
    {
        match self.stamps.get(cell as usize) {
            Some(stamp) => *stamp == self.round,
            None => false,
        }
    }

    /// The set with this cell too; one without a stamp is left out.
    pub fn add(&mut self, cell: u32)
        ensures { self.new ≡ slice_set self.old cell true }
    {
        let place = cell as usize;
        if place < self.stamps.len() {
            self.stamps[place] = self.round;
        }
    }

    /// The set with these cells too, null left out.
    pub fn add_all(&mut self, cells: &[u32])
        ensures { self.new ≡ with_cells self.old cells.now }
    {
        for cell in cells {
            self.add_reference(*cell);
        }
    }

    /// The set with this cell too, if it is not null.
    fn add_reference(&mut self, cell: u32)
        ensures { self.new ≡ with_cell self.old cell }
    {
        if cell != 0 {
            self.add(cell);
        }
    }

    /// The set without this cell.
    pub fn remove(&mut self, cell: u32)
        ensures { self.new ≡ slice_set self.old cell false }
    {
        let place = cell as usize;
        if place < self.stamps.len() {
            self.stamps[place] = 0;
        }
    }

    /// The empty set: a new round begins. At the last number of a round each cell gets the stamp of no round, and the rounds
    /// begin anew.
    #[tactic(auto, using(crate::proofs::Rounds::emptied))]
    pub fn clear(&mut self)
        ensures { self.new ≡ replicate (length self.old) false }
    {
        if self.round == u32::MAX {
            self.forget();
        } else {
            self.round += 1;
        }
    }

    /// The empty set, in the first round.
    #[tactic(auto, using(crate::proofs::Rounds::emptied))]
    fn forget(&mut self)
        ensures { self.new ≡ replicate (length self.old) false }
    {
        for stamp in self.stamps.iter_mut() {
            *stamp = 0;
        }
        self.round = 1;
    }
}
