ghost use Rattle.std.specs.Prelude.{◌≡◌, ◌+◌, ◌<◌, [], ◌∷◌, length, nat_lt, if◌then◌else◌, Option, None, Some};
ghost use Rattle.trace_sweep.specs.Turns.{list_limit};
ghost use Rattle.trace_sweep.specs.Newest.{first_of, rest_of};

use std::marker::Model;

/// How many cells are listed at most. This is a limit of speed, not of safety: a grey cell that is not listed is looked at in its turn.
const LIMIT: usize = 64;

/// Cells that the trace under way made grey, to be looked at out of turn.
#[derive(Drop)]
pub struct Shades {
    cells: [u32; LIMIT],
    count: usize,
}

impl Model for Shades {
    ghost use Rattle.std.specs.Prelude.{List, ℕ, ◌≤◌, ◌≡◌, length};
    ghost use Rattle.trace_sweep.specs.Newest.{newest};

    ghost Value = { List ℕ };

    ghost view = { λ shades. newest shades.cells shades.count };

    ghost invariant = { λ shades. (shades.count ≤ 64) × (length shades.cells ≡ 64) };
}

impl Shades {
    /// No cell.
    pub fn new() -> Self
        ensures { result ≡ [] }
    {
        Shades {
            cells: [0; LIMIT],
            count: 0,
        }
    }

    /// The newest cell.
    pub fn newest(&self) -> Option<u32>
        ensures { result ≡ first_of self.now }
    {
        if self.count == 0 {
            return None;
        }
        Some(self.cells[self.count - 1])
    }

    /// Lists the cell, where there is room.
    pub fn add(&mut self, cell: u32)
        ensures { self.new ≡ (if nat_lt (length self.old) list_limit then cell ∷ self.old else self.old) }
    {
        if self.count < LIMIT {
            self.cells[self.count] = cell;
            self.count += 1;
        }
    }

    /// Takes the newest cell off.
    pub fn take_off(&mut self)
        ensures { self.new ≡ rest_of self.old }
    {
        if self.count > 0 {
            self.count -= 1;
        }
    }

    /// Takes all cells off.
    pub fn clear(&mut self)
        ensures { self.new ≡ [] }
    {
        self.count = 0;
    }
}
