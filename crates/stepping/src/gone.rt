ghost use Rattle.std.specs.Prelude.{◌≡◌, ◌<◌, slice_get};
ghost use Rattle.pools.specs.Heap.{Setup, cells_in, cells, kind_of, words_of_cell};
ghost use Rattle.stepping.specs.Reach.{IsSchemaOf};

use pools::{Layouts, Pools, WordKind};

/// A reference is gone that can be reached.
#[derive(Clone, Copy)]
pub enum Gone {
    /// This cell can be reached, and is free.
    Blue(u64),
    /// This cell can be reached by a reference of another birth.
    Reborn(u64),
}

/// What is known of a heap's cells that stays as it is.
#[derive(Clone, Copy)]
pub struct HeapSchema<'a> {
    pub pools: &'a Pools,
    pub layouts: &'a Layouts,
    /// The words of the globals' cell.
    pub globals: &'a [WordKind],
}

impl<'a> HeapSchema<'a> {
    /// The words of a cell.
    pub fn words(&self, cell: u32) -> &'a [WordKind]
        requires { cell < cells_in self.now.pools.now }
        ensures { (s : Setup) → IsSchemaOf s self.now → result.now ≡ words_of_cell s cell }
    {
        if cell == 0 {
            return self.globals;
        }
        self.layouts.words(self.pools.pool_of(cell))
    }

    /// What a word of a cell holds; None outside the cells and outside the cell.
    pub(crate) fn kind(&self, cell: u64, word: u32) -> Option<WordKind>
        ensures { (s : Setup) → IsSchemaOf s self.now → cell < cells s → result ≡ kind_of s cell word }
    {
        if cell < u64::from(self.pools.cells()) {
            return kind_at(self.words(cell as u32), word);
        }
        None
    }
}

/// The kind at this place.
fn kind_at(words: &[WordKind], word: u32) -> Option<WordKind>
    ensures { result ≡ slice_get words.now word }
{
    words.get(word as usize).copied()
}
