ghost use Rattle.std.specs.Prelude.{◌≡◌, ◌<◌, [], ◌∷◌, ◌++◌, length, slice_set, slice_index_or, OnOk, OnErr};
ghost use Rattle.runs.specs.Moves.{null};
ghost use Rattle.moves.specs.Rows.{word_at, with_word};

use crate::word_value::{NULL, WordValue};
use items::Items;
use std::alloc::{AllocError, Global};
use std::marker::Model;

/// The words of each cell.
#[derive(Drop)]
pub struct CellWords {
    rows: Vec<Items<WordValue>>,
}

impl Model for CellWords {
    ghost use Rattle.std.specs.Prelude.{List};
    ghost use Rattle.runs.specs.Machine.{WordValue};

    ghost Value = { List (List WordValue) };

    ghost view = { λ rows. rows.rows.items };
}

impl CellWords {
    /// No cell.
    pub fn new(alloc: Global) -> Self
        ensures { result ≡ [] }
    {
        CellWords {
            rows: Vec::new(alloc),
        }
    }

    /// One cell more, with these words.
    pub fn push(&mut self, row: Items<WordValue>) -> Result<(), AllocError>
        ensures ok { OnOk result (self.new ≡ self.old ++ row ∷ []) }
        ensures err { OnErr result (self.new ≡ self.old) }
    {
        self.rows.push(row)?;
        Ok(())
    }

    /// What a word of a cell holds; null outside the cells.
    pub fn word(&self, cell: u64, word: u32) -> WordValue
        ensures { result ≡ word_at self.now cell word }
    {
        match self.rows.get(cell as usize) {
            Some(row) => reference_at(row.as_slice(), word as usize),
            None => NULL,
        }
    }

    /// The words of a cell; none where there is no such cell.
    pub fn row(&self, cell: u64) -> &[WordValue]
        ensures { result.now ≡ slice_index_or self.now cell [] }
    {
        match self.rows.get(cell as usize) {
            Some(row) => row.as_slice(),
            None => &[],
        }
    }

    /// Puts a reference, or a number, into a word of a cell.
    pub fn put(&mut self, cell: u64, word: u32, value: WordValue)
        requires is_cell { cell < length self.old }
        requires is_word { word < length (slice_index_or self.old cell []) }
        ensures { self.new ≡ with_word self.old cell word value }
    {
        let row = &mut self.rows[cell as usize];
        row.set(word as usize, value);
    }
}

/// The reference at this place; null outside the row.
fn reference_at(row: &[WordValue], at: usize) -> WordValue
    ensures { result ≡ slice_index_or row.now at null }
{
    row.get(at).copied().unwrap_or(NULL)
}
