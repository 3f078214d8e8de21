//! Rows with their numbers.
ghost use Rattle.std.specs.Prelude.{◌≡◌, map, IfOk};
ghost use Rattle.fact_tables.specs.Numbered.{numbered_at, number_of, written};

use crate::row::Row;
use crate::sweeps::row_at;
use std::alloc::{AllocError, Global};

/// A row, and which one it is.
#[derive(Clone, Copy)]
pub(crate) struct Numbered {
    pub number: usize,
    pub row: Row,
}

/// The rows that are marked, each with its number.
pub fn number_rows(
    alloc: Global,
    rows: &[Row],
    marked: &[usize],
) -> Result<Vec<Numbered>, AllocError>
    ensures { IfOk result (λ numbered. numbered.items ≡ map (numbered_at rows.now) marked.now) }
{
    marked.iter().map(|u| numbered_at(rows, *u)).collect(alloc)
}

fn numbered_at(rows: &[Row], number: usize) -> Numbered
    ensures { result ≡ numbered_at rows.now number }
{
    Numbered {
        number,
        row: row_at(rows, number),
    }
}

/// The numbers of some rows.
pub fn numbers_of(alloc: Global, numbered: &[Numbered]) -> Result<Vec<usize>, AllocError>
    ensures { IfOk result (λ numbers. numbers.items ≡ map number_of numbered.now) }
{
    numbered.iter().map(|one| one.number).collect(alloc)
}

/// Each row is written where its number says.
pub fn write_rows(rows: &mut Vec<Row>, numbered: &[Numbered])
    ensures { rows.new.items ≡ written numbered.now rows.old.items }
{
    for one in numbered {
        let at = one.number;
        if at < rows.len() {
            rows[at] = one.row;
        }
    }
}
