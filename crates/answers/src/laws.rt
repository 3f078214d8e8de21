ghost use Rattle.answers.specs.KeptRows.{RowsStay, OthersStay};

use crate::locality::locality_law;

/// What the blocks of a function begin with stays so, where its code and its certificate are the same, and so are the module's
/// tables and layouts. It depends on no other function, not even on those that are called.
pub fn rows_law()
    ensures stay { RowsStay }
    ensures others { OthersStay }
{
    locality_law();
}
