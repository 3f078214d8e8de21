use std::marker::Model;

/// What a word, a slot or a register holds: a reference, as its cell and its birth, or an integer, as a cell's number with
/// birth 0. Null is cell 0 with birth 0.
#[derive(Clone, Copy, Debug, PartialEq, Eq)]
pub struct WordValue {
    pub cell: u64,
    pub birth: u64,
}

impl Model for WordValue {
    ghost use Rattle.runs.specs.Machine.{WordValue};

    ghost Value = { WordValue };

    ghost view = { λ r. record { cell = r.cell; birth = r.birth } };

    ghost inverse = { λ r. record { cell = r.cell; birth = r.birth } };
}

/// The null reference. As a base it means the cell of the globals.
pub const NULL: WordValue = WordValue { cell: 0, birth: 0 };
