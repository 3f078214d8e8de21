//! What is known at a place, kept in as much room as it fills.
use fact_tables::{KeptValues, SlotRows};
use std::marker::Model;

/// What is known at a place of a function, in as much room as it fills: `Facts` has a row for each value.
#[derive(Drop)]
pub struct KeptFacts {
    pub(crate) values: KeptValues,
    pub(crate) slots: SlotRows,
}

impl Model for KeptFacts {
    ghost use Rattle.facts.specs.Facts.{FactSet};

    ghost Value = { FactSet };

    ghost view = { λ kept. record { values = kept.values.values; slots = kept.slots; classes = kept.values.classes; tests = kept.values.tests } };
}
