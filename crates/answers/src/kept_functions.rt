use crate::kept_rows::KeptRows;
use block_rules::Refusal;
use items::Items;

/// What is kept of the functions of a program.
#[derive(Drop)]
pub struct KeptFunctions {
    /// The answer to each.
    pub answers: Items<Option<Refusal>>,
    /// What the blocks of some begin with.
    pub rows: KeptRows,
}
