use crate::choices::Phi;
use crate::ends::End;
use crate::instr::Instr;
use crate::value_id::ValueId;
use items::Items;

/// A block: its label, its phis, the instructions of its body, and how it ends.
#[derive(Drop)]
pub struct Block {
    pub label: ValueId,
    pub phis: Items<Phi>,
    pub body: Items<Instr>,
    pub end: End,
}
