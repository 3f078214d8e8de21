use crate::op::Op;
use crate::value_id::ValueId;

/// An instruction, and the name of its value, if it gives one that is named.
#[derive(Drop)]
pub struct Instr {
    pub result: Option<ValueId>,
    pub op: Op,
}
