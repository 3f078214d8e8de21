use crate::operand::Operand;
use crate::type_id::TypeId;

/// An operand with its written type: an argument of a call, an index, the value of a return.
#[derive(Clone, Copy)]
pub struct Argument {
    pub written: TypeId,
    pub operand: Operand,
}
