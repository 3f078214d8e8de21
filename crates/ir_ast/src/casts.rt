use crate::operand::Operand;
use crate::type_id::TypeId;

/// bitcast: the operand under another type.
#[derive(Clone, Copy)]
pub struct Cast {
    pub from: TypeId,
    pub operand: Operand,
    pub to: TypeId,
}
