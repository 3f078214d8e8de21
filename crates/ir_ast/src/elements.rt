use crate::argument::Argument;
use crate::operand::Operand;
use crate::type_id::TypeId;
use items::Items;

/// getelementptr: the place of a part of a `source`, from a place of one whose written type is `base_type`.
#[derive(Drop)]
pub struct Element {
    pub source: TypeId,
    pub base_type: TypeId,
    pub base: Operand,
    pub indices: Items<Argument>,
}
