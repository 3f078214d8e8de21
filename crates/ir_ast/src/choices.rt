//! Values that are one of several.
use crate::operand::Operand;
use crate::type_id::TypeId;
use crate::value_id::ValueId;
use items::Items;

/// select: `chosen` where the condition, whose type is i1, is 1, and `other` else.
#[derive(Clone, Copy)]
pub struct Choice {
    pub condition_type: TypeId,
    pub condition: Operand,
    pub written: TypeId,
    pub chosen: Operand,
    pub other: Operand,
}

/// What a phi gives where its block is entered from the block with this label.
#[derive(Clone, Copy)]
pub struct Incoming {
    pub operand: Operand,
    pub from: ValueId,
}

/// A value that depends on the block from which its block is entered.
#[derive(Drop)]
pub struct Phi {
    pub value: ValueId,
    pub written: TypeId,
    pub incoming: Items<Incoming>,
}
