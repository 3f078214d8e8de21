//! How a block ends. Blocks are named by their labels.
use crate::argument::Argument;
use crate::operand::{Constant, Operand};
use crate::type_id::TypeId;
use crate::value_id::ValueId;
use items::Items;

/// Where a switch goes on if its value is this constant.
#[derive(Clone, Copy)]
pub struct Case {
    pub constant: Constant,
    pub target: ValueId,
}

/// The instruction that ends a block.
#[derive(Drop)]
pub enum End {
    /// br to one block.
    Jump(ValueId),
    /// br to `taken` where the condition, whose type is i1, is 1, and to `other` else.
    Branch {
        condition_type: TypeId,
        condition: Operand,
        taken: ValueId,
        other: ValueId,
    },
    Switch {
        written: TypeId,
        value: Operand,
        otherwise: ValueId,
        cases: Items<Case>,
    },
    Unreachable,
    /// The end of a function without a result.
    ReturnVoid,
    /// The end of a function with this result.
    Return(Argument),
}
