//! Slots, and what is read from places and put there.
use crate::argument::Argument;
use crate::operand::Operand;
use crate::type_id::TypeId;

/// An operation on memory.
#[derive(Clone, Copy)]
pub enum MemoryOp {
    /// A slot that holds a value of this type.
    Alloca(TypeId),
    /// Memory of the stack that is no slot: an array or a struct of this type, or as many values of the type as are counted.
    Buffer {
        held: TypeId,
        count: Option<Argument>,
    },
    /// The value at a place, whose written type is `place_type`.
    Load {
        loaded: TypeId,
        place_type: TypeId,
        place: Operand,
    },
    /// A value is put at a place, whose written type is `place_type`.
    Store {
        stored: TypeId,
        value: Operand,
        place_type: TypeId,
        place: Operand,
    },
}
