//! Operations on numbers. icmp compares references too.
use crate::floats::FloatOp;
use crate::operand::Operand;
use crate::type_id::TypeId;

/// Integer instructions of two operands, which are taken modulo 2 to the bits. Those from the first shift on are read in the wide forms
/// alone.
#[derive(Clone, Copy)]
pub enum Arithmetic {
    Add,
    Sub,
    Mul,
    And,
    Or,
    Xor,
    /// shl
    ShiftLeft,
    /// lshr
    ShiftRight,
    /// ashr
    ShiftRightSigned,
    /// udiv
    Divide,
    /// sdiv
    DivideSigned,
    /// urem
    Remainder,
    /// srem
    RemainderSigned,
}

/// Changes of an integer's width.
#[derive(Clone, Copy)]
pub enum Resize {
    ZeroExtend,
    SignExtend,
    Truncate,
}

/// What icmp asks of its operands.
#[derive(Clone, Copy)]
pub enum Comparison {
    Equal,
    NotEqual,
    UnsignedGreater,
    UnsignedGreaterOrEqual,
    UnsignedLess,
    UnsignedLessOrEqual,
    SignedGreater,
    SignedGreaterOrEqual,
    SignedLess,
    SignedLessOrEqual,
}

/// An operation that gives a number.
#[derive(Clone, Copy)]
pub enum NumberOp {
    Arithmetic {
        kind: Arithmetic,
        written: TypeId,
        first: Operand,
        second: Operand,
    },
    Resize {
        kind: Resize,
        from: TypeId,
        operand: Operand,
        to: TypeId,
    },
    /// icmp
    Compare {
        kind: Comparison,
        written: TypeId,
        first: Operand,
        second: Operand,
    },
    /// An operation on floating point numbers.
    Float(FloatOp),
}
