//! Operations on floating point numbers. They are read in the wide forms alone.
use crate::operand::Operand;
use crate::type_id::TypeId;

/// Instructions of two floating point operands, which give a number of their type.
#[derive(Clone, Copy)]
pub enum FloatArithmetic {
    /// fadd
    Add,
    /// fsub
    Subtract,
    /// fmul
    Multiply,
    /// fdiv
    Divide,
    /// frem
    Remainder,
}

/// What fcmp asks of its operands. An operand that is no number makes the ordered ones false, and the unordered ones true.
#[derive(Clone, Copy)]
pub enum FloatComparison {
    /// false
    Never,
    /// oeq
    OrderedEqual,
    /// ogt
    OrderedGreater,
    /// oge
    OrderedGreaterOrEqual,
    /// olt
    OrderedLess,
    /// ole
    OrderedLessOrEqual,
    /// one
    OrderedNotEqual,
    /// ord
    Ordered,
    /// uno
    Unordered,
    /// ueq
    UnorderedEqual,
    /// ugt
    UnorderedGreater,
    /// uge
    UnorderedGreaterOrEqual,
    /// ult
    UnorderedLess,
    /// ule
    UnorderedLessOrEqual,
    /// une
    UnorderedNotEqual,
    /// true
    Always,
}

/// Changes between floating point numbers and integers, and of a floating point number's width.
#[derive(Clone, Copy)]
pub enum Conversion {
    /// fpext
    Extend,
    /// fptrunc
    Truncate,
    /// fptosi
    ToSigned,
    /// fptoui
    ToUnsigned,
    /// sitofp
    FromSigned,
    /// uitofp
    FromUnsigned,
}

/// An operation on floating point numbers.
#[derive(Clone, Copy)]
pub enum FloatOp {
    Arithmetic {
        kind: FloatArithmetic,
        written: TypeId,
        first: Operand,
        second: Operand,
    },
    /// fneg
    Negate {
        written: TypeId,
        operand: Operand,
    },
    /// fcmp
    Compare {
        kind: FloatComparison,
        written: TypeId,
        first: Operand,
        second: Operand,
    },
    Convert {
        kind: Conversion,
        from: TypeId,
        operand: Operand,
        to: TypeId,
    },
}
