use crate::symbol_id::SymbolId;
use crate::type_id::TypeId;
use crate::value_id::ValueId;

/// A constant, as it is written; `undef` is read as the number 0 or as null.
#[derive(Clone, Copy)]
pub enum Constant {
    /// The number modulo 2 to the 64: at an integer type of fewer bits it is below 2 to the bits.
    Number(u64),
    /// The bits of a floating point number of 64 bits. At `float` it is one that a number of 32 bits holds too.
    Float(u64),
    Null,
    /// `true` or `false` where the written type is not i1; at i1 they are read as the numbers 1 and 0. No rule lets it pass.
    Truth(bool),
}

/// What an instruction reads.
#[derive(Clone, Copy)]
pub enum Operand {
    Constant(Constant),
    Local(ValueId),
    Global(SymbolId),
    /// `bitcast (from @global to to)`.
    CastGlobal {
        from: TypeId,
        global: SymbolId,
        to: TypeId,
    },
}
