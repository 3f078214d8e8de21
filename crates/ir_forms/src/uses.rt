//! Where names are used, for names that may be defined further on.
use ir_ast::{StructNameId, SymbolId, ValueId};

/// A use of a struct's name.
#[derive(Clone, Copy)]
pub struct StructUse {
    pub name: StructNameId,
    /// Where the name is.
    pub start: u32,
}

/// What a local name has to mean where it is used.
#[derive(Clone, Copy)]
pub enum Wanted {
    Value,
    Block,
    /// A block other than the entry.
    Target,
}

/// A use of a local name.
#[derive(Clone, Copy)]
pub struct LocalUse {
    pub value: ValueId,
    pub wanted: Wanted,
    /// Where the name is.
    pub start: u32,
}

/// A use of a global name.
#[derive(Clone, Copy)]
pub struct SymbolUse {
    pub symbol: SymbolId,
    /// Whether a function is called here; otherwise a global is wanted.
    pub is_call: bool,
    /// Where the name is.
    pub start: u32,
    /// How many bytes spell it, with its sign.
    pub length: u32,
}
