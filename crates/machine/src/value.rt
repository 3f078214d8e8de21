use ir_ast::GlobalId;
use pools::LayoutId;

/// A cell, and the birth that its user knows. Real threads know no births: theirs are 0.
#[derive(Clone, Copy, Debug, PartialEq, Eq)]
pub struct Reference {
    pub cell: u32,
    pub birth: u64,
}

/// Where an address points.
#[derive(Clone, Copy)]
pub enum Pointee {
    /// The address was taken from null: it points to no word.
    OfNull,
    /// A word of a cell of this layout.
    Word {
        layout: LayoutId,
        at: Reference,
        word: u32,
    },
    /// The word of a global, in the cell of the globals.
    Global(GlobalId),
}

/// What a register or a slot holds.
#[derive(Clone, Copy)]
pub enum Value {
    /// Nothing was put there.
    Unset,
    Number(u64),
    Null,
    /// A reference to a cell of this layout.
    Cell(LayoutId, Reference),
    Address(Pointee),
}
