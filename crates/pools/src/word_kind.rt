use crate::layout_id::LayoutId;

/// What a word of a cell holds.
#[derive(Clone, Copy)]
pub enum WordKind {
    /// An integer of this number of bits, from 1 to 64.
    Integer(u32),
    /// Null, or a reference to a cell of this layout.
    Reference(LayoutId),
}
