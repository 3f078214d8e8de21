use crate::type_id::TypeId;

/// A way over some fields of a struct type, from the first one on.
#[derive(Clone, Copy)]
pub struct Jump {
    /// The struct of the fields after them.
    pub to: TypeId,
    /// How many fields it leads over.
    pub fields: u32,
}
