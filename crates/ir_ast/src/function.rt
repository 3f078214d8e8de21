use crate::block::Block;
use crate::block_id::BlockId;
use crate::names::Names;
use crate::symbol_id::SymbolId;
use crate::type_id::TypeId;
use crate::value_id::ValueId;
use items::Items;

/// What a local name means.
#[derive(Clone, Copy)]
pub enum LocalSort {
    /// It was used, and not defined so far.
    Unknown,
    /// A parameter's or an instruction's value, of the type that it is given.
    Value(TypeId),
    /// A slot that holds a value of this type: the name of an alloca.
    Slot(TypeId),
    /// The value of the getelementptr at this place of this block's body: a pointer to the part that its indices select.
    Element { block: BlockId, place: u32 },
    Block(BlockId),
}

/// A parameter of a defined function.
#[derive(Clone, Copy)]
pub struct Parameter {
    pub written: TypeId,
    pub value: ValueId,
}

/// A defined function.
#[derive(Drop)]
pub struct Function {
    pub symbol: SymbolId,
    pub returned: TypeId,
    pub parameters: Items<Parameter>,
    /// The text after `gc`, without its quotes.
    pub collector: Option<Items<u8>>,
    /// The local names in the order in which they are mentioned first; a name's place is its `ValueId`.
    pub locals: Names,
    /// What each local name means.
    pub sorts: Items<LocalSort>,
    /// The blocks in text order; the first is the entry.
    pub blocks: Items<Block>,
}
