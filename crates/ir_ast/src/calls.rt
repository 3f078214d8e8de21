use crate::argument::Argument;
use crate::symbol_id::SymbolId;
use crate::type_id::TypeId;
use items::Items;

/// A call of a global name with these arguments.
#[derive(Drop)]
pub struct Call {
    pub returned: TypeId,
    pub callee: SymbolId,
    pub arguments: Items<Argument>,
}
