use crate::declare_id::DeclareId;
use crate::func_id::FuncId;
use crate::global_id::GlobalId;
use crate::operand::Constant;
use crate::runtime::Runtime;
use crate::struct_name_id::StructNameId;
use crate::symbol_id::SymbolId;
use crate::type_id::TypeId;
use items::Items;

/// A named struct type.
#[derive(Drop)]
pub struct StructType {
    pub name: StructNameId,
    /// The struct type that the name is defined as.
    pub body: TypeId,
}

/// A global, which is one word.
#[derive(Clone, Copy)]
pub struct Global {
    pub symbol: SymbolId,
    pub is_constant: bool,
    pub held: TypeId,
    pub initial: Constant,
}

/// A declared function.
#[derive(Drop)]
pub struct Declare {
    pub symbol: SymbolId,
    /// Which function of the runtime its name is.
    pub runtime: Option<Runtime>,
    pub returned: TypeId,
    pub parameters: Items<TypeId>,
}

/// What a global name means.
#[derive(Clone, Copy)]
pub enum SymbolSort {
    /// It was used, and not defined so far.
    Unknown,
    Global(GlobalId),
    Declared(DeclareId),
    Defined(FuncId),
}
