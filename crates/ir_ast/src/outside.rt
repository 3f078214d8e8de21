ghost use Rattle.std.specs.Prelude.{◌≡◌};
ghost use Rattle.ir_ast.specs.Outside.{none_outside};

use crate::symbol_list::SymbolList;
use items::Items;
use pools::LayoutId;
use std::alloc::Global;

/// A layout, and the number by which a call of dg_alloc means it.
#[derive(Clone, Copy)]
pub struct LayoutNumber {
    pub layout: LayoutId,
    /// It is below 2^32.
    pub number: u64,
}

/// What certificates say of the code outside of a module.
#[derive(Drop)]
pub struct Outside {
    /// The functions outside whose promise is trusted.
    pub functions: SymbolList,
    /// The numbers by which dg_alloc means layouts. Where none is listed, a number means the struct at its place in the text.
    pub numbers: Items<LayoutNumber>,
}

impl Outside {
    /// Nothing is said.
    pub fn none(alloc: Global) -> Outside
        ensures { result ≡ none_outside }
    {
        Outside {
            functions: SymbolList::new(alloc),
            numbers: Items::new(alloc),
        }
    }
}
