ghost use Rattle.std.specs.Prelude.{◌≡◌};
ghost use Rattle.types.specs.Globals.{global_named, global_held, points_to_global};

use crate::reference::points_to;
use ir_ast::{GlobalId, Module, SymbolId, SymbolSort, TypeId};

/// The global that a global name names.
pub fn global_named(module: &Module, symbol: SymbolId) -> Option<GlobalId>
    ensures { result ≡ global_named «module».now symbol }
{
    match module.sorts.get(symbol.number() as usize) {
        Some(SymbolSort::Global(global)) => Some(*global),
        _ => None,
    }
}

/// The type of what the global of this name holds.
pub fn global_held(module: &Module, symbol: SymbolId) -> Option<TypeId>
    ensures { result ≡ global_held «module».now symbol }
{
    let number = global_named(module, symbol)?;
    let global = module.globals.get(number.number() as usize)?;
    Some(global.held)
}

/// Whether a written type is that of pointers to what the global of this name holds.
pub fn points_to_global(module: &Module, written: TypeId, symbol: SymbolId) -> bool
    ensures { result ≡ points_to_global «module».now written symbol }
{
    points_to(module, written, global_held(module, symbol))
}
