ghost use Rattle.std.specs.Prelude.{◌≡◌, slice_get};
ghost use Rattle.block_rules.specs.RuntimeNames.{runtime_named};

use ir_ast::{Module, Runtime, SymbolId};

/// The function of the runtime that has this name of the module; no function of the module may have such a name.
pub fn runtime_named(module: &Module, symbol: SymbolId) -> Option<Runtime>
    ensures { result ≡ runtime_named (slice_get «module».now.symbols symbol) }
{
    Runtime::of(module.symbols.get(symbol.number() as usize)?)
}
