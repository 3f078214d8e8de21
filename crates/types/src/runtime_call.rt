ghost use Rattle.std.specs.Prelude.{◌≡◌, ◌==◌};
ghost use Rattle.std.specs.List.{list_any};
ghost use Rattle.types.specs.RuntimeCall.{runtime_called, is_outside};

use ir_ast::{Module, Runtime, SymbolId, SymbolSort};

/// The function of the runtime, or the intrinsic, that a global name is declared as.
pub fn runtime_called(module: &Module, callee: SymbolId) -> Option<Runtime>
    ensures { result ≡ runtime_called «module».now callee }
{
    match module.sorts.get(callee.number() as usize) {
        Some(SymbolSort::Declared(declare)) => {
            match module.declares.get(declare.number() as usize) {
                Some(declared) => declared.runtime,
                None => None,
            }
        }
        _ => None,
    }
}

/// Whether a global name is a function outside of the module: it is only declared, and is no function of the runtime and no intrinsic.
pub fn is_outside(module: &Module, symbol: SymbolId) -> bool
    ensures { result ≡ is_outside «module».now symbol }
{
    match module.sorts.get(symbol.number() as usize) {
        Some(SymbolSort::Declared(declare)) => {
            match module.declares.get(declare.number() as usize) {
                Some(declared) => declared.runtime.is_none(),
                None => false,
            }
        }
        _ => false,
    }
}

/// Whether the certificates of the module trust the function of this name, which is one outside of it.
pub fn is_trusted(module: &Module, symbol: SymbolId) -> bool
    ensures { result ≡ list_any (λ s. s == symbol) «module».now.trusted.functions }
{
    module.trusted.functions.contains(symbol)
}
