//! Functions by their names.
ghost use Rattle.std.specs.Prelude.{◌≡◌, ◌<◌, length, IfSome};
ghost use Rattle.recheck.specs.Named as spec;

use ir_ast::{FuncId, Module, SymbolSort};

/// The function that a symbol is.
fn defined_as(module: &Module, symbol: usize) -> Option<FuncId>
    ensures { result ≡ spec.defined_as «module».now symbol }
{
    match module.sorts.get(symbol) {
        Some(SymbolSort::Defined(func)) => Some(*func),
        _ => None,
    }
}

/// The function of this name, without its sign.
pub fn function_named(module: &Module, name: &[u8]) -> Option<FuncId>
    ensures number { result ≡ spec.function_named «module».now name.now }
    ensures within { IfSome result (λ func. func < length «module».now.functions) }
{
    let func = defined_as(module, module.symbols.find(name)?)?;
    if (func.number() as usize) < module.functions.len() {
        Some(func)
    } else {
        None
    }
}
