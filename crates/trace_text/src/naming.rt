//! What the words of a trace name.
ghost use Rattle.std.specs.Prelude.{◌≡◌, Some, IfOk};
ghost use Rattle.trace_text.specs.Names as spec;

use ir_ast::{Module, SymbolSort};
use name_text::{Sigil, layout_name_in, name_in};
use std::alloc::{AllocError, Global};

fn function_named(module: &Module, name: &[u8]) -> Option<u32>
    ensures { result ≡ spec.function_named «module».now (Some name.now) }
{
    let symbol = module.symbols.find(name)?;
    match module.sorts.get(symbol) {
        Some(SymbolSort::Defined(function))
            if (function.number() as usize) < module.functions.len() => { Some(function.number()) }
        _ => None,
    }
}

/// The number of the defined function that a word names.
pub fn function_of_word(
    alloc: Global,
    module: &Module,
    word: &[u8],
) -> Result<Option<u32>, AllocError>
    ensures { IfOk result (λ function. function ≡ spec.function_of_word «module».now word.now) }
{
    match name_in(alloc, Sigil::Global, word)? {
        None => Ok(None),
        Some(name) => Ok(function_named(module, name.as_slice())),
    }
}

fn layout_named(module: &Module, name: &[u8]) -> Option<u32>
    ensures { result ≡ spec.layout_named «module».now (Some name.now) }
{
    let name = module.struct_names.find(name)?;
    match module.struct_of.get(name) {
        Some(Some(layout)) => Some(layout.number()),
        _ => None,
    }
}

/// The number of the layout whose type's name, without its sign, a word is.
pub fn layout_of_word(
    alloc: Global,
    module: &Module,
    word: &[u8],
) -> Result<Option<u32>, AllocError>
    ensures { IfOk result (λ layout. layout ≡ spec.layout_of_word «module».now word.now) }
{
    match layout_name_in(alloc, word)? {
        None => Ok(None),
        Some(name) => Ok(layout_named(module, name.as_slice())),
    }
}
