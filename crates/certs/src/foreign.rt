//! Which functions outside of a module may be trusted, and what certificates may say of the code outside.
ghost use Rattle.std.specs.Prelude.{◌≡◌, ◌==◌};
ghost use Rattle.std.specs.List.{list_all, list_any};
ghost use Rattle.certs.specs.ForeignFit as spec;
ghost use Rattle.types.specs.RuntimeCall.{is_outside as is_outside_name};

use crate::numbers::numbers_fit;
use ir_ast::{Module, Outside, SymbolId};
use types::is_outside;

fn has_symbol(symbols: &[SymbolId], symbol: SymbolId) -> bool
    ensures { result ≡ list_any (λ t. t == symbol) symbols.now }
{
    symbols.iter().any(|other| *other == symbol)
}

/// Whether no name stands twice.
fn are_once(symbols: &[SymbolId]) -> bool
    ensures { result ≡ spec.are_once symbols.now }
{
    let mut left = symbols;
    while let [symbol, rest @ ..] = left {
        if has_symbol(rest, *symbol) {
            return false;
        }
        left = rest;
    }
    true
}

fn are_outside(module: &Module, symbols: &[SymbolId]) -> bool
    ensures { result ≡ list_all (is_outside_name «module».now) symbols.now }
{
    symbols.iter().all(|symbol| is_outside(module, *symbol))
}

/// Whether they are functions outside of a module of the wide forms, each once.
fn functions_fit(module: &Module, functions: &[SymbolId]) -> bool
    ensures { result ≡ spec.functions_fit «module».now functions.now }
{
    match functions {
        [] => true,
        [_, ..] => module.wide && are_outside(module, functions) && are_once(functions),
    }
}

/// Whether they are such functions, and numbers of layouts of the module.
pub fn foreign_fits(module: &Module, foreign: &Outside) -> bool
    ensures { result ≡ spec.foreign_fits «module».now foreign.now }
{
    functions_fit(module, foreign.functions.as_slice())
        && numbers_fit(module, foreign.numbers.as_slice())
}
