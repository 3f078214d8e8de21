//! What the words of a certificate name.
ghost use Rattle.std.specs.Prelude.{◌≡◌, Some, IfOk};
ghost use Rattle.certificate.specs.Names as spec;

use crate::plain::{plain_global, plain_key, plain_layout};
use ir_ast::{Function, LocalSort, Module, SymbolId, SymbolSort};
use name_text::{Sigil, layout_name_in, name_in};
use std::alloc::{AllocError, Global};
use types::{global_named, is_outside};

/// What a word names where something is to be named.
#[derive(Clone, Copy)]
pub enum Naming {
    /// It is no name with the sign that is asked for.
    NoName,
    /// There is nothing of this name.
    Unknown,
    /// What has this number.
    Named(u32),
}

fn function_named(module: &Module, name: &[u8]) -> Naming
    ensures { result ≡ spec.function_named «module».now (Some name.now) }
{
    match module.symbols.find(name) {
        None => Naming::Unknown,
        Some(symbol) => match module.sorts.get(symbol) {
            Some(SymbolSort::Defined(function)) => Naming::Named(function.number()),
            _ => Naming::Unknown,
        },
    }
}

/// The defined function that a word names.
pub fn function_of_word(alloc: Global, module: &Module, word: &[u8]) -> Result<Naming, AllocError>
    ensures { IfOk result (λ naming. naming ≡ spec.function_of_word «module».now word.now) }
{
    if let Some(name) = plain_global(word) {
        return Ok(function_named(module, name));
    }
    match name_in(alloc, Sigil::Global, word)? {
        None => Ok(Naming::NoName),
        Some(name) => Ok(function_named(module, name.as_slice())),
    }
}

fn global_of_name(module: &Module, name: &[u8]) -> Naming
    ensures { result ≡ spec.global_of_name «module».now (Some name.now) }
{
    match module.symbols.find(name) {
        None => Naming::Unknown,
        Some(symbol) => match global_named(module, SymbolId::new(symbol as u32)) {
            None => Naming::Unknown,
            Some(_) => Naming::Named(symbol as u32),
        },
    }
}

/// The symbol of the global that a word names.
pub fn global_of_word(alloc: Global, module: &Module, word: &[u8]) -> Result<Naming, AllocError>
    ensures { IfOk result (λ naming. naming ≡ spec.global_of_word «module».now word.now) }
{
    match name_in(alloc, Sigil::Global, word)? {
        None => Ok(Naming::NoName),
        Some(name) => Ok(global_of_name(module, name.as_slice())),
    }
}

fn outside_of_name(module: &Module, name: &[u8]) -> Naming
    ensures { result ≡ spec.outside_of_name «module».now (Some name.now) }
{
    match module.symbols.find(name) {
        None => Naming::Unknown,
        Some(symbol) => {
            if is_outside(module, SymbolId::new(symbol as u32)) {
                Naming::Named(symbol as u32)
            } else {
                Naming::Unknown
            }
        }
    }
}

/// The symbol of the function outside of the module that a word names.
pub fn outside_of_word(alloc: Global, module: &Module, word: &[u8]) -> Result<Naming, AllocError>
    ensures { IfOk result (λ naming. naming ≡ spec.outside_of_word «module».now word.now) }
{
    match name_in(alloc, Sigil::Global, word)? {
        None => Ok(Naming::NoName),
        Some(name) => Ok(outside_of_name(module, name.as_slice())),
    }
}

fn value_named(function: &Function, key: &[u8]) -> Naming
    ensures { result ≡ spec.value_named function.now (Some key.now) }
{
    match function.locals.find(key) {
        None => Naming::Unknown,
        Some(value) => match function.sorts.get(value) {
            Some(LocalSort::Value(_)) => Naming::Named(value as u32),
            Some(LocalSort::Slot(_)) => Naming::Named(value as u32),
            Some(LocalSort::Element { .. }) => Naming::Named(value as u32),
            _ => Naming::Unknown,
        },
    }
}

/// The value of a function that a word names.
pub fn value_of_word(alloc: Global, function: &Function, word: &[u8]) -> Result<Naming, AllocError>
    ensures { IfOk result (λ naming. naming ≡ spec.value_of_word function.now word.now) }
{
    if let Some(key) = plain_key(word) {
        return Ok(value_named(function, key));
    }
    match name_in(alloc, Sigil::Local, word)? {
        None => Ok(Naming::NoName),
        Some(key) => Ok(value_named(function, key.as_slice())),
    }
}

fn block_named(function: &Function, key: &[u8]) -> Naming
    ensures { result ≡ spec.block_named function.now (Some key.now) }
{
    match function.locals.find(key) {
        None => Naming::Unknown,
        Some(label) => match function.sorts.get(label) {
            Some(LocalSort::Block(block)) => Naming::Named(block.number()),
            _ => Naming::Unknown,
        },
    }
}

/// The block of a function that a word names.
pub fn block_of_word(alloc: Global, function: &Function, word: &[u8]) -> Result<Naming, AllocError>
    ensures { IfOk result (λ naming. naming ≡ spec.block_of_word function.now word.now) }
{
    if let Some(key) = plain_key(word) {
        return Ok(block_named(function, key));
    }
    match name_in(alloc, Sigil::Local, word)? {
        None => Ok(Naming::NoName),
        Some(key) => Ok(block_named(function, key.as_slice())),
    }
}

fn layout_named(module: &Module, name: &[u8]) -> Naming
    ensures { result ≡ spec.layout_named «module».now (Some name.now) }
{
    match module.struct_names.find(name) {
        None => Naming::Unknown,
        Some(name) => match module.struct_of.get(name) {
            Some(Some(layout)) => Naming::Named(layout.number()),
            _ => Naming::Unknown,
        },
    }
}

/// The layout whose type's name, without its sign, a word is.
pub fn layout_of_word(alloc: Global, module: &Module, word: &[u8]) -> Result<Naming, AllocError>
    ensures { IfOk result (λ naming. naming ≡ spec.layout_of_word «module».now word.now) }
{
    if let Some(name) = plain_layout(word) {
        return Ok(layout_named(module, name));
    }
    match layout_name_in(alloc, word)? {
        None => Ok(Naming::NoName),
        Some(name) => Ok(layout_named(module, name.as_slice())),
    }
}
