//! The text of types where they say how words lie in a cell.
ghost use Rattle.std.specs.Prelude.{◌≡◌, ◌++◌, ◌∷◌, [], Some, OnOk, length, slice_get};
ghost use Rattle.ir_print.specs.Types.{array_text, struct_type_text, fields_text};
ghost use Rattle.lowering.specs.Types as spec;
ghost use Rattle.machine.specs.Kinds as kinds;

use ir_ast::{IrType, Module, TypeId};
use ir_print::put_struct_name;
use name_text::put_number;
use std::alloc::{AllocError, Global};

/// How many levels a type has at most.
const LEVELS: u32 = 64;

/// A type of at most `levels` levels, in words.
#[cycle(types)]
#[tactic(auto, unfolding(crate::specs::Types::words_within))]
fn put_within(
    alloc: Global,
    out: &mut Vec<u8>,
    module: &Module,
    levels: u32,
    written: TypeId,
) -> Result<(), AllocError>
    ensures { OnOk result (out.new.items ≡ out.old.items ++ spec.words_within levels «module».now written) }
{
    if levels == 0 {
        return Ok(());
    }
    match module.types.get(written) {
        None => Ok(()),
        Some(shown) => put_shown(alloc, out, module, levels - 1, shown),
    }
}

/// A type whose parts have at most `levels` levels, in words.
#[cycle(types)]
fn put_shown(
    alloc: Global,
    out: &mut Vec<u8>,
    module: &Module,
    levels: u32,
    shown: IrType,
) -> Result<(), AllocError>
    ensures { OnOk result (out.new.items ≡ out.old.items ++ spec.words_by (spec.words_within levels «module».now) «module».now (Some shown)) }
{
    match &shown {
        IrType::Void => out.extend_from_slice(b"void"),
        IrType::Integer(_) => out.extend_from_slice(b"i64"),
        IrType::Float | IrType::Double => out.extend_from_slice(b"i64"),
        IrType::Pointer(_) => out.extend_from_slice(b"ptr"),
        IrType::Opaque => out.extend_from_slice(b"ptr"),
        IrType::Array { length, part } => put_array(alloc, out, module, levels, *length, *part),
        IrType::EmptyStruct => out.extend_from_slice(b"{}"),
        IrType::Struct { first, rest } => put_struct(alloc, out, module, levels, *first, *rest),
        IrType::Named(name) => put_struct_name(out, module, *name),
    }
}

/// `[n x T]`, in words.
#[cycle(types)]
fn put_array(
    alloc: Global,
    out: &mut Vec<u8>,
    module: &Module,
    levels: u32,
    count: u64,
    part: TypeId,
) -> Result<(), AllocError>
    ensures { OnOk result (out.new.items ≡ out.old.items ++ array_text (spec.words_within levels «module».now) count part) }
{
    out.push(b'[')?;
    put_number(alloc, out, count)?;
    out.extend_from_slice(b" x ")?;
    put_within(alloc, out, module, levels, part)?;
    out.push(b']')?;
    Ok(())
}

/// `{ T, .. }`, in words.
#[cycle(types)]
fn put_struct(
    alloc: Global,
    out: &mut Vec<u8>,
    module: &Module,
    levels: u32,
    first: TypeId,
    rest: TypeId,
) -> Result<(), AllocError>
    ensures { OnOk result (out.new.items ≡ out.old.items ++ struct_type_text (spec.words_within levels «module».now) «module».now first rest) }
{
    out.extend_from_slice(b"{ ")?;
    put_within(alloc, out, module, levels, first)?;
    put_fields(alloc, out, module, levels, rest)?;
    out.extend_from_slice(b" }")
}

/// The fields of a struct in words, each after a comma.
#[cycle(types)]
fn put_fields(
    alloc: Global,
    out: &mut Vec<u8>,
    module: &Module,
    levels: u32,
    fields: TypeId,
) -> Result<(), AllocError>
    ensures { OnOk result (out.new.items ≡ out.old.items ++ fields_text (spec.words_within levels «module».now) «module».now (length «module».now.types) fields) }
{
    let mut fields = fields;
    for _turn in 0..module.types.count() {
        let shown = module.types.get(fields);
        match &shown {
            Some(IrType::Struct { first, rest }) => {
                out.extend_from_slice(b", ")?;
                put_within(alloc, out, module, levels, *first)?;
                fields = *rest;
            }
            _ => return Ok(()),
        }
    }
    Ok(())
}

/// A type, in words.
pub(crate) fn put_words(
    alloc: Global,
    out: &mut Vec<u8>,
    module: &Module,
    written: TypeId,
) -> Result<(), AllocError>
    ensures { OnOk result (out.new.items ≡ out.old.items ++ spec.words_text «module».now written) }
{
    put_within(alloc, out, module, LEVELS, written)
}

/// Whether this is the type of a number.
pub(crate) fn is_number(shown: Option<IrType>) -> bool
    ensures { result ≡ kinds.is_integer shown }
{
    matches!(
        shown,
        Some(IrType::Integer(_) | IrType::Float | IrType::Double)
    )
}

/// How many bits a number of this type has.
pub(crate) fn bits_of(shown: Option<IrType>) -> u32
    ensures { result ≡ kinds.bits_of shown }
{
    match shown {
        Some(IrType::Integer(bits)) => bits,
        Some(IrType::Float) => 32,
        Some(IrType::Double) => 64,
        _ => 0,
    }
}
