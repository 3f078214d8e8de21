//! The text of constants and operands.
ghost use Rattle.std.specs.Prelude.{◌≡◌, ◌++◌, ◌∷◌, [], OnOk, slice_get};
ghost use Rattle.ir_print.specs.Operands as spec;

use crate::hexadecimal::put_bits;
use crate::types::put_type;
use ir_ast::{Argument, Constant, IrType, Module, Names, Operand, SymbolId, TypeId};
use name_text::{Blank, put_global, put_local, put_number};
use std::alloc::{AllocError, Global};

/// Whether this is the type i1.
fn is_bit(shown: Option<IrType>) -> bool
    ensures { result ≡ spec.is_bit shown }
{
    match &shown {
        Some(IrType::Integer(bits)) => *bits == 1,
        _ => false,
    }
}

/// `true` or `false`.
pub fn put_truth(out: &mut Vec<u8>, truth: bool) -> Result<(), AllocError>
    ensures { OnOk result (out.new.items ≡ out.old.items ++ spec.truth_text truth) }
{
    if truth {
        out.extend_from_slice(b"true")
    } else {
        out.extend_from_slice(b"false")
    }
}

/// A constant of this type.
pub fn put_constant(
    alloc: Global,
    out: &mut Vec<u8>,
    module: &Module,
    written: TypeId,
    constant: Constant,
) -> Result<(), AllocError>
    ensures { OnOk result (out.new.items ≡ out.old.items ++ spec.constant_text «module».now written constant) }
{
    match constant {
        Constant::Number(number) => {
            if is_bit(module.types.get(written)) {
                put_truth(out, number != 0)
            } else {
                put_number(alloc, out, number)
            }
        }
        Constant::Float(bits) => put_bits(out, bits),
        Constant::Null => out.extend_from_slice(b"null"),
        Constant::Truth(truth) => put_truth(out, truth),
    }
}

/// `bitcast (T* @g to U*)`.
fn put_cast_global(
    alloc: Global,
    out: &mut Vec<u8>,
    module: &Module,
    from: TypeId,
    global: SymbolId,
    to: TypeId,
) -> Result<(), AllocError>
    ensures { OnOk result (out.new.items ≡ out.old.items ++ spec.cast_global_text «module».now from global to) }
{
    out.extend_from_slice(b"bitcast (")?;
    put_type(alloc, out, module, from)?;
    out.push(b' ')?;
    put_global(out, module, global, Blank::Kept)?;
    out.extend_from_slice(b" to ")?;
    put_type(alloc, out, module, to)?;
    out.push(b')')?;
    Ok(())
}

/// What an instruction reads, of this type.
pub fn put_operand(
    alloc: Global,
    out: &mut Vec<u8>,
    module: &Module,
    locals: &Names,
    written: TypeId,
    operand: Operand,
) -> Result<(), AllocError>
    ensures { OnOk result (out.new.items ≡ out.old.items ++ spec.operand_text «module».now locals.now written operand) }
{
    match &operand {
        Operand::Constant(constant) => put_constant(alloc, out, module, written, *constant),
        Operand::Local(value) => put_local(out, locals, *value, Blank::Kept),
        Operand::Global(symbol) => put_global(out, module, *symbol, Blank::Kept),
        Operand::CastGlobal { from, global, to } => {
            put_cast_global(alloc, out, module, *from, *global, *to)
        }
    }
}

/// `T V`.
pub fn put_typed(
    alloc: Global,
    out: &mut Vec<u8>,
    module: &Module,
    locals: &Names,
    written: TypeId,
    operand: Operand,
) -> Result<(), AllocError>
    ensures { OnOk result (out.new.items ≡ out.old.items ++ spec.typed_text «module».now locals.now written operand) }
{
    put_type(alloc, out, module, written)?;
    out.push(b' ')?;
    put_operand(alloc, out, module, locals, written, operand)
}

/// An operand with its type.
pub fn put_argument(
    alloc: Global,
    out: &mut Vec<u8>,
    module: &Module,
    locals: &Names,
    argument: &Argument,
) -> Result<(), AllocError>
    ensures { OnOk result (out.new.items ≡ out.old.items ++ spec.argument_text «module».now locals.now argument.now) }
{
    put_typed(
        alloc,
        out,
        module,
        locals,
        argument.written,
        argument.operand,
    )
}
