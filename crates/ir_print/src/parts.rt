//! Parts that instructions of several families have.
ghost use Rattle.std.specs.Prelude.{◌≡◌, ◌++◌, OnOk};
ghost use Rattle.ir_print.specs.Parts as spec;

use crate::operands::{put_argument, put_operand};
use crate::types::put_type;
use ir_ast::{Argument, Module, Names, Operand, TypeId};
use std::alloc::{AllocError, Global};

/// An operand with its type.
pub fn typed(written: TypeId, operand: Operand) -> Argument
    ensures { result ≡ spec.typed written operand }
{
    Argument { written, operand }
}

/// `T V to U`.
pub fn put_converted(
    alloc: Global,
    out: &mut Vec<u8>,
    module: &Module,
    locals: &Names,
    argument: &Argument,
    to: TypeId,
) -> Result<(), AllocError>
    ensures { OnOk result (out.new.items ≡ out.old.items ++ spec.converted_text «module».now locals.now argument.now to) }
{
    put_argument(alloc, out, module, locals, argument)?;
    out.extend_from_slice(b" to ")?;
    put_type(alloc, out, module, to)
}

/// `T V, W`.
pub fn put_pair(
    alloc: Global,
    out: &mut Vec<u8>,
    module: &Module,
    locals: &Names,
    first: &Argument,
    second: Operand,
) -> Result<(), AllocError>
    ensures { OnOk result (out.new.items ≡ out.old.items ++ spec.pair_text «module».now locals.now first.now second) }
{
    put_argument(alloc, out, module, locals, first)?;
    out.extend_from_slice(b", ")?;
    put_operand(alloc, out, module, locals, first.written, second)
}

/// `T, T* V`.
pub fn put_placed(
    alloc: Global,
    out: &mut Vec<u8>,
    module: &Module,
    locals: &Names,
    written: TypeId,
    place: &Argument,
) -> Result<(), AllocError>
    ensures { OnOk result (out.new.items ≡ out.old.items ++ spec.placed_text «module».now locals.now written place.now) }
{
    put_type(alloc, out, module, written)?;
    out.extend_from_slice(b", ")?;
    put_argument(alloc, out, module, locals, place)
}
