//! Operands that are addresses outside: where one may be compared, chosen, stored to or led on from.
ghost use Rattle.std.specs.Prelude.{◌≡◌};
ghost use Rattle.machine.specs.Kinds.{is_usable_outside, is_null_at};
ghost use Rattle.machine.specs.Asks.{are_outside, compares_outside, leads_outside, stores_outside};

use crate::elements::are_integers;
use crate::frame_context::FrameContext;
use crate::kinds::{is_number, is_pointer_type};
use crate::operands::{is_null_operand, is_typed, is_usable, value_of};
use ir_ast::{Element, Module, Operand, TypeId};

/// Whether an operand is an address outside: a number, written at a pointer type.
pub fn is_usable_outside(context: &FrameContext<'_>, written: TypeId, operand: &Operand) -> bool
    ensures { result ≡ is_usable_outside context.now.program.now.of_module context.now.function.now context.now.slots.now context.now.registers.now written operand.now }
{
    if !is_number(&value_of(context, written, operand)) {
        return false;
    }
    is_pointer_type(context.of_module(), written) && is_typed(context, written, operand)
}

/// Whether an operand is null, as it is written at a pointer type.
pub fn is_null_at(of_module: &Module, written: TypeId, operand: &Operand) -> bool
    ensures { result ≡ is_null_at of_module.now written operand.now }
{
    is_null_operand(operand) && is_pointer_type(of_module, written)
}

/// Whether two operands of a type are addresses outside.
pub fn are_outside(
    context: &FrameContext<'_>,
    written: TypeId,
    first: &Operand,
    second: &Operand,
) -> bool
    ensures { result ≡ are_outside context.now.program.now.of_module context.now.function.now context.now.slots.now context.now.registers.now written first.now second.now }
{
    is_usable_outside(context, written, first) && is_usable_outside(context, written, second)
}

/// Whether an address outside is compared with another one, or with null.
pub fn compares_outside(
    context: &FrameContext<'_>,
    written: TypeId,
    first: &Operand,
    second: &Operand,
) -> bool
    ensures { result ≡ compares_outside context.now.program.now.of_module context.now.function.now context.now.slots.now context.now.registers.now written first.now second.now }
{
    let of_module = context.of_module();
    (is_usable_outside(context, written, first)
        && (is_usable_outside(context, written, second) || is_null_at(of_module, written, second)))
        || (is_null_at(of_module, written, first) && is_usable_outside(context, written, second))
}

/// Whether a getelementptr leads from an address outside: wherever its indices say.
pub fn leads_outside(context: &FrameContext<'_>, element: &Element) -> bool
    ensures { result ≡ leads_outside context.now.program.now.of_module context.now.function.now context.now.slots.now context.now.registers.now element.now }
{
    is_usable_outside(context, element.base_type, &element.base)
        && are_integers(context, element.indices.as_slice())
}

/// Whether a number or an address outside is stored.
pub fn stores_outside(context: &FrameContext<'_>, stored: TypeId, operand: &Operand) -> bool
    ensures { result ≡ stores_outside context.now.program.now.of_module context.now.function.now context.now.slots.now context.now.registers.now stored operand.now }
{
    is_usable(context, stored, operand) && is_number(&value_of(context, stored, operand))
}
