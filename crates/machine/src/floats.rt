//! Operations on floating point numbers, and functions of them: what they ask for. What they give is a number from outside.
ghost use Rattle.std.specs.Prelude.{◌≡◌, ◌&&◌, slice_get};
ghost use Rattle.ir_ast.specs.FloatFunctions as float_functions;
ghost use Rattle.machine.specs.Asks.{are_of_widths, are_float_types, written_types, float_action, gives_float, float_bits};
ghost use Rattle.machine.specs.Kinds.{is_integer, is_usable_number};

use crate::action::{Action, only_if};
use crate::calls::are_written_with;
use crate::elements::are_integers;
use crate::foreign::asked_outside;
use crate::frame_context::FrameContext;
use crate::kinds::{bits_at, is_integer, is_integer_of};
use crate::operands::{are_numbers, is_usable_number};
use ir_ast::{
    Argument, FloatFunction, FloatOp, FloatsTaken, Module, Operand, TypeId, floats_taken,
};

/// Whether a number may become one of another type.
fn may_convert(context: &FrameContext<'_>, from: TypeId, operand: &Operand, to: TypeId) -> bool
    ensures { let m = context.now.program.now.of_module in result ≡ is_usable_number m context.now.function.now context.now.slots.now context.now.registers.now from operand.now && is_integer (slice_get m.types to) }
{
    is_usable_number(context, from, operand) && is_integer(context.of_module(), to)
}

/// Whether an operation on floating point numbers gives a number.
pub fn gives_float(context: &FrameContext<'_>, op: &FloatOp) -> bool
    ensures { result ≡ gives_float context.now.program.now.of_module context.now.function.now context.now.slots.now context.now.registers.now op.now }
{
    match op {
        FloatOp::Arithmetic {
            written,
            first,
            second,
            ..
        } => are_numbers(context, *written, first, second),
        FloatOp::Negate { written, operand } => is_usable_number(context, *written, operand),
        FloatOp::Compare {
            written,
            first,
            second,
            ..
        } => are_numbers(context, *written, first, second),
        FloatOp::Convert {
            from,
            operand,
            to,
            ..
        } => may_convert(context, *from, operand, *to),
    }
}

/// How many bits the number has that an operation on floating point numbers gives.
pub fn float_bits(of_module: &Module, op: &FloatOp) -> u32
    ensures { result ≡ float_bits of_module.now op.now }
{
    match op {
        FloatOp::Arithmetic { written, .. } | FloatOp::Negate { written, .. } => {
            bits_at(of_module, *written)
        }
        FloatOp::Compare { .. } => 1,
        FloatOp::Convert { to, .. } => bits_at(of_module, *to),
    }
}

/// Whether these are numbers of the width, as many as are taken.
fn are_taken(of_module: &Module, taken: FloatsTaken, bits: u64, types: &[TypeId]) -> bool
    ensures { result ≡ are_of_widths of_module.now (float_functions.widths taken bits) types.now }
{
    match (taken, types) {
        (FloatsTaken::One, [only]) => is_integer_of(of_module, bits, *only),
        (FloatsTaken::Two, [first, second]) => {
            is_integer_of(of_module, bits, *first) && is_integer_of(of_module, bits, *second)
        }
        (FloatsTaken::Three, [first, second, third]) => {
            is_integer_of(of_module, bits, *first)
                && (is_integer_of(of_module, bits, *second)
                    && is_integer_of(of_module, bits, *third))
        }
        _ => false,
    }
}

/// Whether these are the types of a function of floating point numbers.
pub fn are_float_types(
    of_module: &Module,
    function: FloatFunction,
    bits: u64,
    returned: TypeId,
    parameters: &[TypeId],
) -> bool
    ensures { result ≡ are_float_types of_module.now function bits returned parameters.now }
{
    is_integer_of(of_module, bits, returned)
        && are_taken(of_module, floats_taken(function), bits, parameters)
}

/// Whether a function of floating point numbers is called with its types.
fn are_written_types(
    of_module: &Module,
    function: FloatFunction,
    bits: u64,
    returned: TypeId,
    arguments: &[Argument],
) -> bool
    ensures { result ≡ are_float_types of_module.now function bits returned (written_types arguments.now) }
{
    is_integer_of(of_module, bits, returned)
        && match floats_taken(function) {
            FloatsTaken::One => are_written_with(of_module, &[bits], arguments),
            FloatsTaken::Two => are_written_with(of_module, &[bits, bits], arguments),
            FloatsTaken::Three => are_written_with(of_module, &[bits, bits, bits], arguments),
        }
}

/// What a function of floating point numbers asks for: a number from outside.
pub fn float_action(
    context: &FrameContext<'_>,
    function: FloatFunction,
    bits: u64,
    returned: TypeId,
    arguments: &[Argument],
) -> Action
    ensures { result ≡ float_action context.now.program.now.of_module context.now.function.now context.now.slots.now context.now.registers.now function bits returned arguments.now }
{
    only_if(
        are_written_types(context.of_module(), function, bits, returned, arguments)
            && are_integers(context, arguments),
        asked_outside(context.of_module(), returned),
    )
}
