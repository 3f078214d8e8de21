//! What is from outside: what a load there and a call of a function outside ask for, what such a call takes, and what is given.
ghost use Rattle.std.specs.Prelude.{◌≡◌, ◌||◌, slice_get};
ghost use Rattle.machine.specs.Asks.{asked_given, asked_outside, is_address_argument, are_outside_arguments};
ghost use Rattle.machine.specs.Kinds.{is_usable_number};
ghost use Rattle.machine.specs.Machine.{given_value};

use crate::action::Action;
use crate::answer::Answer;
use crate::frame_context::FrameContext;
use crate::kinds::{bits_at, is_integer, is_pointer_type, is_void};
use crate::operands::is_usable_number;
use crate::outside::{is_null_at, is_usable_outside};
use crate::value::Value;
use ir_ast::{Argument, Module, TypeId};

/// A number from outside, by its type; an address outside is one of 64 bits.
pub fn asked_given(of_module: &Module, written: TypeId) -> Action
    ensures { result ≡ asked_given (slice_get of_module.now.types written) }
{
    if is_integer(of_module, written) {
        Action::Foreign {
            bits: bits_at(of_module, written),
        }
    } else if is_pointer_type(of_module, written) {
        Action::Foreign { bits: 64 }
    } else {
        Action::Wrong
    }
}

/// What a function outside gives, by its type: nothing, a number or an address outside.
pub fn asked_outside(of_module: &Module, returned: TypeId) -> Action
    ensures { result ≡ asked_outside (slice_get of_module.now.types returned) }
{
    if is_void(of_module, returned) {
        Action::Local
    } else {
        asked_given(of_module, returned)
    }
}

/// Whether an argument is null or an address outside, written at a pointer type.
fn is_address_argument(context: &FrameContext<'_>, argument: &Argument) -> bool
    ensures { result ≡ is_address_argument context.now.program.now.of_module context.now.function.now context.now.slots.now context.now.registers.now argument.now }
{
    is_null_at(context.of_module(), argument.written, &argument.operand)
        || is_usable_outside(context, argument.written, &argument.operand)
}

/// Whether a function outside takes an argument: a number of its type, null, or an address outside.
fn is_taken(context: &FrameContext<'_>, argument: &Argument) -> bool
    ensures { let m = context.now.program.now.of_module in let f = context.now.function.now in let slots = context.now.slots.now in let registers = context.now.registers.now in result ≡ (is_usable_number m f slots registers argument.now.written argument.now.operand || is_address_argument m f slots registers argument.now) }
{
    is_usable_number(context, argument.written, &argument.operand)
        || is_address_argument(context, argument)
}

/// Whether there is one argument for each of these types, written with it, that a function outside takes, and past them only addresses outside.
pub fn are_outside_arguments(
    context: &FrameContext<'_>,
    types: &[TypeId],
    arguments: &[Argument],
) -> bool
    ensures { result ≡ are_outside_arguments context.now.program.now.of_module context.now.function.now context.now.slots.now context.now.registers.now types.now arguments.now }
{
    let mut rest = types;
    for argument in arguments {
        let taken = match rest {
            [written, others @ ..] => {
                rest = others;
                argument.written == *written && is_taken(context, argument)
            }
            [] => is_usable_outside(context, argument.written, &argument.operand),
        };
        if !taken {
            return false;
        }
    }
    rest.is_empty()
}

/// A number from outside, as it is given.
pub fn given_value(answer: Answer) -> Value
    ensures { result ≡ given_value answer }
{
    match answer {
        Answer::Number(number) => Value::Number(number),
        _ => Value::Unset,
    }
}
