//! Operations on numbers: what they ask for, and what they give.
ghost use Rattle.std.specs.Prelude.{◌≡◌, ◌&&◌, slice_get};
ghost use Rattle.machine.specs.Kinds.{value_of, is_integer, is_usable_number, bits_at, number_in};
ghost use Rattle.machine.specs.Integers.{may_resize, computed, resized};
ghost use Rattle.machine.specs.Asks.{compares_outside, may_compare, gives_number, number_asked, number_action};
ghost use Rattle.machine.specs.Machine.{are_equal, compared, comparison_value, number_value};
ghost use Rattle.machine.specs.declared.value.Value.TheVariants as value;

use crate::action::{Action, only_if};
use crate::answer::Answer;
use crate::floats::{float_bits, gives_float};
use crate::foreign::given_value;
use crate::frame_context::FrameContext;
use crate::integers::{
    compares, compares_equal, computed, is_equality, may_resize, resized, truth,
};
use crate::kinds::{bits_at, is_integer, number_in};
use crate::operands::{are_numbers, are_references, is_usable_number, value_of};
use crate::outside::compares_outside;
use crate::value::Value;
use ir_ast::{Arithmetic, Comparison, Module, NumberOp, Operand, Resize, TypeId};

fn may_compare(
    context: &FrameContext<'_>,
    kind: Comparison,
    written: TypeId,
    first: &Operand,
    second: &Operand,
) -> bool
    ensures { result ≡ may_compare context.now.program.now.of_module context.now.function.now context.now.slots.now context.now.registers.now kind written first.now second.now }
{
    are_numbers(context, written, first, second)
        || (is_equality(kind) && are_references(context, written, first, second))
}

fn may_resize_to(
    context: &FrameContext<'_>,
    kind: Resize,
    from: TypeId,
    operand: &Operand,
    to: TypeId,
) -> bool
    ensures { let m = context.now.program.now.of_module in result ≡ is_usable_number m context.now.function.now context.now.slots.now context.now.registers.now from operand.now && (is_integer (slice_get m.types to) && may_resize kind (bits_at m from) (bits_at m to)) }
{
    let of_module = context.of_module();
    is_usable_number(context, from, operand)
        && (is_integer(of_module, to)
            && may_resize(kind, bits_at(of_module, from), bits_at(of_module, to)))
}

fn gives_number(context: &FrameContext<'_>, op: &NumberOp) -> bool
    ensures { result ≡ gives_number context.now.program.now.of_module context.now.function.now context.now.slots.now context.now.registers.now op.now }
{
    match op {
        NumberOp::Arithmetic {
            written,
            first,
            second,
            ..
        } => are_numbers(context, *written, first, second),
        NumberOp::Resize {
            kind,
            from,
            operand,
            to,
        } => may_resize_to(context, *kind, *from, operand, *to),
        NumberOp::Compare {
            kind,
            written,
            first,
            second,
        } => {
            may_compare(context, *kind, *written, first, second)
                || compares_outside(context, *written, first, second)
        }
        NumberOp::Float(op) => gives_float(context, op),
    }
}

/// What an operation on numbers asks for: one on floating point numbers, and a comparison of addresses outside, for a number from outside, one on integers for nothing.
fn number_asked(context: &FrameContext<'_>, op: &NumberOp) -> Action
    ensures { result ≡ number_asked context.now.program.now.of_module context.now.function.now context.now.slots.now context.now.registers.now op.now }
{
    match op {
        NumberOp::Arithmetic { .. } | NumberOp::Resize { .. } => Action::Local,
        NumberOp::Compare {
            written,
            first,
            second,
            ..
        } => {
            if compares_outside(context, *written, first, second) {
                Action::Foreign { bits: 1 }
            } else {
                Action::Local
            }
        }
        NumberOp::Float(op) => Action::Foreign {
            bits: float_bits(context.of_module(), op),
        },
    }
}

/// What an operation on numbers asks for, if it has a meaning.
pub fn number_action(context: &FrameContext<'_>, op: &NumberOp) -> Action
    ensures { result ≡ number_action context.now.program.now.of_module context.now.function.now context.now.slots.now context.now.registers.now op.now }
{
    only_if(gives_number(context, op), number_asked(context, op))
}

/// What an integer instruction of two operands gives.
fn arithmetic_value(
    context: &FrameContext<'_>,
    kind: Arithmetic,
    written: TypeId,
    first: &Operand,
    second: &Operand,
) -> Value
    ensures { let m = context.now.program.now.of_module in result ≡ value.Number (computed kind (bits_at m written) (number_in (value_of m context.now.registers.now written first.now)) (number_in (value_of m context.now.registers.now written second.now))) }
{
    Value::Number(computed(
        kind,
        bits_at(context.of_module(), written),
        number_in(&value_of(context, written, first)),
        number_in(&value_of(context, written, second)),
    ))
}

/// What a change of an integer's width gives.
fn resized_value(
    context: &FrameContext<'_>,
    kind: Resize,
    from: TypeId,
    operand: &Operand,
    to: TypeId,
) -> Value
    ensures { let m = context.now.program.now.of_module in result ≡ value.Number (resized kind (bits_at m from) (bits_at m to) (number_in (value_of m context.now.registers.now from operand.now))) }
{
    Value::Number(resized(
        kind,
        bits_at(context.of_module(), from),
        bits_at(context.of_module(), to),
        number_in(&value_of(context, from, operand)),
    ))
}

fn are_equal(first: Value, second: Value) -> bool
    ensures { result ≡ are_equal first second }
{
    match (first, second) {
        (Value::Null, Value::Null) => true,
        (Value::Cell(_, at), Value::Cell(_, there)) => at.cell == there.cell,
        _ => false,
    }
}

/// What an icmp of operands of `bits` bits gives: of two integers, or else of references.
fn compared(kind: Comparison, bits: u32, first: Value, second: Value) -> Value
    ensures { result ≡ compared kind bits first second }
{
    match (first, second) {
        (Value::Number(one), Value::Number(other)) => {
            Value::Number(truth(compares(kind, bits, one, other)))
        }
        _ => Value::Number(truth(compares_equal(kind, are_equal(first, second)))),
    }
}

/// What an icmp gives: of addresses outside what is given from outside.
fn comparison_value(
    context: &FrameContext<'_>,
    kind: Comparison,
    written: TypeId,
    first: &Operand,
    second: &Operand,
    answer: Answer,
) -> Value
    ensures { let m = context.now.program.now.of_module in let registers = context.now.registers.now in result ≡ comparison_value (compares_outside m context.now.function.now context.now.slots.now registers written first.now second.now) kind (bits_at m written) (value_of m registers written first.now) (value_of m registers written second.now) answer }
{
    if compares_outside(context, written, first, second) {
        return given_value(answer);
    }
    compared(
        kind,
        bits_at(context.of_module(), written),
        value_of(context, written, first),
        value_of(context, written, second),
    )
}

/// What an operation on numbers gives.
pub fn number_value(context: &FrameContext<'_>, op: &NumberOp, answer: Answer) -> Value
    ensures { result ≡ number_value context.now.program.now.of_module context.now.function.now context.now.slots.now context.now.registers.now op.now answer }
{
    match op {
        NumberOp::Arithmetic {
            kind,
            written,
            first,
            second,
        } => arithmetic_value(context, *kind, *written, first, second),
        NumberOp::Resize {
            kind,
            from,
            operand,
            to,
        } => resized_value(context, *kind, *from, operand, *to),
        NumberOp::Compare {
            kind,
            written,
            first,
            second,
        } => comparison_value(context, *kind, *written, first, second, answer),
        NumberOp::Float(_) => given_value(answer),
    }
}
