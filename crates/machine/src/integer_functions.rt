//! What LLVM's functions of integers give.
ghost use Rattle.std.specs.Prelude.{◌≡◌, ◌≤◌, ◌<◌, ◌^◌};
ghost use Rattle.std.specs.Option.{option_copied};
ghost use Rattle.machine.specs.Integers.{rest};
ghost use Rattle.machine.specs.IntegerFunctions as spec;
ghost use Rattle.machine.specs.Machine.{integer_argument, integers_value};

use crate::frame_context::FrameContext;
use crate::integers::{compares, computed, magnitude, wrapped_wide};
use crate::kinds::number_in;
use crate::operands::value_of;
use crate::value::Value;
use ir_ast::{Argument, Arithmetic, Comparison, IntegerFunction};

/// The first of two integers if they compare so, or else the second one.
fn first_if(kind: Comparison, bits: u32, first: u64, second: u64) -> u64
    ensures { result ≡ spec.first_if kind bits first second }
{
    if compares(kind, bits, first, second) {
        first
    } else {
        second
    }
}

/// How many of the lowest `bits` bits of a number are set.
fn ones(bits: u64, number: u64) -> u64
    ensures { result ≡ spec.ones bits number }
{
    let mut count = 0;
    let mut left = number;
    for turn in 0..bits {
        count += left % 2;
        left /= 2;
    }
    count
}

/// How many of `bits` bits lie above the highest one that is set of a number that they hold.
fn zeros_above(bits: u64, number: u64) -> u64
    ensures { result ≡ spec.zeros_above bits number }
{
    let mut above = bits;
    let mut left = number;
    while above > 0 && left > 0 {
        above -= 1;
        left /= 2;
    }
    above
}

/// How many of the lowest `bits` bits of a number lie below the lowest one that is set.
fn zeros_below(bits: u64, number: u64) -> u64
    ensures { result ≡ spec.zeros_below bits number }
{
    let mut below = 0;
    let mut left = number;
    while below < bits && left % 2 == 0 {
        below += 1;
        left /= 2;
    }
    below
}

/// The lowest digits of a number, to this base, in the other order.
fn reversed(base: u64, digits: u64, number: u64) -> u64
    requires some { 0 < base }
    requires room { base ^ digits ≤ 2 ^ 64 }
    ensures { result ≡ spec.reversed base digits number }
{
    let mut turned = 0;
    let mut left = number;
    for turn in 0..digits {
        turned = turned * base + left % base;
        left /= base;
    }
    turned
}

/// How far a number turns integers of `bits` bits.
fn turned_by(bits: u32, number: u64) -> u64
    ensures { result ≡ rest number bits }
{
    if bits == 0 {
        0
    } else {
        number % u64::from(bits)
    }
}

/// The first of two integers of `bits` bits above the second, as one of twice the width, shifted up: the upper half.
fn shifted_up(bits: u32, first: u64, second: u64, by: u64) -> u64
    ensures { result ≡ spec.shifted_up bits first second by }
{
    let lower = computed(
        Arithmetic::ShiftRight,
        bits,
        second,
        u64::from(bits).saturating_sub(by),
    );
    computed(
        Arithmetic::Add,
        bits,
        computed(Arithmetic::ShiftLeft, bits, first, by),
        lower,
    )
}

/// The first of two integers of `bits` bits above the second, as one of twice the width, shifted down: the lower half.
fn shifted_down(bits: u32, first: u64, second: u64, by: u64) -> u64
    ensures { result ≡ spec.shifted_down bits first second by }
{
    let upper = computed(
        Arithmetic::ShiftLeft,
        bits,
        first,
        u64::from(bits).saturating_sub(by),
    );
    computed(
        Arithmetic::Add,
        bits,
        upper,
        computed(Arithmetic::ShiftRight, bits, second, by),
    )
}

/// What a function of integers of `bits` bits gives of what it takes.
#[tactic(auto, using(crate::proofs::Turns::bytes_fit, crate::proofs::Turns::bits_fit))]
fn given_by(function: IntegerFunction, bits: u32, a: u64, b: u64, c: u64) -> u128
    requires { bits ≤ 64 }
    ensures { result ≡ spec.given_by function bits a b c }
{
    let width = u64::from(bits);
    match function {
        IntegerFunction::MaximumSigned => {
            u128::from(first_if(Comparison::SignedGreater, bits, a, b))
        }
        IntegerFunction::MinimumSigned => u128::from(first_if(Comparison::SignedLess, bits, a, b)),
        IntegerFunction::Maximum => u128::from(first_if(Comparison::UnsignedGreater, bits, a, b)),
        IntegerFunction::Minimum => u128::from(first_if(Comparison::UnsignedLess, bits, a, b)),
        IntegerFunction::Absolute => magnitude(bits, a),
        IntegerFunction::CountOnes => u128::from(ones(width, a)),
        IntegerFunction::CountLeadingZeros => u128::from(zeros_above(width, a)),
        IntegerFunction::CountTrailingZeros => u128::from(zeros_below(width, a)),
        IntegerFunction::SwapBytes => u128::from(reversed(256, width / 8, a)),
        IntegerFunction::ReverseBits => u128::from(reversed(2, width, a)),
        IntegerFunction::FunnelLeft => u128::from(shifted_up(bits, a, b, turned_by(bits, c))),
        IntegerFunction::FunnelRight => u128::from(shifted_down(bits, a, b, turned_by(bits, c))),
    }
}

/// No integer has more than 64 bits.
fn width_at(bits: u64) -> u32
    ensures { result ≡ spec.width_at bits }
{
    if bits < 64 { bits as u32 } else { 64 }
}

/// What a function of integers gives, as an integer of `bits` bits.
#[tactic(auto, using(crate::proofs::Turns::width_kept))]
fn function_value(function: IntegerFunction, bits: u64, a: u64, b: u64, c: u64) -> u64
    ensures { result ≡ spec.function_value function bits a b c }
{
    let width = width_at(bits);
    wrapped_wide(width, given_by(function, width, a, b, c))
}

/// The integer that an argument is, if there is one.
fn integer_argument(context: &FrameContext<'_>, argument: Option<&Argument>) -> u64
    ensures { result ≡ integer_argument context.now.program.now.of_module context.now.registers.now (option_copied argument.entry) }
{
    match argument {
        Some(argument) => number_in(&value_of(context, argument.written, &argument.operand)),
        None => 0,
    }
}

/// What a function of integers gives of its arguments.
pub fn integers_value(
    context: &FrameContext<'_>,
    function: IntegerFunction,
    bits: u64,
    arguments: &[Argument],
) -> Value
    ensures { result ≡ integers_value context.now.program.now.of_module context.now.registers.now function bits arguments.now }
{
    Value::Number(function_value(
        function,
        bits,
        integer_argument(context, arguments.get(0)),
        integer_argument(context, arguments.get(1)),
        integer_argument(context, arguments.get(2)),
    ))
}
