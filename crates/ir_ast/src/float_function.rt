//! LLVM's functions of floating point numbers, by their names.
ghost use Rattle.std.specs.Prelude.{◌≡◌};
ghost use Rattle.ir_ast.specs.FloatFunctions as spec;
ghost use Rattle.ir_ast.specs.IntegerFunctions as integers;

use crate::integer_function::begins;
use crate::runtime::Runtime;

/// What a function of floating point numbers gives.
#[derive(Clone, Copy)]
pub enum FloatFunction {
    /// `fabs`
    Absolute,
    /// `sqrt`
    SquareRoot,
    /// `floor`
    Floor,
    /// `ceil`
    Ceiling,
    /// `trunc`
    Truncated,
    /// `rint`
    Rounded,
    /// `nearbyint`
    NearbyInteger,
    /// `round`
    RoundedAway,
    /// `sin`
    Sine,
    /// `cos`
    Cosine,
    /// `exp`
    Exponential,
    /// `log`
    Logarithm,
    /// `copysign`
    CopySign,
    /// `minnum`
    Minimum,
    /// `maxnum`
    Maximum,
    /// `pow`
    Power,
    /// `fma`
    MultiplyAdd,
    /// `fmuladd`
    MultiplyAddLoosely,
}

/// How many numbers of its width a function of floating point numbers takes.
#[derive(Clone, Copy)]
pub enum FloatsTaken {
    One,
    Two,
    Three,
}

/// What the name of a function of floating point numbers begins with; the digits of the width follow.
pub fn floats_word(function: FloatFunction) -> &'static [u8]
    ensures { result.now ≡ spec.word_of function }
{
    match function {
        FloatFunction::Absolute => b"llvm.fabs.f",
        FloatFunction::SquareRoot => b"llvm.sqrt.f",
        FloatFunction::Floor => b"llvm.floor.f",
        FloatFunction::Ceiling => b"llvm.ceil.f",
        FloatFunction::Truncated => b"llvm.trunc.f",
        FloatFunction::Rounded => b"llvm.rint.f",
        FloatFunction::NearbyInteger => b"llvm.nearbyint.f",
        FloatFunction::RoundedAway => b"llvm.round.f",
        FloatFunction::Sine => b"llvm.sin.f",
        FloatFunction::Cosine => b"llvm.cos.f",
        FloatFunction::Exponential => b"llvm.exp.f",
        FloatFunction::Logarithm => b"llvm.log.f",
        FloatFunction::CopySign => b"llvm.copysign.f",
        FloatFunction::Minimum => b"llvm.minnum.f",
        FloatFunction::Maximum => b"llvm.maxnum.f",
        FloatFunction::Power => b"llvm.pow.f",
        FloatFunction::MultiplyAdd => b"llvm.fma.f",
        FloatFunction::MultiplyAddLoosely => b"llvm.fmuladd.f",
    }
}

/// Whether the name begins as those of this function do.
fn is_begun(name: &[u8], function: FloatFunction) -> bool
    ensures { result ≡ integers.begins (spec.word_of function) name.now }
{
    begins(name, floats_word(function))
}

/// The function of two numbers or three whose name begins so.
fn larger_begun(name: &[u8]) -> Option<FloatFunction>
    ensures { result ≡ spec.larger_begun name.now }
{
    if is_begun(name, FloatFunction::CopySign) {
        Some(FloatFunction::CopySign)
    } else if is_begun(name, FloatFunction::Minimum) {
        Some(FloatFunction::Minimum)
    } else if is_begun(name, FloatFunction::Maximum) {
        Some(FloatFunction::Maximum)
    } else if is_begun(name, FloatFunction::Power) {
        Some(FloatFunction::Power)
    } else if is_begun(name, FloatFunction::MultiplyAdd) {
        Some(FloatFunction::MultiplyAdd)
    } else if is_begun(name, FloatFunction::MultiplyAddLoosely) {
        Some(FloatFunction::MultiplyAddLoosely)
    } else {
        None
    }
}

/// The function that rounds whose name begins so, or one of two numbers or three.
fn rounding_begun(name: &[u8]) -> Option<FloatFunction>
    ensures { result ≡ spec.rounding_begun name.now }
{
    if is_begun(name, FloatFunction::Floor) {
        Some(FloatFunction::Floor)
    } else if is_begun(name, FloatFunction::Ceiling) {
        Some(FloatFunction::Ceiling)
    } else if is_begun(name, FloatFunction::Truncated) {
        Some(FloatFunction::Truncated)
    } else if is_begun(name, FloatFunction::Rounded) {
        Some(FloatFunction::Rounded)
    } else if is_begun(name, FloatFunction::NearbyInteger) {
        Some(FloatFunction::NearbyInteger)
    } else if is_begun(name, FloatFunction::RoundedAway) {
        Some(FloatFunction::RoundedAway)
    } else {
        larger_begun(name)
    }
}

/// The function whose name begins so.
fn function_begun(name: &[u8]) -> Option<FloatFunction>
    ensures { result ≡ spec.function_begun name.now }
{
    if is_begun(name, FloatFunction::Absolute) {
        Some(FloatFunction::Absolute)
    } else if is_begun(name, FloatFunction::SquareRoot) {
        Some(FloatFunction::SquareRoot)
    } else if is_begun(name, FloatFunction::Sine) {
        Some(FloatFunction::Sine)
    } else if is_begun(name, FloatFunction::Cosine) {
        Some(FloatFunction::Cosine)
    } else if is_begun(name, FloatFunction::Exponential) {
        Some(FloatFunction::Exponential)
    } else if is_begun(name, FloatFunction::Logarithm) {
        Some(FloatFunction::Logarithm)
    } else {
        rounding_begun(name)
    }
}

/// A width, in two digits: 32 or 64.
fn width_of(digits: &[u8]) -> Option<u64>
    ensures { result ≡ spec.width_of digits.now }
{
    match digits {
        [tens, ones] => {
            if *tens == b'3' && *ones == b'2' {
                Some(32)
            } else if *tens == b'6' && *ones == b'4' {
                Some(64)
            } else {
                None
            }
        }
        _ => None,
    }
}

/// The function of floating point numbers that has this name.
pub(crate) fn floats_named(name: &[u8]) -> Option<Runtime>
    ensures { result ≡ spec.floats_named name.now }
{
    let function = function_begun(name)?;
    let bits = width_of(name.get(floats_word(function).len()..)?)?;
    Some(Runtime::Float { function, bits })
}

/// What a function of floating point numbers takes.
pub fn floats_taken(function: FloatFunction) -> FloatsTaken
    ensures { result ≡ spec.taken_by function }
{
    match function {
        FloatFunction::CopySign
        | FloatFunction::Minimum
        | FloatFunction::Maximum
        | FloatFunction::Power => FloatsTaken::Two,
        FloatFunction::MultiplyAdd | FloatFunction::MultiplyAddLoosely => FloatsTaken::Three,
        _ => FloatsTaken::One,
    }
}
