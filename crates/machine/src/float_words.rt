//! The words that floating point numbers are, as they are written.
ghost use Rattle.std.specs.Prelude.{◌≡◌, ◌<◌, ◌≤◌, ◌/◌, ◌^◌};
ghost use Rattle.ir_ast.specs.Floats as spec;
ghost use Rattle.machine.specs.Kinds.{wrapped};

use crate::integers::wrapped_wide;

/// Where the sign of a number of 64 bits stands.
const SIGN: u64 = 1 << 63;
/// Where its exponent begins.
const EXPONENT: u64 = 1 << 52;
/// How much of its fraction a number of 32 bits has no bits for.
const CUT: u64 = 1 << 29;
/// Where the sign of a number of 32 bits stands.
const SHORT_SIGN: u128 = 1 << 31;
/// Where its exponent begins.
const SHORT_EXPONENT: u128 = 1 << 23;

/// 2 to this number.
fn power(by: u64) -> u128
    requires { by < 128 }
    ensures power { result ≡ 2 ^ by }
    ensures some { 0 < result }
{
    1 << (by as u32)
}

/// A number without this many of its lowest bits.
#[tactic(auto, using(crate::proofs::FloatWords::cut_off, crate::proofs::FloatWords::no_more))]
fn without_lowest(number: u128, by: u64) -> u128
    ensures number { result ≡ number / 2 ^ by }
    ensures no_more { result ≤ number }
{
    if by < 128 { number / power(by) } else { 0 }
}

/// The exponent of a number, as it is written in 64 bits.
fn exponent_of(number: u64) -> u64
    ensures { result ≡ spec.exponent_of number }
{
    number / EXPONENT % 2048
}

/// The exponent and the fraction in 32 bits, by those in 64 bits.
fn narrowed_fraction(exponent: u64, fraction: u64) -> u128
    ensures number { result ≡ spec.narrowed_fraction exponent fraction }
    ensures few { result < 2 ^ 100 }
{
    if exponent == 0 {
        0
    } else if exponent == 2047 {
        255 * SHORT_EXPONENT + u128::from(fraction / CUT)
    } else if exponent >= 897 {
        u128::from(exponent - 896) * SHORT_EXPONENT + u128::from(fraction / CUT)
    } else {
        without_lowest(u128::from(EXPONENT) + u128::from(fraction), 926 - exponent)
    }
}

/// The word of a number of 32 bits, which is written as one of 64 bits.
fn narrowed(number: u64) -> u128
    ensures { result ≡ spec.narrowed number }
{
    let sign = u128::from(number / SIGN) * SHORT_SIGN;
    sign + narrowed_fraction(exponent_of(number), number % EXPONENT)
}

/// The word of a number at a type of this number of bits.
fn float_word(bits: u32, number: u64) -> u128
    ensures { result ≡ spec.float_word bits number }
{
    if bits == 32 {
        narrowed(number)
    } else {
        u128::from(number)
    }
}

/// A floating point number as a word of this number of bits holds it.
pub fn float_number(bits: u32, number: u64) -> u64
    ensures { result ≡ wrapped bits (spec.float_word bits number) }
{
    wrapped_wide(bits, float_word(bits, number))
}
