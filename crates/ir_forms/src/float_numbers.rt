//! Floating point numbers as they are written: in decimals, or as the bits of them.
ghost use Rattle.std.specs.Prelude.{◌≡◌, ◌<◌, ◌≤◌, ◌^◌, drop, length};
ghost use Rattle.std.specs.List.{list_all, prefix_len};
ghost use Rattle.ir_ast.specs.Floats as floats;
ghost use Rattle.ir_forms.specs.FloatNumbers as spec;

use ir_tokens::{digit, digit_len, is_name};
use name_text::is_number;

/// Whether a byte belongs to a number: a name may have it, or it is a plus.
fn is_part(byte: u8) -> bool
    ensures { result ≡ spec.is_part byte }
{
    is_name(byte) || byte == b'+'
}

/// How many bytes from the first one on belong to one number.
fn part_len(bytes: &[u8]) -> usize
    ensures value { result ≡ prefix_len spec.is_part bytes.now }
    ensures within { result ≤ length bytes.now }
{
    bytes.iter().take_while(|byte| is_part(**byte)).count()
}

/// The bytes from the first one on that belong to one number.
pub fn run_of(bytes: &[u8]) -> &[u8]
    ensures { result.now ≡ spec.run_of bytes.now }
{
    &bytes[..part_len(bytes)]
}

// ---- decimals

/// The bytes after the digits that come first.
fn past_digits(bytes: &[u8]) -> &[u8]
    ensures { result.now ≡ spec.past_digits bytes.now }
{
    &bytes[digit_len(bytes)..]
}

/// Whether this is digits, with a sign before them or without one.
fn is_signed_number(bytes: &[u8]) -> bool
    ensures { result ≡ spec.is_signed_number bytes.now }
{
    match bytes {
        [] => false,
        [first, digits @ ..] => {
            if *first == b'+' || *first == b'-' {
                is_number(digits)
            } else {
                is_number(bytes)
            }
        }
    }
}

/// Whether this is nothing, or an `e` and the number of tens.
fn is_exponent(bytes: &[u8]) -> bool
    ensures { result ≡ spec.is_exponent bytes.now }
{
    match bytes {
        [] => true,
        [first, tens @ ..] => (*first == b'e' || *first == b'E') && is_signed_number(tens),
    }
}

/// Whether this is a point, and what may follow it.
fn is_fraction(bytes: &[u8]) -> bool
    ensures { result ≡ spec.is_fraction bytes.now }
{
    match bytes {
        [] => false,
        [first, fraction @ ..] => *first == b'.' && is_exponent(past_digits(fraction)),
    }
}

/// Whether this is digits, a point, and what may follow it.
fn is_unsigned_decimal(word: &[u8]) -> bool
    ensures { result ≡ spec.is_unsigned_decimal word.now }
{
    digit_len(word) > 0 && is_fraction(past_digits(word))
}

/// Whether this is such a number, with a minus before it or without one.
fn is_decimal(word: &[u8]) -> bool
    ensures { result ≡ spec.is_decimal word.now }
{
    match word {
        [] => false,
        [first, unsigned @ ..] => {
            if *first == b'-' {
                is_unsigned_decimal(unsigned)
            } else {
                is_unsigned_decimal(word)
            }
        }
    }
}

/// The bits of a number that is finite.
fn finite_bits(number: f64) -> Option<u64>
    ensures { result ≡ spec.finite_bits number }
{
    if number.is_nan() {
        None
    } else if number.is_infinite() {
        None
    } else {
        Some(number.to_bits())
    }
}

/// The bits of the number of 64 bits that is the nearest one to a decimal, if that is finite.
fn decimal_bits(word: &[u8]) -> Option<u64>
    ensures { result ≡ spec.decimal_bits word.now }
{
    match fast_float::parse::<f64, _>(word) {
        Ok(number) => finite_bits(number),
        Err(_) => None,
    }
}

// ---- hexadecimal numbers

/// A number with one hexadecimal digit more, if it is below 2 to the 64.
fn with_digit(number: u64, byte: u8) -> Option<u64>
    ensures { result ≡ spec.with_digit number byte }
{
    let value = digit(byte)?;
    number.checked_mul(16)?.checked_add(u64::from(value))
}

/// The number below 2 to the 64 that hexadecimal digits spell.
fn hexadecimal(digits: &[u8]) -> Option<u64>
    ensures { result ≡ spec.hexadecimal_after 0 digits.now }
{
    let mut number: u64 = 0;
    let mut rest = digits;
    while let [byte, after @ ..] = rest {
        number = with_digit(number, *byte)?;
        rest = after;
    }
    Some(number)
}

fn is_hexadecimal_digit(byte: u8) -> bool
    ensures { result ≡ spec.is_hexadecimal_digit byte }
{
    digit(byte).is_some()
}

fn each_is_hexadecimal(digits: &[u8]) -> bool
    ensures { result ≡ list_all spec.is_hexadecimal_digit digits.now }
{
    digits.iter().all(|byte| is_hexadecimal_digit(*byte))
}

/// Whether this is hexadecimal digits, at least one.
fn are_hexadecimal_digits(digits: &[u8]) -> bool
    ensures { result ≡ spec.are_hexadecimal_digits digits.now }
{
    !digits.is_empty() && each_is_hexadecimal(digits)
}

/// Whether this is `0x` and hexadecimal digits.
fn is_hexadecimal(word: &[u8]) -> bool
    ensures { result ≡ spec.is_hexadecimal word.now }
{
    match word {
        [first, second, digits @ ..] => {
            *first == b'0' && *second == b'x' && are_hexadecimal_digits(digits)
        }
        _ => false,
    }
}

// ---- both

/// Whether a word is a floating point number.
#[tactic(auto, unfolding(crate::specs::FloatNumbers::is_float_number))]
pub fn is_float_number(word: &[u8]) -> bool
    ensures { result ≡ spec.is_float_number word.now }
{
    is_hexadecimal(word) || is_decimal(word)
}

/// The bytes after the first two.
fn past_two(word: &[u8]) -> &[u8]
    ensures { result.now ≡ drop 2 word.now }
{
    match word {
        [_, _, rest @ ..] => rest,
        _ => &[],
    }
}

/// The bits of 64 of a word that is a floating point number, if it is finite as a decimal, or has no more bits as a hexadecimal number.
#[tactic(auto, unfolding(crate::specs::FloatNumbers::float_bits))]
pub fn float_bits(word: &[u8]) -> Option<u64>
    ensures { result ≡ spec.float_bits word.now }
{
    if is_hexadecimal(word) {
        hexadecimal(past_two(word))
    } else {
        decimal_bits(word)
    }
}

// ---- numbers that 32 bits hold

/// Where the exponent of a number of 64 bits begins.
const EXPONENT: u64 = 0x10_0000_0000_0000;

/// How much of its fraction a number of 32 bits has no bits for.
const CUT: u64 = 0x2000_0000;

/// 2 to this number.
fn power(by: u32) -> u64
    requires { by < 64 }
    ensures power { result ≡ 2 ^ by }
    ensures some { 0 < result }
{
    2u64.pow(by)
}

/// How many bits of the fraction 32 bits cut off.
fn cut_by(exponent: u64) -> u32
    requires { 874 ≤ exponent }
    ensures value { result ≡ floats.cut_by exponent }
    ensures few { result ≤ 52 }
{
    if exponent >= 897 {
        29
    } else {
        (926 - exponent) as u32
    }
}

/// Whether only zeros are cut off.
fn cuts_zeros(exponent: u64, fraction: u64) -> bool
    requires { 874 ≤ exponent }
    ensures { result ≡ floats.cuts_zeros exponent fraction }
{
    fraction % power(cut_by(exponent)) == 0
}

fn exponent_of(number: u64) -> u64
    ensures { result ≡ floats.exponent_of number }
{
    number / EXPONENT % 2048
}

fn fraction_of(number: u64) -> u64
    ensures { result ≡ floats.fraction_of number }
{
    number % EXPONENT
}

/// Whether 32 bits hold a number of 64 bits.
pub fn is_float(number: u64) -> bool
    ensures { result ≡ floats.is_float number }
{
    let exponent = exponent_of(number);
    let fraction = fraction_of(number);
    if exponent == 0 {
        fraction == 0
    } else if exponent == 2047 {
        fraction % CUT == 0
    } else {
        exponent >= 874 && exponent <= 1150 && cuts_zeros(exponent, fraction)
    }
}
