//! What integer instructions give.
ghost use Rattle.std.specs.Prelude.{◌≡◌, ◌<◌, ◌*◌, ◌/◌, ◌^◌, if◌then◌else◌};
ghost use Rattle.machine.specs.Kinds.{modulus, wrapped};
ghost use Rattle.machine.specs.Integers.{computed, is_negative, magnitude, differ, with_sign, may_shift, signed_shift, quotient, rest, sign_extended, resized, may_resize, signed_rank, compares, is_equality, compares_equal, truth};

use ir_ast::{Arithmetic, Comparison, Resize};

/// How many values an integer of `bits` bits has; none has more than 64 bits.
fn modulus(bits: u32) -> u128
    ensures modulus { result ≡ modulus bits }
    ensures within { result < 2 ^ 65 }
    ensures some { 0 < result }
{
    if bits < 64 { 1 << bits } else { 1 << 64 }
}

/// A number as an integer of `bits` bits.
pub fn wrapped_wide(bits: u32, number: u128) -> u64
    ensures { result ≡ wrapped bits number }
{
    (number % modulus(bits)) as u64
}

/// A number as an integer of `bits` bits.
pub fn wrapped(bits: u32, number: u64) -> u64
    ensures { result ≡ wrapped bits number }
{
    wrapped_wide(bits, u128::from(number))
}

fn is_negative(bits: u32, number: u64) -> bool
    ensures { result ≡ is_negative bits number }
{
    modulus(bits) <= 2 * u128::from(number)
}

/// How far an integer is from zero, read with its sign.
pub fn magnitude(bits: u32, number: u64) -> u128
    ensures { result ≡ magnitude bits number }
{
    if is_negative(bits, number) {
        modulus(bits).saturating_sub(u128::from(number))
    } else {
        u128::from(number)
    }
}

/// A number with this sign, modulo the number of values.
fn with_sign(bits: u32, negative: bool, number: u128) -> u128
    ensures { result ≡ with_sign bits negative number }
{
    if negative {
        modulus(bits).saturating_sub(number)
    } else {
        number
    }
}

/// Whether a shift by `by` bits is less than the width.
fn may_shift(bits: u32, by: u64) -> bool
    ensures { result ≡ may_shift bits by }
{
    by < u64::from(bits) && by < 64
}

/// 2 to this number.
fn power(by: u64) -> u64
    requires { by < 64 }
    ensures power { result ≡ 2 ^ by }
    ensures some { 0 < result }
{
    1 << (by as u32)
}

fn shifted_left(bits: u32, number: u64, by: u64) -> u128
    ensures { result ≡ (if may_shift bits by then number * 2 ^ by else 0) }
{
    if may_shift(bits, by) {
        u128::from(number) * u128::from(power(by))
    } else {
        0
    }
}

fn shifted_right(bits: u32, number: u64, by: u64) -> u128
    ensures { result ≡ (if may_shift bits by then number / 2 ^ by else 0) }
{
    if may_shift(bits, by) {
        u128::from(number / power(by))
    } else {
        0
    }
}

/// An integer shifted down, with its sign in the place of what is gone.
fn signed_shift(bits: u32, number: u64, by: u64) -> u128
    requires { by < 64 }
    ensures { result ≡ signed_shift bits number by }
{
    let power = u128::from(power(by));
    if is_negative(bits, number) {
        let last = modulus(bits) - 1;
        let below = last.saturating_sub(u128::from(number));
        last.saturating_sub(below / power)
    } else {
        u128::from(number) / power
    }
}

fn shifted_signed(bits: u32, number: u64, by: u64) -> u128
    ensures { result ≡ (if may_shift bits by then signed_shift bits number by else 0) }
{
    if may_shift(bits, by) {
        signed_shift(bits, number, by)
    } else {
        0
    }
}

/// How many times a number is in another one; 0 where it is 0.
fn quotient(number: u128, by: u128) -> u128
    ensures { result ≡ quotient number by }
{
    if by == 0 { 0 } else { number / by }
}

/// What is left then; 0 where it is 0.
fn rest(number: u128, by: u128) -> u128
    ensures { result ≡ rest number by }
{
    if by == 0 { 0 } else { number % by }
}

/// Whether one of them holds, and the other one does not.
fn differ(one: bool, other: bool) -> bool
    ensures { result ≡ differ one other }
{
    if one { !other } else { other }
}

fn divided_signed(bits: u32, first: u64, second: u64) -> u128
    ensures { result ≡ with_sign bits (differ (is_negative bits first) (is_negative bits second)) (quotient (magnitude bits first) (magnitude bits second)) }
{
    let times = quotient(magnitude(bits, first), magnitude(bits, second));
    with_sign(
        bits,
        differ(is_negative(bits, first), is_negative(bits, second)),
        times,
    )
}

fn rest_signed(bits: u32, first: u64, second: u64) -> u128
    ensures { result ≡ with_sign bits (is_negative bits first) (rest (magnitude bits first) (magnitude bits second)) }
{
    let left = rest(magnitude(bits, first), magnitude(bits, second));
    with_sign(bits, is_negative(bits, first), left)
}

/// The sum, the product and so on of two integers of `bits` bits.
pub fn computed(kind: Arithmetic, bits: u32, first: u64, second: u64) -> u64
    ensures { result ≡ computed kind bits first second }
{
    let (one, other) = (u128::from(first), u128::from(second));
    let wide = match kind {
        Arithmetic::Add => one + other,
        Arithmetic::Sub => one + modulus(bits) - u128::from(wrapped(bits, second)),
        Arithmetic::Mul => one * other,
        Arithmetic::And => u128::from(first & second),
        Arithmetic::Or => u128::from(first | second),
        Arithmetic::Xor => u128::from(first ^ second),
        Arithmetic::ShiftLeft => shifted_left(bits, first, second),
        Arithmetic::ShiftRight => shifted_right(bits, first, second),
        Arithmetic::ShiftRightSigned => shifted_signed(bits, first, second),
        Arithmetic::Divide => quotient(one, other),
        Arithmetic::DivideSigned => divided_signed(bits, first, second),
        Arithmetic::Remainder => rest(one, other),
        Arithmetic::RemainderSigned => rest_signed(bits, first, second),
    };
    wrapped_wide(bits, wide)
}

fn sign_extended(bits: u32, to: u32, number: u64) -> u128
    ensures extended { result ≡ sign_extended bits to number }
{
    let number_there = u128::from(number);
    if is_negative(bits, number) {
        (number_there + modulus(to)).saturating_sub(modulus(bits))
    } else {
        number_there
    }
}

/// An integer of `bits` bits, read with its sign, modulo 2 to the 64.
pub fn read_signed(bits: u32, number: u64) -> u64
    ensures { result ≡ wrapped 64 (sign_extended bits 64 number) }
{
    wrapped_wide(64, sign_extended(bits, 64, number))
}

/// A change of an integer's width.
pub fn resized(kind: Resize, bits: u32, to: u32, number: u64) -> u64
    ensures { result ≡ resized kind bits to number }
{
    match kind {
        Resize::ZeroExtend | Resize::Truncate => wrapped(to, number),
        Resize::SignExtend => wrapped_wide(to, sign_extended(bits, to, number)),
    }
}

/// Whether the width may change so.
pub fn may_resize(kind: Resize, bits: u32, to: u32) -> bool
    ensures { result ≡ may_resize kind bits to }
{
    match kind {
        Resize::ZeroExtend | Resize::SignExtend => bits < to,
        Resize::Truncate => to < bits,
    }
}

fn signed_rank(bits: u32, number: u64) -> u128
    ensures { result ≡ signed_rank bits number }
{
    if is_negative(bits, number) {
        u128::from(number)
    } else {
        u128::from(number) + modulus(bits)
    }
}

/// A comparison of two integers of `bits` bits.
pub fn compares(kind: Comparison, bits: u32, first: u64, second: u64) -> bool
    ensures { result ≡ compares kind bits first second }
{
    match kind {
        Comparison::Equal => first == second,
        Comparison::NotEqual => first != second,
        Comparison::UnsignedGreater => first > second,
        Comparison::UnsignedGreaterOrEqual => first >= second,
        Comparison::UnsignedLess => first < second,
        Comparison::UnsignedLessOrEqual => first <= second,
        Comparison::SignedGreater => signed_rank(bits, first) > signed_rank(bits, second),
        Comparison::SignedGreaterOrEqual => signed_rank(bits, first) >= signed_rank(bits, second),
        Comparison::SignedLess => signed_rank(bits, first) < signed_rank(bits, second),
        Comparison::SignedLessOrEqual => signed_rank(bits, first) <= signed_rank(bits, second),
    }
}

/// Whether a comparison asks only if its operands are equal.
pub fn is_equality(kind: Comparison) -> bool
    ensures { result ≡ is_equality kind }
{
    matches!(kind, Comparison::Equal | Comparison::NotEqual)
}

/// A comparison of two references, by whether they are equal.
pub fn compares_equal(kind: Comparison, equal: bool) -> bool
    ensures { result ≡ compares_equal kind equal }
{
    match kind {
        Comparison::NotEqual => !equal,
        _ => equal,
    }
}

/// A truth as an integer of one bit.
pub fn truth(holds: bool) -> u64
    ensures { result ≡ truth holds }
{
    u64::from(holds)
}
