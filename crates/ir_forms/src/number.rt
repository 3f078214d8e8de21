//! Numbers as they are written.
ghost use Rattle.std.specs.Prelude.{◌≡◌, ◌≤◌};
ghost use Rattle.ir_forms.specs.Number as spec;

use name_text::decimal;

/// The number that a length spells, if it is at least 0 and below 2 to the 64.
#[tactic(auto, unfolding(crate::specs::Number::natural))]
pub fn natural(spelling: &[u8]) -> Option<u64>
    ensures { result ≡ spec.natural spelling.now }
{
    match spelling {
        [b'-', digits @ ..] => not_below_zero(decimal(digits)?),
        digits => decimal(digits),
    }
}

/// The negative of a number, if it is not below 0.
fn not_below_zero(number: u64) -> Option<u64>
    ensures { result ≡ spec.not_below_zero number }
{
    if number == 0 { Some(0) } else { None }
}

/// Half the count of the numbers that an integer of `bits` bits has.
fn half_of(bits: u32) -> u64
    ensures value { result ≡ spec.half_of bits }
    ensures small { result ≤ 9223372036854775808 }
{
    2u64.pow(bits.min(64).saturating_sub(1))
}

/// The number that a constant of `bits` bits spells; a negative one is counted down from 2 to the bits.
#[tactic(auto, unfolding(crate::specs::Number::constant))]
pub fn constant(spelling: &[u8], bits: u32) -> Option<u64>
    ensures { result ≡ spec.constant spelling.now bits }
{
    let half = half_of(bits);
    match spelling {
        [b'-', digits @ ..] => negative(decimal(digits)?, half),
        digits => positive(decimal(digits)?, half),
    }
}

fn positive(number: u64, half: u64) -> Option<u64>
    ensures { result ≡ spec.positive half number }
{
    if number / 2 < half {
        Some(number)
    } else {
        None
    }
}

fn negative(number: u64, half: u64) -> Option<u64>
    requires { half ≤ 9223372036854775808 }
    ensures { result ≡ spec.negative half number }
{
    if number > half {
        None
    } else if number == 0 {
        Some(0)
    } else {
        Some(half - number + half)
    }
}
