//! LLVM's functions of integers, by their names.
ghost use Rattle.std.specs.Prelude.{◌≡◌};
ghost use Rattle.ir_ast.specs.IntegerFunctions as spec;

use crate::runtime::Runtime;

/// What a function of integers gives.
#[derive(Clone, Copy)]
pub enum IntegerFunction {
    /// `smax`: the greater one, by sign.
    MaximumSigned,
    /// `smin`: the lesser one, by sign.
    MinimumSigned,
    /// `umax`: the greater one.
    Maximum,
    /// `umin`: the lesser one.
    Minimum,
    /// `abs`: how far it is from zero, read with its sign.
    Absolute,
    /// `ctpop`: how many bits are set.
    CountOnes,
    /// `ctlz`: how many bits above the highest one that is set.
    CountLeadingZeros,
    /// `cttz`: how many bits below the lowest one that is set.
    CountTrailingZeros,
    /// `bswap`: the bytes in the other order.
    SwapBytes,
    /// `bitreverse`: the bits in the other order.
    ReverseBits,
    /// `fshl`: the first number above the second, as one of twice the width, shifted up: the upper half.
    FunnelLeft,
    /// `fshr`: the same shifted down: the lower half.
    FunnelRight,
}

/// How many integers of its width a function of integers takes.
#[derive(Clone, Copy)]
pub enum IntegersTaken {
    One,
    /// One, and an `i1` of which nothing depends here: with it LLVM leaves some results open.
    Flagged,
    Two,
    Three,
}

/// What the name of a function of integers begins with; the digits of the width follow.
pub fn integers_word(function: IntegerFunction) -> &'static [u8]
    ensures { result.now ≡ spec.word_of function }
{
    match function {
        IntegerFunction::MaximumSigned => b"llvm.smax.i",
        IntegerFunction::MinimumSigned => b"llvm.smin.i",
        IntegerFunction::Maximum => b"llvm.umax.i",
        IntegerFunction::Minimum => b"llvm.umin.i",
        IntegerFunction::Absolute => b"llvm.abs.i",
        IntegerFunction::CountOnes => b"llvm.ctpop.i",
        IntegerFunction::CountLeadingZeros => b"llvm.ctlz.i",
        IntegerFunction::CountTrailingZeros => b"llvm.cttz.i",
        IntegerFunction::SwapBytes => b"llvm.bswap.i",
        IntegerFunction::ReverseBits => b"llvm.bitreverse.i",
        IntegerFunction::FunnelLeft => b"llvm.fshl.i",
        IntegerFunction::FunnelRight => b"llvm.fshr.i",
    }
}

/// Whether a name begins with a word.
pub(crate) fn begins(name: &[u8], word: &[u8]) -> bool
    ensures { result ≡ spec.begins word.now name.now }
{
    name.len() >= word.len() && &name[..word.len()] == word
}

/// Whether the name begins as those of this function do.
fn is_begun(name: &[u8], function: IntegerFunction) -> bool
    ensures { result ≡ spec.begins (spec.word_of function) name.now }
{
    begins(name, integers_word(function))
}

/// The function whose name begins so.
fn function_begun(name: &[u8]) -> Option<IntegerFunction>
    ensures { result ≡ spec.function_begun name.now }
{
    if is_begun(name, IntegerFunction::MaximumSigned) {
        Some(IntegerFunction::MaximumSigned)
    } else if is_begun(name, IntegerFunction::MinimumSigned) {
        Some(IntegerFunction::MinimumSigned)
    } else if is_begun(name, IntegerFunction::Maximum) {
        Some(IntegerFunction::Maximum)
    } else if is_begun(name, IntegerFunction::Minimum) {
        Some(IntegerFunction::Minimum)
    } else if is_begun(name, IntegerFunction::Absolute) {
        Some(IntegerFunction::Absolute)
    } else if is_begun(name, IntegerFunction::CountOnes) {
        Some(IntegerFunction::CountOnes)
    } else if is_begun(name, IntegerFunction::CountLeadingZeros) {
        Some(IntegerFunction::CountLeadingZeros)
    } else if is_begun(name, IntegerFunction::CountTrailingZeros) {
        Some(IntegerFunction::CountTrailingZeros)
    } else if is_begun(name, IntegerFunction::SwapBytes) {
        Some(IntegerFunction::SwapBytes)
    } else if is_begun(name, IntegerFunction::ReverseBits) {
        Some(IntegerFunction::ReverseBits)
    } else if is_begun(name, IntegerFunction::FunnelLeft) {
        Some(IntegerFunction::FunnelLeft)
    } else if is_begun(name, IntegerFunction::FunnelRight) {
        Some(IntegerFunction::FunnelRight)
    } else {
        None
    }
}

/// A width of one or two digits, from 1 to 64.
fn width_of(digits: &[u8]) -> Option<u64>
    ensures { result ≡ spec.width_of digits.now }
{
    match digits {
        [ones] if *ones >= b'1' && *ones <= b'9' => Some((*ones - b'0') as u64),
        [tens, ones] if *tens >= b'1' && *tens <= b'6' && *ones >= b'0' && *ones <= b'9' => {
            up_to_64((*tens - b'0') as u64 * 10 + (*ones - b'0') as u64)
        }
        _ => None,
    }
}

fn up_to_64(bits: u64) -> Option<u64>
    ensures { result ≡ spec.up_to_64 bits }
{
    if bits <= 64 { Some(bits) } else { None }
}

/// Whether there is such a function of integers of `bits` bits.
fn has_width(function: IntegerFunction, bits: u64) -> bool
    ensures { result ≡ spec.has_width function bits }
{
    match function {
        IntegerFunction::SwapBytes => bits % 16 == 0,
        _ => true,
    }
}

/// The function of integers that has this name.
pub(crate) fn integers_named(name: &[u8]) -> Option<Runtime>
    ensures { result ≡ spec.integers_named name.now }
{
    let function = function_begun(name)?;
    let bits = width_of(name.get(integers_word(function).len()..)?)?;
    if has_width(function, bits) {
        Some(Runtime::Integer { function, bits })
    } else {
        None
    }
}

/// What a function of integers takes.
pub fn integers_taken(function: IntegerFunction) -> IntegersTaken
    ensures { result ≡ spec.taken_by function }
{
    match function {
        IntegerFunction::CountOnes | IntegerFunction::SwapBytes | IntegerFunction::ReverseBits =>
            IntegersTaken::One,
        IntegerFunction::Absolute
        | IntegerFunction::CountLeadingZeros
        | IntegerFunction::CountTrailingZeros => IntegersTaken::Flagged,
        IntegerFunction::MaximumSigned
        | IntegerFunction::MinimumSigned
        | IntegerFunction::Maximum
        | IntegerFunction::Minimum => IntegersTaken::Two,
        IntegerFunction::FunnelLeft | IntegerFunction::FunnelRight => IntegersTaken::Three,
    }
}
