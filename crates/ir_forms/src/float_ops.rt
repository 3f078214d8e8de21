//! Operations on floating point numbers, of the wide forms.
ghost use Rattle.std.specs.Prelude.{◌≡◌};
ghost use Rattle.ir_forms.specs.Input.{Reads};
ghost use Rattle.ir_forms.specs.FloatOps as form;

use crate::decorating::optional;
use crate::fault::Fault;
use crate::input::Input;
use crate::listed::{Listed, many};
use crate::numbers::{TwoOperands, integer_op};
use crate::written::{Word, WrittenType, is_float_word, word_of};
use ir_ast::{
    Conversion, FloatArithmetic, FloatComparison, FloatOp, IrType, NumberOp, Op, ValueId,
};
use ir_tokens::Kind;
use std::alloc::Global;

// ---- the word

/// What the word of an operation on floating point numbers names.
#[derive(Clone, Copy)]
pub enum FloatWord {
    Arithmetic(FloatArithmetic),
    /// fneg
    Negate,
    /// fcmp
    Compare,
    Convert(Conversion),
}

/// The operation of two numbers that a word names.
fn arithmetic_of(word: &[u8]) -> Option<FloatArithmetic>
    ensures { result ≡ form.arithmetic_of word.now }
{
    if word == b"fadd".as_slice() {
        Some(FloatArithmetic::Add)
    } else if word == b"fsub".as_slice() {
        Some(FloatArithmetic::Subtract)
    } else if word == b"fmul".as_slice() {
        Some(FloatArithmetic::Multiply)
    } else if word == b"fdiv".as_slice() {
        Some(FloatArithmetic::Divide)
    } else if word == b"frem".as_slice() {
        Some(FloatArithmetic::Remainder)
    } else {
        None
    }
}

/// The change of a number that a word names.
fn conversion_of(word: &[u8]) -> Option<Conversion>
    ensures { result ≡ form.conversion_of word.now }
{
    if word == b"fpext".as_slice() {
        Some(Conversion::Extend)
    } else if word == b"fptrunc".as_slice() {
        Some(Conversion::Truncate)
    } else if word == b"fptosi".as_slice() {
        Some(Conversion::ToSigned)
    } else if word == b"fptoui".as_slice() {
        Some(Conversion::ToUnsigned)
    } else if word == b"sitofp".as_slice() {
        Some(Conversion::FromSigned)
    } else if word == b"uitofp".as_slice() {
        Some(Conversion::FromUnsigned)
    } else {
        None
    }
}

/// `fneg` and `fcmp`.
fn other_of(word: &[u8]) -> Option<FloatWord>
    ensures { result ≡ form.other_of word.now }
{
    if word == b"fneg".as_slice() {
        Some(FloatWord::Negate)
    } else if word == b"fcmp".as_slice() {
        Some(FloatWord::Compare)
    } else {
        None
    }
}

/// A change of a number, if the word names one, or else one of those two.
fn conversion_or_other(word: &[u8]) -> Option<FloatWord>
    ensures { result ≡ form.conversion_or_other word.now (form.conversion_of word.now) }
{
    match conversion_of(word) {
        Some(kind) => Some(FloatWord::Convert(kind)),
        None => other_of(word),
    }
}

/// What a word names.
fn float_word_of(word: &[u8]) -> Option<FloatWord>
    ensures { result ≡ form.float_word_of word.now }
{
    match arithmetic_of(word) {
        Some(kind) => Some(FloatWord::Arithmetic(kind)),
        None => conversion_or_other(word),
    }
}

/// What the next token names, where the wide forms may stand.
#[tactic(auto, unfolding(crate::specs::FloatOps::float_word_here))]
fn float_word_here(input: &Input<'_>) -> Option<FloatWord>
    ensures { result ≡ form.float_word_here input.now }
{
    if input.wide && input.sees(Kind::LeftOut) {
        float_word_of(input.cursor.spelling())
    } else {
        None
    }
}

// ---- flags

/// Whether a word is a flag, which says what may be taken for granted of the numbers.
fn is_float_flag(word: &[u8]) -> bool
    ensures { result ≡ form.is_float_flag word.now }
{
    word == b"nnan".as_slice()
        || word == b"ninf".as_slice()
        || word == b"nsz".as_slice()
        || word == b"arcp".as_slice()
        || word == b"contract".as_slice()
        || word == b"afn".as_slice()
        || word == b"reassoc".as_slice()
        || word == b"fast".as_slice()
}

/// Whether a flag is here.
#[tactic(auto, unfolding(crate::specs::FloatOps::at_float_flag))]
fn at_float_flag(input: &Input<'_>) -> bool
    ensures { result ≡ form.at_float_flag input.now }
{
    input.sees(Kind::LowercaseWord) && is_float_flag(input.cursor.spelling())
}

/// The flags of an operation, up to where none is.
struct FloatFlags;

impl Listed for FloatFlags {
    ghost use Rattle.ir_forms.specs.FloatOps.{float_flag, at_no_float_flag};

    type Item = ();

    ghost form = { float_flag.read };

    ghost ends = { at_no_float_flag };

    fn ends(input: &Input<'_>) -> bool {
        !at_float_flag(input)
    }

    fn read(_alloc: Global, input: &mut Input<'_>) -> Result<(), Fault> {
        input.expect(Kind::LowercaseWord)
    }
}

/// The word of an operation, with the flags after it.
#[tactic(auto, unfolding(crate::specs::FloatOps::flagged_float))]
fn flagged_float(alloc: Global, input: &mut Input<'_>) -> Result<(), Fault>
    ensures { Reads (form.flagged_float.read input.old) result input.new }
{
    input.skip();
    many::<FloatFlags>(alloc, input)?;
    Ok(())
}

// ---- operations of two numbers, and of one

/// Two operands, after their type, of floating point numbers.
#[tactic(auto, unfolding(crate::specs::FloatOps::float_pair))]
fn float_pair(alloc: Global, input: &mut Input<'_>) -> Result<TwoOperands, Fault>
    ensures { Reads (form.float_pair.read input.old) result input.new }
{
    let written = input.float_scalar(alloc)?;
    let first = input.operand(alloc, word_of(&written))?;
    input.expect(Kind::Comma)?;
    let second = input.operand(alloc, word_of(&written))?;
    Ok(TwoOperands {
        written: written.id,
        first,
        second,
    })
}

#[tactic(auto, unfolding(crate::specs::FloatOps::float_arithmetic))]
fn float_arithmetic(
    alloc: Global,
    input: &mut Input<'_>,
    kind: FloatArithmetic,
    value: ValueId,
) -> Result<FloatOp, Fault>
    ensures { Reads ((form.float_arithmetic kind value).read input.old) result input.new }
{
    flagged_float(alloc, input)?;
    let pair = float_pair(alloc, input)?;
    input.set_type(value, pair.written);
    Ok(FloatOp::Arithmetic {
        kind,
        written: pair.written,
        first: pair.first,
        second: pair.second,
    })
}

#[tactic(auto, unfolding(crate::specs::FloatOps::negate))]
fn negate(alloc: Global, input: &mut Input<'_>, value: ValueId) -> Result<FloatOp, Fault>
    ensures { Reads ((form.negate value).read input.old) result input.new }
{
    flagged_float(alloc, input)?;
    let written = input.float_scalar(alloc)?;
    let operand = input.operand(alloc, word_of(&written))?;
    input.set_type(value, written.id);
    Ok(FloatOp::Negate {
        written: written.id,
        operand,
    })
}

// ---- comparisons

/// A comparison that a number which is none makes false.
fn ordered_of(word: &[u8]) -> Option<FloatComparison>
    ensures { result ≡ form.ordered_of word.now }
{
    if word == b"false".as_slice() {
        Some(FloatComparison::Never)
    } else if word == b"oeq".as_slice() {
        Some(FloatComparison::OrderedEqual)
    } else if word == b"ogt".as_slice() {
        Some(FloatComparison::OrderedGreater)
    } else if word == b"oge".as_slice() {
        Some(FloatComparison::OrderedGreaterOrEqual)
    } else if word == b"olt".as_slice() {
        Some(FloatComparison::OrderedLess)
    } else if word == b"ole".as_slice() {
        Some(FloatComparison::OrderedLessOrEqual)
    } else if word == b"one".as_slice() {
        Some(FloatComparison::OrderedNotEqual)
    } else if word == b"ord".as_slice() {
        Some(FloatComparison::Ordered)
    } else {
        None
    }
}

/// A comparison that a number which is none makes true.
fn unordered_of(word: &[u8]) -> Option<FloatComparison>
    ensures { result ≡ form.unordered_of word.now }
{
    if word == b"uno".as_slice() {
        Some(FloatComparison::Unordered)
    } else if word == b"ueq".as_slice() {
        Some(FloatComparison::UnorderedEqual)
    } else if word == b"ugt".as_slice() {
        Some(FloatComparison::UnorderedGreater)
    } else if word == b"uge".as_slice() {
        Some(FloatComparison::UnorderedGreaterOrEqual)
    } else if word == b"ult".as_slice() {
        Some(FloatComparison::UnorderedLess)
    } else if word == b"ule".as_slice() {
        Some(FloatComparison::UnorderedLessOrEqual)
    } else if word == b"une".as_slice() {
        Some(FloatComparison::UnorderedNotEqual)
    } else if word == b"true".as_slice() {
        Some(FloatComparison::Always)
    } else {
        None
    }
}

/// The comparison that a word names.
fn float_comparison_of(word: &[u8]) -> Option<FloatComparison>
    ensures { result ≡ form.float_comparison_of word.now }
{
    match ordered_of(word) {
        Some(kind) => Some(kind),
        None => unordered_of(word),
    }
}

/// The comparison that the next token names.
#[tactic(auto, unfolding(crate::specs::FloatOps::float_comparison_here))]
fn float_comparison_here(input: &Input<'_>) -> Option<FloatComparison>
    ensures { result ≡ form.float_comparison_here input.now }
{
    float_comparison_of(input.cursor.spelling())
}

/// What fcmp asks of its operands.
#[tactic(auto, unfolding(crate::specs::FloatOps::float_comparison))]
fn float_comparison(input: &mut Input<'_>) -> Result<FloatComparison, Fault>
    ensures { Reads (form.float_comparison.read input.old) result input.new }
{
    match float_comparison_here(input) {
        Some(kind) => {
            input.skip();
            Ok(kind)
        }
        None => Err(input.refuse(false)),
    }
}

#[tactic(auto, unfolding(crate::specs::FloatOps::float_compare))]
fn float_compare(alloc: Global, input: &mut Input<'_>, value: ValueId) -> Result<FloatOp, Fault>
    ensures { Reads ((form.float_compare value).read input.old) result input.new }
{
    flagged_float(alloc, input)?;
    let kind = float_comparison(input)?;
    let pair = float_pair(alloc, input)?;
    let bit = input.intern(IrType::Integer(1))?;
    input.set_type(value, bit);
    Ok(FloatOp::Compare {
        kind,
        written: pair.written,
        first: pair.first,
        second: pair.second,
    })
}

// ---- changes of a number

fn is_integer_word(word: Word) -> bool
    ensures { result ≡ form.is_integer_word word }
{
    matches!(word, Word::Integer(_))
}

/// Whether a number of 32 bits becomes one of 64.
fn is_wider(from: Word, to: Word) -> bool
    ensures { result ≡ form.is_wider from to }
{
    match from {
        Word::Float => matches!(to, Word::Double),
        _ => false,
    }
}

/// Whether a change of a word to another one is of this sort.
fn may_convert(kind: Conversion, from: Word, to: Word) -> bool
    ensures { result ≡ form.may_convert kind from to }
{
    match kind {
        Conversion::Extend => is_wider(from, to),
        Conversion::Truncate => is_wider(to, from),
        Conversion::ToSigned | Conversion::ToUnsigned => {
            is_float_word(from) && is_integer_word(to)
        }
        Conversion::FromSigned | Conversion::FromUnsigned => {
            is_integer_word(from) && is_float_word(to)
        }
    }
}

/// The types before here are those of such a change.
fn convertible(
    input: &Input<'_>,
    kind: Conversion,
    from: &WrittenType,
    to: &WrittenType,
) -> Result<(), Fault>
    ensures { Reads ((form.convertible kind from.now to.now).read input.now) result input.now }
{
    if !may_convert(kind, word_of(from), word_of(to)) {
        return Err(input.refuse(false));
    }
    Ok(())
}

/// The word of a change with the flags that may stand after it: those of floating point numbers, or that an integer without a sign is
/// not below zero with one.
fn flagged_conversion(alloc: Global, input: &mut Input<'_>, kind: Conversion) -> Result<(), Fault>
    ensures { Reads ((form.flagged_conversion kind).read input.old) result input.new }
{
    match kind {
        Conversion::Extend | Conversion::Truncate => flagged_float(alloc, input),
        Conversion::FromUnsigned => {
            input.skip();
            optional(input, Kind::Nneg);
            Ok(())
        }
        _ => {
            input.skip();
            Ok(())
        }
    }
}

#[tactic(auto, unfolding(crate::specs::FloatOps::convert))]
fn convert(
    alloc: Global,
    input: &mut Input<'_>,
    kind: Conversion,
    value: ValueId,
) -> Result<FloatOp, Fault>
    ensures { Reads ((form.convert kind value).read input.old) result input.new }
{
    flagged_conversion(alloc, input, kind)?;
    let from = input.scalar(alloc)?;
    let operand = input.operand(alloc, word_of(&from))?;
    input.expect(Kind::To)?;
    let to = input.scalar(alloc)?;
    convertible(input, kind, &from, &to)?;
    input.set_type(value, to.id);
    Ok(FloatOp::Convert {
        kind,
        from: from.id,
        operand,
        to: to.id,
    })
}

// ---- by the word

/// An operation on floating point numbers.
fn float_op(
    alloc: Global,
    input: &mut Input<'_>,
    value: ValueId,
    word: FloatWord,
) -> Result<FloatOp, Fault>
    ensures { Reads ((form.float_op value word).read input.old) result input.new }
{
    match word {
        FloatWord::Arithmetic(kind) => float_arithmetic(alloc, input, kind, value),
        FloatWord::Negate => negate(alloc, input, value),
        FloatWord::Compare => float_compare(alloc, input, value),
        FloatWord::Convert(kind) => convert(alloc, input, kind, value),
    }
}

/// An operation on floating point numbers, if the word names one, or else one on integers.
#[tactic(auto, unfolding(crate::specs::FloatOps::number_op))]
pub fn number_op(alloc: Global, input: &mut Input<'_>, value: ValueId) -> Result<Op, Fault>
    ensures { Reads ((form.number_op value).read input.old) result input.new }
{
    match float_word_here(input) {
        Some(word) => Ok(Op::Number(NumberOp::Float(float_op(alloc, input, value, word)?))),
        None => Ok(Op::Number(integer_op(alloc, input, value)?)),
    }
}
