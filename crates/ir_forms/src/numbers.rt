//! Operations on integers.
ghost use Rattle.std.specs.Prelude.{◌≡◌};
ghost use Rattle.ir_forms.specs.Input.{Reads};
ghost use Rattle.ir_forms.specs.Numbers as form;

use crate::decorating::flagged_word;
use crate::fault::Fault;
use crate::input::Input;
use crate::written::{Base, ROOM, Word, WrittenType, word_of};
use ir_ast::{
    Argument, Arithmetic, Comparison, IrType, NumberOp, Operand, Resize, TypeId, ValueId,
};
use ir_tokens::Kind;
use std::alloc::Global;

/// Two operands of one type.
#[derive(Clone, Copy)]
pub struct TwoOperands {
    pub written: TypeId,
    pub first: Operand,
    pub second: Operand,
}

/// Two operands, after their type, of integers or pointers.
#[tactic(auto, unfolding(crate::specs::Numbers::pair))]
fn pair(alloc: Global, input: &mut Input<'_>) -> Result<TwoOperands, Fault>
    ensures { Reads (form.pair.read input.old) result input.new }
{
    let written = input.integer_scalar(alloc)?;
    let first = input.operand(alloc, word_of(&written))?;
    input.expect(Kind::Comma)?;
    let second = input.operand(alloc, word_of(&written))?;
    Ok(TwoOperands {
        written: written.id,
        first,
        second,
    })
}

fn arithmetic_of(kind: Kind) -> Option<Arithmetic>
    ensures { result ≡ form.arithmetic_of kind }
{
    match kind {
        Kind::Add => Some(Arithmetic::Add),
        Kind::Sub => Some(Arithmetic::Sub),
        Kind::Mul => Some(Arithmetic::Mul),
        Kind::And => Some(Arithmetic::And),
        Kind::Or => Some(Arithmetic::Or),
        Kind::Xor => Some(Arithmetic::Xor),
        _ => None,
    }
}

#[tactic(auto, unfolding(crate::specs::Numbers::arithmetic))]
fn arithmetic(
    alloc: Global,
    input: &mut Input<'_>,
    kind: Arithmetic,
    value: ValueId,
) -> Result<NumberOp, Fault>
    ensures { Reads ((form.arithmetic kind value).read input.old) result input.new }
{
    flagged_word(alloc, input)?;
    let pair = pair(alloc, input)?;
    input.set_type(value, pair.written);
    Ok(NumberOp::Arithmetic {
        kind,
        written: pair.written,
        first: pair.first,
        second: pair.second,
    })
}

/// The operation that a word of the wide forms names.
fn wide_of(word: &[u8]) -> Option<Arithmetic>
    ensures { result ≡ form.wide_of word.now }
{
    if word == b"shl".as_slice() {
        Some(Arithmetic::ShiftLeft)
    } else if word == b"lshr".as_slice() {
        Some(Arithmetic::ShiftRight)
    } else if word == b"ashr".as_slice() {
        Some(Arithmetic::ShiftRightSigned)
    } else if word == b"udiv".as_slice() {
        Some(Arithmetic::Divide)
    } else if word == b"sdiv".as_slice() {
        Some(Arithmetic::DivideSigned)
    } else if word == b"urem".as_slice() {
        Some(Arithmetic::Remainder)
    } else if word == b"srem".as_slice() {
        Some(Arithmetic::RemainderSigned)
    } else {
        None
    }
}

/// The operation of the wide forms that the next token names.
#[tactic(auto, unfolding(crate::specs::Numbers::wide_here))]
fn wide_here(input: &Input<'_>) -> Option<Arithmetic>
    ensures { result ≡ form.wide_here input.now }
{
    if input.wide && input.sees(Kind::LeftOut) {
        wide_of(input.cursor.spelling())
    } else {
        None
    }
}

#[tactic(auto, unfolding(crate::specs::Numbers::is_exact))]
fn is_exact(input: &Input<'_>) -> bool
    ensures { result ≡ form.is_exact input.now }
{
    input.sees(Kind::LowercaseWord) && input.cursor.spelling() == b"exact".as_slice()
}

/// The word `exact`, or nothing.
#[tactic(auto, unfolding(crate::specs::Numbers::exact))]
fn exact(input: &mut Input<'_>) -> Result<(), Fault>
    ensures { Reads (form.exact.read input.old) result input.new }
{
    if is_exact(input) {
        input.skip();
    }
    Ok(())
}

/// A shift, a division or a remainder.
#[tactic(auto, unfolding(crate::specs::Numbers::wide_arithmetic))]
fn wide_arithmetic(
    alloc: Global,
    input: &mut Input<'_>,
    kind: Arithmetic,
    value: ValueId,
) -> Result<NumberOp, Fault>
    ensures { Reads ((form.wide_arithmetic kind value).read input.old) result input.new }
{
    flagged_word(alloc, input)?;
    exact(input)?;
    let pair = pair(alloc, input)?;
    input.set_type(value, pair.written);
    Ok(NumberOp::Arithmetic {
        kind,
        written: pair.written,
        first: pair.first,
        second: pair.second,
    })
}

/// An operand, after its type, of integers or pointers.
#[tactic(auto, unfolding(crate::specs::Numbers::typed_integer))]
fn typed_integer(alloc: Global, input: &mut Input<'_>) -> Result<Argument, Fault>
    ensures { Reads (form.typed_integer.read input.old) result input.new }
{
    let written = input.integer_scalar(alloc)?;
    let operand = input.operand(alloc, word_of(&written))?;
    Ok(Argument {
        written: written.id,
        operand,
    })
}

fn resize_of(kind: Kind) -> Option<Resize>
    ensures { result ≡ form.resize_of kind }
{
    match kind {
        Kind::Zext => Some(Resize::ZeroExtend),
        Kind::Sext => Some(Resize::SignExtend),
        Kind::Trunc => Some(Resize::Truncate),
        _ => None,
    }
}

#[tactic(auto, unfolding(crate::specs::Numbers::resize))]
fn resize(
    alloc: Global,
    input: &mut Input<'_>,
    kind: Resize,
    value: ValueId,
) -> Result<NumberOp, Fault>
    ensures { Reads ((form.resize kind value).read input.old) result input.new }
{
    flagged_word(alloc, input)?;
    let from = typed_integer(alloc, input)?;
    input.expect(Kind::To)?;
    let to = input.integer_scalar(alloc)?.id;
    input.set_type(value, to);
    Ok(NumberOp::Resize {
        kind,
        from: from.written,
        operand: from.operand,
        to,
    })
}

fn comparison_of(kind: Kind) -> Option<Comparison>
    ensures { result ≡ form.comparison_of kind }
{
    match kind {
        Kind::Eq => Some(Comparison::Equal),
        Kind::Ne => Some(Comparison::NotEqual),
        Kind::Ugt => Some(Comparison::UnsignedGreater),
        Kind::Uge => Some(Comparison::UnsignedGreaterOrEqual),
        Kind::Ult => Some(Comparison::UnsignedLess),
        Kind::Ule => Some(Comparison::UnsignedLessOrEqual),
        Kind::Sgt => Some(Comparison::SignedGreater),
        Kind::Sge => Some(Comparison::SignedGreaterOrEqual),
        Kind::Slt => Some(Comparison::SignedLess),
        Kind::Sle => Some(Comparison::SignedLessOrEqual),
        _ => None,
    }
}

/// What icmp asks of its operands.
#[tactic(auto, unfolding(crate::specs::Numbers::comparison))]
fn comparison(input: &mut Input<'_>) -> Result<Comparison, Fault>
    ensures { Reads (form.comparison.read input.old) result input.new }
{
    match comparison_of(input.kind()) {
        Some(kind) => {
            input.skip();
            Ok(kind)
        }
        None => Err(input.refuse(false)),
    }
}

/// icmp.
#[tactic(auto, unfolding(crate::specs::Numbers::compare))]
pub fn compare(alloc: Global, input: &mut Input<'_>, value: ValueId) -> Result<NumberOp, Fault>
    ensures { Reads ((form.compare value).read input.old) result input.new }
{
    flagged_word(alloc, input)?;
    let kind = comparison(input)?;
    let pair = pair(alloc, input)?;
    let bit = input.intern(IrType::Integer(1))?;
    input.set_type(value, bit);
    Ok(NumberOp::Compare {
        kind,
        written: pair.written,
        first: pair.first,
        second: pair.second,
    })
}

/// The type i1, which has this place in the table.
fn bit_type(id: TypeId) -> WrittenType
    ensures { result ≡ form.bit_type id }
{
    WrittenType {
        base: Base::Integer(1),
        stars: 0,
        id,
        room: ROOM,
    }
}

/// An operand after the type i1.
#[tactic(auto, unfolding(crate::specs::Numbers::condition))]
pub fn condition(alloc: Global, input: &mut Input<'_>) -> Result<Argument, Fault>
    ensures { Reads (form.condition.read input.old) result input.new }
{
    let written = input.intern(IrType::Integer(1))?;
    input.again(alloc, &bit_type(written))?;
    let operand = input.operand(alloc, Word::Integer(1))?;
    Ok(Argument { written, operand })
}

/// A change of width.
#[tactic(auto, unfolding(crate::specs::Numbers::resized))]
fn resized(alloc: Global, input: &mut Input<'_>, value: ValueId) -> Result<NumberOp, Fault>
    ensures { Reads ((form.resized value).read input.old) result input.new }
{
    match resize_of(input.kind()) {
        Some(kind) => resize(alloc, input, kind, value),
        None => Err(input.refuse(false)),
    }
}

/// An operation of the wide forms, or a change of width.
#[tactic(auto, unfolding(crate::specs::Numbers::wide_or_resized))]
fn wide_or_resized(alloc: Global, input: &mut Input<'_>, value: ValueId) -> Result<NumberOp, Fault>
    ensures { Reads ((form.wide_or_resized value).read input.old) result input.new }
{
    match wide_here(input) {
        Some(kind) => wide_arithmetic(alloc, input, kind, value),
        None => resized(alloc, input, value),
    }
}

/// An operation on integers that is named by its word.
#[tactic(auto, unfolding(crate::specs::Numbers::integer_op))]
pub fn integer_op(alloc: Global, input: &mut Input<'_>, value: ValueId) -> Result<NumberOp, Fault>
    ensures { Reads ((form.integer_op value).read input.old) result input.new }
{
    match arithmetic_of(input.kind()) {
        Some(kind) => arithmetic(alloc, input, kind, value),
        None => wide_or_resized(alloc, input, value),
    }
}
