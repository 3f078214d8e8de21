//! The text of operations on numbers.
ghost use Rattle.std.specs.Prelude.{◌≡◌, ◌++◌, OnOk};
ghost use Rattle.ir_print.specs.Numbers as spec;

use crate::floats::put_float;
use crate::parts::{put_converted, put_pair, typed};
use ir_ast::{Arithmetic, Comparison, Module, Names, NumberOp, Resize};
use std::alloc::{AllocError, Global};

/// The word of an integer instruction of two operands.
fn arithmetic_word(kind: Arithmetic) -> &'static [u8]
    ensures { result.now ≡ spec.arithmetic_word kind }
{
    match kind {
        Arithmetic::Add => b"add ",
        Arithmetic::Sub => b"sub ",
        Arithmetic::Mul => b"mul ",
        Arithmetic::And => b"and ",
        Arithmetic::Or => b"or ",
        Arithmetic::Xor => b"xor ",
        Arithmetic::ShiftLeft => b"shl ",
        Arithmetic::ShiftRight => b"lshr ",
        Arithmetic::ShiftRightSigned => b"ashr ",
        Arithmetic::Divide => b"udiv ",
        Arithmetic::DivideSigned => b"sdiv ",
        Arithmetic::Remainder => b"urem ",
        Arithmetic::RemainderSigned => b"srem ",
    }
}

/// The word of a change of width.
fn resize_word(kind: Resize) -> &'static [u8]
    ensures { result.now ≡ spec.resize_word kind }
{
    match kind {
        Resize::ZeroExtend => b"zext ",
        Resize::SignExtend => b"sext ",
        Resize::Truncate => b"trunc ",
    }
}

/// The word of what icmp asks.
fn comparison_word(kind: Comparison) -> &'static [u8]
    ensures { result.now ≡ spec.comparison_word kind }
{
    match kind {
        Comparison::Equal => b"eq ",
        Comparison::NotEqual => b"ne ",
        Comparison::UnsignedGreater => b"ugt ",
        Comparison::UnsignedGreaterOrEqual => b"uge ",
        Comparison::UnsignedLess => b"ult ",
        Comparison::UnsignedLessOrEqual => b"ule ",
        Comparison::SignedGreater => b"sgt ",
        Comparison::SignedGreaterOrEqual => b"sge ",
        Comparison::SignedLess => b"slt ",
        Comparison::SignedLessOrEqual => b"sle ",
    }
}

/// An operation that gives a number.
pub fn put_number(
    alloc: Global,
    out: &mut Vec<u8>,
    module: &Module,
    locals: &Names,
    op: &NumberOp,
) -> Result<(), AllocError>
    ensures { OnOk result (out.new.items ≡ out.old.items ++ spec.number_op_text «module».now locals.now op.now) }
{
    match *op {
        NumberOp::Arithmetic {
            kind,
            written,
            first,
            second,
        } => {
            out.extend_from_slice(arithmetic_word(kind))?;
            put_pair(alloc, out, module, locals, &typed(written, first), second)
        }
        NumberOp::Resize {
            kind,
            from,
            operand,
            to,
        } => {
            out.extend_from_slice(resize_word(kind))?;
            put_converted(alloc, out, module, locals, &typed(from, operand), to)
        }
        NumberOp::Compare {
            kind,
            written,
            first,
            second,
        } => {
            out.extend_from_slice(b"icmp ")?;
            out.extend_from_slice(comparison_word(kind))?;
            put_pair(alloc, out, module, locals, &typed(written, first), second)
        }
        NumberOp::Float(op) => put_float(alloc, out, module, locals, op),
    }
}
