//! The text of operations on floating point numbers.
ghost use Rattle.std.specs.Prelude.{◌≡◌, ◌++◌, OnOk};
ghost use Rattle.ir_print.specs.Floats as spec;

use crate::operands::put_argument;
use crate::parts::{put_converted, put_pair, typed};
use ir_ast::{Conversion, FloatArithmetic, FloatComparison, FloatOp, Module, Names};
use std::alloc::{AllocError, Global};

/// The word of an instruction of two floating point operands.
fn arithmetic_word(kind: FloatArithmetic) -> &'static [u8]
    ensures { result.now ≡ spec.float_arithmetic_word kind }
{
    match kind {
        FloatArithmetic::Add => b"fadd ",
        FloatArithmetic::Subtract => b"fsub ",
        FloatArithmetic::Multiply => b"fmul ",
        FloatArithmetic::Divide => b"fdiv ",
        FloatArithmetic::Remainder => b"frem ",
    }
}

/// The word of what fcmp asks.
fn comparison_word(kind: FloatComparison) -> &'static [u8]
    ensures { result.now ≡ spec.float_comparison_word kind }
{
    match kind {
        FloatComparison::Never => b"false ",
        FloatComparison::OrderedEqual => b"oeq ",
        FloatComparison::OrderedGreater => b"ogt ",
        FloatComparison::OrderedGreaterOrEqual => b"oge ",
        FloatComparison::OrderedLess => b"olt ",
        FloatComparison::OrderedLessOrEqual => b"ole ",
        FloatComparison::OrderedNotEqual => b"one ",
        FloatComparison::Ordered => b"ord ",
        FloatComparison::Unordered => b"uno ",
        FloatComparison::UnorderedEqual => b"ueq ",
        FloatComparison::UnorderedGreater => b"ugt ",
        FloatComparison::UnorderedGreaterOrEqual => b"uge ",
        FloatComparison::UnorderedLess => b"ult ",
        FloatComparison::UnorderedLessOrEqual => b"ule ",
        FloatComparison::UnorderedNotEqual => b"une ",
        FloatComparison::Always => b"true ",
    }
}

/// The word of a change of a number.
fn conversion_word(kind: Conversion) -> &'static [u8]
    ensures { result.now ≡ spec.conversion_word kind }
{
    match kind {
        Conversion::Extend => b"fpext ",
        Conversion::Truncate => b"fptrunc ",
        Conversion::ToSigned => b"fptosi ",
        Conversion::ToUnsigned => b"fptoui ",
        Conversion::FromSigned => b"sitofp ",
        Conversion::FromUnsigned => b"uitofp ",
    }
}

/// An operation on floating point numbers.
pub fn put_float(
    alloc: Global,
    out: &mut Vec<u8>,
    module: &Module,
    locals: &Names,
    op: FloatOp,
) -> Result<(), AllocError>
    ensures { OnOk result (out.new.items ≡ out.old.items ++ spec.float_op_text «module».now locals.now op) }
{
    match op {
        FloatOp::Arithmetic {
            kind,
            written,
            first,
            second,
        } => {
            out.extend_from_slice(arithmetic_word(kind))?;
            put_pair(alloc, out, module, locals, &typed(written, first), second)
        }
        FloatOp::Negate { written, operand } => {
            out.extend_from_slice(b"fneg ")?;
            put_argument(alloc, out, module, locals, &typed(written, operand))
        }
        FloatOp::Compare {
            kind,
            written,
            first,
            second,
        } => {
            out.extend_from_slice(b"fcmp ")?;
            out.extend_from_slice(comparison_word(kind))?;
            put_pair(alloc, out, module, locals, &typed(written, first), second)
        }
        FloatOp::Convert {
            kind,
            from,
            operand,
            to,
        } => {
            out.extend_from_slice(conversion_word(kind))?;
            put_converted(alloc, out, module, locals, &typed(from, operand), to)
        }
    }
}
