//! What the maker knows of operations on numbers.
use ir_ast::{FloatOp, NumberOp, Operand};

/// The operands that an operation reads: one, or two.
pub fn operands_of(op: &NumberOp) -> (Operand, Option<Operand>) {
    match op {
        NumberOp::Arithmetic { first, second, .. } | NumberOp::Compare { first, second, .. } => {
            (*first, Some(*second))
        }
        NumberOp::Resize { operand, .. } => (*operand, None),
        NumberOp::Float(op) => float_operands(op),
    }
}

fn float_operands(op: &FloatOp) -> (Operand, Option<Operand>) {
    match op {
        FloatOp::Arithmetic { first, second, .. } | FloatOp::Compare { first, second, .. } => {
            (*first, Some(*second))
        }
        FloatOp::Negate { operand, .. } | FloatOp::Convert { operand, .. } => (*operand, None),
    }
}

/// The operand that is bounded wherever the value is: a limit that the value has to keep is one for it too.
pub fn bounded_operand(op: &NumberOp) -> Option<Operand> {
    match op {
        NumberOp::Resize { operand, .. } => Some(*operand),
        NumberOp::Arithmetic { .. } | NumberOp::Compare { .. } | NumberOp::Float(_) => None,
    }
}
