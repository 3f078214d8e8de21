//! On which edge a comparison with null shows that a value is not null.
use crate::definitions::defining;
use crate::edges::decided;
use crate::nulls::is_value;
use crate::scene::block_at;
use ir_ast::{BlockId, Comparison, Constant, Function, Instr, NumberOp, Op, Operand, ValueId};

/// Whether one operand is a value, and the other one null.
fn are_compared(value: ValueId, first: &Operand, second: &Operand) -> bool {
    match (first, second) {
        (Operand::Constant(Constant::Null), other) => is_value(value, Some(*other)),
        (other, Operand::Constant(Constant::Null)) => is_value(value, Some(*other)),
        _ => false,
    }
}

/// Whether two operands differ where a comparison of them gives this.
fn differ(kind: &Comparison, on: bool) -> bool {
    match kind {
        Comparison::Equal => !on,
        Comparison::NotEqual => on,
        _ => false,
    }
}

/// Whether a value is not null where a comparison gives this.
fn shows(instr: &Instr, value: ValueId, on: bool) -> bool {
    match &instr.op {
        Op::Number(
            NumberOp::Compare {
                kind,
                first,
                second,
                ..
            },
        ) => differ(kind, on) && are_compared(value, first, second),
        _ => false,
    }
}

/// Whether a branch shows on its edge from one block to another that a value is not null.
pub(crate) fn shows_nonnull(
    function: &Function,
    value: ValueId,
    from: BlockId,
    to: BlockId,
) -> bool {
    let Some(block) = block_at(function, from) else {
        return false;
    };
    let Some((condition, on)) = decided(function, &block.end, to) else {
        return false;
    };
    match defining(function, condition) {
        Some(instr) => shows(instr, value, on),
        None => false,
    }
}
