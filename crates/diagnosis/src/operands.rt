//! The operands of an instruction, and what is known of them.
use crate::scene::{Scene, There};
use facts::{Facts, Known};
use ir_ast::{
    Argument, Call, Element, End, FloatOp, Incoming, MemoryOp, NumberOp, Op, Operand, ValueId,
};
use std::alloc::{AllocError, Global};

fn of_incoming(alloc: Global, incoming: &[Incoming]) -> Result<Vec<Operand>, AllocError> {
    let mut operands = Vec::new(alloc);
    for entry in incoming {
        operands.push(entry.operand)?;
    }
    Ok(operands)
}

fn of_arguments(alloc: Global, arguments: &[Argument]) -> Result<Vec<Operand>, AllocError> {
    let mut operands = Vec::new(alloc);
    for argument in arguments {
        operands.push(argument.operand)?;
    }
    Ok(operands)
}

/// What an operation on floating point numbers reads.
fn of_float(alloc: Global, op: &FloatOp) -> Result<Vec<Operand>, AllocError> {
    match op {
        FloatOp::Arithmetic { first, second, .. } | FloatOp::Compare { first, second, .. } => {
            Ok(vec![in alloc; *first, *second]?)
        }
        FloatOp::Negate { operand, .. } | FloatOp::Convert { operand, .. } => {
            Ok(vec![in alloc; *operand]?)
        }
    }
}

fn of_number(alloc: Global, op: &NumberOp) -> Result<Vec<Operand>, AllocError> {
    match op {
        NumberOp::Arithmetic { first, second, .. } | NumberOp::Compare { first, second, .. } => {
            Ok(vec![in alloc; *first, *second]?)
        }
        NumberOp::Resize { operand, .. } => Ok(vec![in alloc; *operand]?),
        NumberOp::Float(op) => of_float(alloc, op),
    }
}

fn of_memory(alloc: Global, op: &MemoryOp) -> Result<Vec<Operand>, AllocError> {
    match op {
        MemoryOp::Alloca(_) => Ok(Vec::new(alloc)),
        MemoryOp::Buffer { count, .. } => match count {
            Some(count) => Ok(vec![in alloc; count.operand]?),
            None => Ok(Vec::new(alloc)),
        },
        MemoryOp::Load { place, .. } => Ok(vec![in alloc; *place]?),
        MemoryOp::Store { value, place, .. } => Ok(vec![in alloc; *value, *place]?),
    }
}

fn of_element(alloc: Global, element: &Element) -> Result<Vec<Operand>, AllocError> {
    let mut operands = of_arguments(alloc, element.indices.as_slice())?;
    operands.push(element.base)?;
    Ok(operands)
}

fn of_call(alloc: Global, call: &Call) -> Result<Vec<Operand>, AllocError> {
    of_arguments(alloc, call.arguments.as_slice())
}

fn of_op(alloc: Global, op: &Op) -> Result<Vec<Operand>, AllocError> {
    match op {
        Op::Number(op) => of_number(alloc, op),
        Op::Memory(op) => of_memory(alloc, op),
        Op::Element(element) => of_element(alloc, element),
        Op::Cast(cast) => Ok(vec![in alloc; cast.operand]?),
        Op::Choice(choice) => Ok(vec![in alloc; choice.condition, choice.chosen, choice.other]?),
        Op::Call(call) => of_call(alloc, call),
    }
}

fn of_end(alloc: Global, end: &End) -> Result<Vec<Operand>, AllocError> {
    match end {
        End::Branch { condition, .. } => Ok(vec![in alloc; *condition]?),
        End::Switch { value, .. } => Ok(vec![in alloc; *value]?),
        End::Return(argument) => Ok(vec![in alloc; argument.operand]?),
        _ => Ok(Vec::new(alloc)),
    }
}

/// What an instruction reads.
pub(crate) fn operands_of(alloc: Global, there: There) -> Result<Vec<Operand>, AllocError> {
    match there {
        There::Phi(phi) => of_incoming(alloc, phi.incoming.as_slice()),
        There::Body(instr) => of_op(alloc, &instr.op),
        There::End(end) => of_end(alloc, end),
        There::Nothing => Ok(Vec::new(alloc)),
    }
}

fn is_cell(known: Known) -> bool {
    matches!(known, Known::Cell { .. })
}

/// Whether something is known of a value.
fn is_known(facts: &Facts, value: ValueId) -> bool {
    match facts.known(value) {
        Known::Nothing => false,
        Known::Address { base, .. } => is_cell(facts.known(base)),
        _ => true,
    }
}

fn is_slot(scene: &Scene, value: ValueId) -> bool {
    scene.context.slots.slot_of(value).is_some()
}

/// The first operand that is not available.
pub(crate) fn unavailable(scene: &Scene, operands: &[Operand]) -> Option<Operand> {
    for operand in operands {
        if let Operand::Local(value) = operand {
            if !is_slot(scene, *value) && !is_known(scene.facts, *value) {
                return Some(*operand);
            }
        }
    }
    None
}

/// The first operand that is a slot.
pub(crate) fn slot_among(scene: &Scene, operands: &[Operand]) -> Option<Operand> {
    for operand in operands {
        if let Operand::Local(value) = operand {
            if is_slot(scene, *value) {
                return Some(*operand);
            }
        }
    }
    None
}

/// The reference that a value is, or that leads to the cell of whose words it is the address.
pub(crate) fn reference_of(facts: &Facts, value: ValueId) -> ValueId {
    match facts.known(value) {
        Known::Address { base, .. } => base,
        _ => value,
    }
}

fn is_stale(facts: &Facts, value: ValueId) -> bool {
    match facts.known(value) {
        Known::Cell { stale, .. } => stale,
        _ => false,
    }
}

/// The first stale reference that is an operand, or the base of one.
pub(crate) fn stale_among(facts: &Facts, operands: &[Operand]) -> Option<Operand> {
    for operand in operands {
        if let Operand::Local(value) = operand {
            let reference = reference_of(facts, *value);
            if is_stale(facts, reference) {
                return Some(Operand::Local(reference));
            }
        }
    }
    None
}

fn may_be_null(facts: &Facts, value: ValueId) -> bool {
    match facts.known(value) {
        Known::Cell { class, .. } => !facts.class(class).nonnull,
        Known::Null => true,
        _ => false,
    }
}

/// The first base that may be null of an operand that is a place.
pub(crate) fn null_base_among(facts: &Facts, operands: &[Operand]) -> Option<Operand> {
    for operand in operands {
        if let Operand::Local(value) = operand {
            if let Known::Address { base, .. } = facts.known(*value) {
                if may_be_null(facts, base) {
                    return Some(Operand::Local(base));
                }
            }
        }
    }
    None
}
