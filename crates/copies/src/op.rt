//! Instructions with the new numbers of their types.
ghost use Rattle.std.specs.Prelude.{◌≡◌, option_map, IfOk};
ghost use Rattle.copies.specs.Opaque as spec;

use crate::made_opaque::{MadeOpaque, all_opaque};
use crate::type_numbers::new_number;
use ir_ast::{
    Argument, Call, Cast, Choice, Element, FloatOp, Instr, MemoryOp, NumberOp, Op, Operand, TypeId,
};
use std::alloc::{AllocError, Global};

/// A bitcast of a global is the global.
pub fn opaque_operand(operand: Operand) -> Operand
    ensures { result ≡ spec.opaque_operand operand }
{
    match operand {
        Operand::CastGlobal { global, .. } => Operand::Global(global),
        other => other,
    }
}

pub fn opaque_argument(numbers: &[TypeId], argument: Argument) -> Argument
    ensures { result ≡ spec.opaque_argument numbers.now argument }
{
    Argument {
        written: new_number(numbers, argument.written),
        operand: opaque_operand(argument.operand),
    }
}

impl MadeOpaque for Argument {
    ghost use Rattle.copies.specs.Opaque.{opaque_argument};

    ghost opaque = { opaque_argument };

    fn made_opaque(&self, _alloc: Global, numbers: &[TypeId]) -> Result<Argument, AllocError> {
        Ok(opaque_argument(numbers, *self))
    }
}

fn opaque_float(numbers: &[TypeId], op: FloatOp) -> FloatOp
    ensures { result ≡ spec.opaque_float numbers.now op }
{
    match op {
        FloatOp::Arithmetic {
            kind,
            written,
            first,
            second,
        } => FloatOp::Arithmetic {
            kind,
            written: new_number(numbers, written),
            first: opaque_operand(first),
            second: opaque_operand(second),
        },
        FloatOp::Negate { written, operand } => FloatOp::Negate {
            written: new_number(numbers, written),
            operand: opaque_operand(operand),
        },
        FloatOp::Compare {
            kind,
            written,
            first,
            second,
        } => FloatOp::Compare {
            kind,
            written: new_number(numbers, written),
            first: opaque_operand(first),
            second: opaque_operand(second),
        },
        FloatOp::Convert {
            kind,
            from,
            operand,
            to,
        } => FloatOp::Convert {
            kind,
            from: new_number(numbers, from),
            operand: opaque_operand(operand),
            to: new_number(numbers, to),
        },
    }
}

fn opaque_number(numbers: &[TypeId], op: NumberOp) -> NumberOp
    ensures { result ≡ spec.opaque_number numbers.now op }
{
    match op {
        NumberOp::Arithmetic {
            kind,
            written,
            first,
            second,
        } => NumberOp::Arithmetic {
            kind,
            written: new_number(numbers, written),
            first: opaque_operand(first),
            second: opaque_operand(second),
        },
        NumberOp::Resize {
            kind,
            from,
            operand,
            to,
        } => NumberOp::Resize {
            kind,
            from: new_number(numbers, from),
            operand: opaque_operand(operand),
            to: new_number(numbers, to),
        },
        NumberOp::Compare {
            kind,
            written,
            first,
            second,
        } => NumberOp::Compare {
            kind,
            written: new_number(numbers, written),
            first: opaque_operand(first),
            second: opaque_operand(second),
        },
        NumberOp::Float(op) => NumberOp::Float(opaque_float(numbers, op)),
    }
}

/// How many elements a buffer has, if they are counted.
fn opaque_count(numbers: &[TypeId], count: Option<Argument>) -> Option<Argument>
    ensures { result ≡ option_map (spec.opaque_argument numbers.now) count }
{
    match count {
        Some(count) => Some(opaque_argument(numbers, count)),
        None => None,
    }
}

fn opaque_memory(numbers: &[TypeId], op: MemoryOp) -> MemoryOp
    ensures { result ≡ spec.opaque_memory numbers.now op }
{
    match op {
        MemoryOp::Alloca(held) => MemoryOp::Alloca(new_number(numbers, held)),
        MemoryOp::Buffer { held, count } => MemoryOp::Buffer {
            held: new_number(numbers, held),
            count: opaque_count(numbers, count),
        },
        MemoryOp::Load {
            loaded,
            place_type,
            place,
        } => MemoryOp::Load {
            loaded: new_number(numbers, loaded),
            place_type: new_number(numbers, place_type),
            place: opaque_operand(place),
        },
        MemoryOp::Store {
            stored,
            value,
            place_type,
            place,
        } => MemoryOp::Store {
            stored: new_number(numbers, stored),
            value: opaque_operand(value),
            place_type: new_number(numbers, place_type),
            place: opaque_operand(place),
        },
    }
}

fn opaque_element(
    alloc: Global,
    numbers: &[TypeId],
    element: &Element,
) -> Result<Element, AllocError>
    ensures { IfOk result (λ made. made ≡ spec.opaque_element numbers.now element.now) }
{
    Ok(Element {
        source: new_number(numbers, element.source),
        base_type: new_number(numbers, element.base_type),
        base: opaque_operand(element.base),
        indices: all_opaque(alloc, numbers, element.indices.as_slice())?,
    })
}

fn opaque_cast(numbers: &[TypeId], cast: Cast) -> Cast
    ensures { result ≡ spec.opaque_cast numbers.now cast }
{
    Cast {
        from: new_number(numbers, cast.from),
        operand: opaque_operand(cast.operand),
        to: new_number(numbers, cast.to),
    }
}

fn opaque_choice(numbers: &[TypeId], choice: Choice) -> Choice
    ensures { result ≡ spec.opaque_choice numbers.now choice }
{
    Choice {
        condition_type: new_number(numbers, choice.condition_type),
        condition: opaque_operand(choice.condition),
        written: new_number(numbers, choice.written),
        chosen: opaque_operand(choice.chosen),
        other: opaque_operand(choice.other),
    }
}

fn opaque_call(alloc: Global, numbers: &[TypeId], call: &Call) -> Result<Call, AllocError>
    ensures { IfOk result (λ made. made ≡ spec.opaque_call numbers.now call.now) }
{
    Ok(Call {
        returned: new_number(numbers, call.returned),
        callee: call.callee,
        arguments: all_opaque(alloc, numbers, call.arguments.as_slice())?,
    })
}

fn opaque_op(alloc: Global, numbers: &[TypeId], op: &Op) -> Result<Op, AllocError>
    ensures { IfOk result (λ made. made ≡ spec.opaque_op numbers.now op.now) }
{
    match op {
        Op::Number(number) => Ok(Op::Number(opaque_number(numbers, *number))),
        Op::Memory(memory) => Ok(Op::Memory(opaque_memory(numbers, *memory))),
        Op::Element(element) => Ok(Op::Element(opaque_element(alloc, numbers, element)?)),
        Op::Cast(cast) => Ok(Op::Cast(opaque_cast(numbers, *cast))),
        Op::Choice(choice) => Ok(Op::Choice(opaque_choice(numbers, *choice))),
        Op::Call(call) => Ok(Op::Call(opaque_call(alloc, numbers, call)?)),
    }
}

impl MadeOpaque for Instr {
    ghost use Rattle.copies.specs.Opaque.{opaque_instr};

    ghost opaque = { opaque_instr };

    fn made_opaque(&self, alloc: Global, numbers: &[TypeId]) -> Result<Instr, AllocError> {
        Ok(Instr {
            result: self.result,
            op: opaque_op(alloc, numbers, &self.op)?,
        })
    }
}
