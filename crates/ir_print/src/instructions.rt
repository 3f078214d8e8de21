//! The text of the instructions of a block's body.
ghost use Rattle.std.specs.Prelude.{◌≡◌, ◌++◌, OnOk};
ghost use Rattle.std.specs.List.{flat_map};
ghost use Rattle.ir_print.specs.Instructions as spec;

use crate::calls::put_call;
use crate::casts::put_cast;
use crate::choices::put_choice;
use crate::elements::put_element;
use crate::memory::put_memory;
use crate::numbers::put_number;
use ir_ast::{Instr, Module, Names, Op, ValueId};
use name_text::{Blank, put_local};
use std::alloc::{AllocError, Global};

/// What an instruction does.
fn put_op(
    alloc: Global,
    out: &mut Vec<u8>,
    module: &Module,
    locals: &Names,
    op: &Op,
) -> Result<(), AllocError>
    ensures { OnOk result (out.new.items ≡ out.old.items ++ spec.op_text «module».now locals.now op.now) }
{
    match op {
        Op::Number(op) => put_number(alloc, out, module, locals, op),
        Op::Memory(op) => put_memory(alloc, out, module, locals, op),
        Op::Element(element) => put_element(alloc, out, module, locals, element),
        Op::Cast(cast) => put_cast(alloc, out, module, locals, cast),
        Op::Choice(choice) => put_choice(alloc, out, module, locals, choice),
        Op::Call(call) => put_call(alloc, out, module, locals, call),
    }
}

/// The name of an instruction's value, if it has one.
pub fn put_result(
    out: &mut Vec<u8>,
    locals: &Names,
    value: Option<ValueId>,
) -> Result<(), AllocError>
    ensures { OnOk result (out.new.items ≡ out.old.items ++ spec.result_text locals.now value) }
{
    match value {
        None => Ok(()),
        Some(value) => {
            put_local(out, locals, value, Blank::Kept)?;
            out.extend_from_slice(b" = ")
        }
    }
}

/// The line of an instruction.
pub fn put_instruction(
    alloc: Global,
    out: &mut Vec<u8>,
    module: &Module,
    locals: &Names,
    instruction: &Instr,
) -> Result<(), AllocError>
    ensures { OnOk result (out.new.items ≡ out.old.items ++ spec.instruction_line «module».now locals.now instruction.now) }
{
    out.extend_from_slice(b"  ")?;
    put_result(out, locals, instruction.result)?;
    put_op(alloc, out, module, locals, &instruction.op)?;
    out.extend_from_slice(b"\n")
}

/// The lines of the instructions of a block's body.
pub fn put_instructions(
    alloc: Global,
    out: &mut Vec<u8>,
    module: &Module,
    locals: &Names,
    instructions: &[Instr],
) -> Result<(), AllocError>
    ensures { OnOk result (out.new.items ≡ out.old.items ++ flat_map (spec.instruction_line «module».now locals.now) instructions.now) }
{
    for instruction in instructions {
        put_instruction(alloc, out, module, locals, instruction)?;
    }
    Ok(())
}
