//! How the instructions of a block's body are lowered.
ghost use Rattle.std.specs.Prelude.{◌≡◌, ◌++◌, OnOk};
ghost use Rattle.lowering.specs.Instructions as spec;

use crate::calls::put_call;
use crate::elements::put_element_line;
use crate::memory::{put_memory, put_plain};
use crate::scope::Scope;
use crate::words::Seat;
use ir_ast::{Instr, Op, ValueId};
use std::alloc::{AllocError, Global};

/// The instruction at a place of a block.
fn put_lowered(
    alloc: Global,
    out: &mut Vec<u8>,
    scope: &Scope,
    seat: &Seat,
    instr: &Instr,
) -> Result<(), AllocError>
    ensures { OnOk result (out.new.items ≡ out.old.items ++ spec.instruction_text scope.now.recorded scope.now.of_module.now scope.now.locals.now scope.now.slots.now seat.now instr.now) }
{
    match &instr.op {
        Op::Number(_) => put_plain(alloc, out, scope, instr),
        Op::Memory(op) => put_memory(alloc, out, scope, seat, instr, op),
        Op::Element(element) => put_element_line(alloc, out, scope, instr.result, element),
        Op::Cast(_) => put_plain(alloc, out, scope, instr),
        Op::Choice(_) => put_plain(alloc, out, scope, instr),
        Op::Call(call) => put_call(alloc, out, scope, seat, instr, call),
    }
}

/// The instructions of the body of the block with this label.
pub(crate) fn put_body(
    alloc: Global,
    out: &mut Vec<u8>,
    scope: &Scope,
    label: ValueId,
    body: &[Instr],
) -> Result<(), AllocError>
    ensures { OnOk result (out.new.items ≡ out.old.items ++ spec.body_text scope.now.recorded scope.now.of_module.now scope.now.locals.now scope.now.slots.now label 0 body.now) }
{
    let mut place = 0;
    for instr in body {
        let seat = Seat { label, place };
        put_lowered(alloc, out, scope, &seat, instr)?;
        place += 1;
    }
    Ok(())
}
