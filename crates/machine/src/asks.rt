//! What an instruction of a body asks for, by its family.
ghost use Rattle.std.specs.Prelude.{◌≡◌};
ghost use Rattle.machine.specs.Asks.{op_action};

use crate::action::Action;
use crate::calls::call_action;
use crate::casts::cast_action;
use crate::choices::choice_action;
use crate::elements::element_action;
use crate::frame_context::FrameContext;
use crate::memory::memory_action;
use crate::numbers::number_action;
use ir_ast::Op;

/// What an instruction of a body asks for.
pub fn op_action(context: &FrameContext<'_>, op: &Op) -> Action
    ensures { result ≡ op_action context.now.program.now context.now.function.now context.now.slots.now context.now.registers.now op.now }
{
    match op {
        Op::Number(op) => number_action(context, op),
        Op::Memory(op) => memory_action(context, op),
        Op::Element(element) => element_action(context, element),
        Op::Cast(cast) => cast_action(context, cast),
        Op::Choice(choice) => choice_action(context, choice),
        Op::Call(call) => call_action(context, call),
    }
}
