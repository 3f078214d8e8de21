//! What may be named anew under another type.
ghost use Rattle.std.specs.Prelude.{◌≡◌};
ghost use Rattle.pools.specs.Layouts.{kind_of_word};
ghost use Rattle.shadow_stack.specs.Slots.{operand_slot};
ghost use Rattle.machine.specs.Elements.{global_kind};
ghost use Rattle.machine.specs.Asks.{may_cast_place, may_cast_number, may_cast_value, may_cast, is_slot_under, may_cast_slot, cast_action};

use crate::action::{Action, only_if};
use crate::elements::{global_kind, kind_of_word};
use crate::frame_context::FrameContext;
use crate::kinds::{
    bits_at, is_integer, is_pointer_type, is_set, may_cast_word, may_lead, may_refer, refers_to,
};
use crate::operands::{is_local_of, is_typed, operand_slot, value_of};
use crate::value::{Pointee, Value};
use ir_ast::{Cast, Module, TypeId};
use layout::Program;
use pools::LayoutId;
use types::pointee;

fn may_cast_place(program: &Program, to: TypeId, place: &Pointee) -> bool
    ensures { result ≡ may_cast_place program.now to place.now }
{
    match place {
        Pointee::OfNull => may_lead(program.module(), to),
        Pointee::Word { layout, word, .. } => {
            may_cast_word(program.module(), to, kind_of_word(program, *layout, *word))
        }
        Pointee::Global(global) => {
            may_cast_word(program.module(), to, global_kind(program.module(), *global))
        }
    }
}

/// Whether a number may be cast: to one of as many bits, or an address outside to another pointer type.
fn may_cast_number(of_module: &Module, from: TypeId, to: TypeId) -> bool
    ensures { result ≡ may_cast_number of_module.now from to }
{
    (is_integer(of_module, from)
        && (is_integer(of_module, to) && bits_at(of_module, from) == bits_at(of_module, to)))
        || (is_pointer_type(of_module, from) && is_pointer_type(of_module, to))
}

fn may_cast_value(program: &Program, from: TypeId, to: TypeId, value: &Value) -> bool
    ensures { result ≡ may_cast_value program.now from to value.now }
{
    match value {
        Value::Unset => false,
        Value::Number(_) => may_cast_number(program.module(), from, to),
        Value::Null => {
            may_refer(program.module(), to)
                || (may_lead(program.module(), from) && may_lead(program.module(), to))
        }
        Value::Cell(layout, _) => refers_to(program.module(), *layout, to),
        Value::Address(place) => may_cast_place(program, to, place),
    }
}

fn may_cast(program: &Program, from: TypeId, to: TypeId, value: &Value) -> bool
    ensures { result ≡ may_cast program.now from to value.now }
{
    is_set(value) && (from == to || may_cast_value(program, from, to, value))
}

fn is_slot_under(of_module: &Module, held: Option<LayoutId>, part: TypeId) -> bool
    ensures { result ≡ is_slot_under of_module.now held part }
{
    match held {
        Some(layout) => refers_to(of_module, layout, part),
        None => false,
    }
}

fn may_cast_slot(of_module: &Module, layout: Option<LayoutId>, from: TypeId, to: TypeId) -> bool
    ensures { result ≡ may_cast_slot of_module.now layout from to }
{
    if from == to {
        return true;
    }
    match pointee(of_module, to) {
        Some(part) => is_slot_under(of_module, layout, part),
        None => false,
    }
}

/// What a bitcast asks for.
pub fn cast_action(context: &FrameContext<'_>, cast: &Cast) -> Action
    ensures { result ≡ cast_action context.now.program.now context.now.function.now context.now.slots.now context.now.registers.now cast.now }
{
    let Cast { from, operand, to } = *cast;
    match operand_slot(context.slots, &operand) {
        Some(slot) => only_if(
            is_local_of(context, from, &operand)
                && may_cast_slot(context.of_module(), context.slots.layout(slot), from, to),
            Action::Local,
        ),
        None => only_if(
            is_typed(context, from, &operand)
                && may_cast(
                    context.program,
                    from,
                    to,
                    &value_of(context, from, &operand),
                ),
            Action::Local,
        ),
    }
}
