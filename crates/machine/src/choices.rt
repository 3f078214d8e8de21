//! Selects: what they ask for, and what they give.
ghost use Rattle.std.specs.Prelude.{◌≡◌};
ghost use Rattle.machine.specs.Asks.{may_select, choice_action};
ghost use Rattle.machine.specs.Machine.{selected, choice_value};

use crate::action::{Action, only_if};
use crate::frame_context::FrameContext;
use crate::kinds::{are_of_one_layout, number_in};
use crate::operands::{are_numbers, are_references, is_condition, value_of};
use crate::outside::are_outside;
use crate::value::Value;
use ir_ast::{Choice, Operand, TypeId};

fn may_select(
    context: &FrameContext<'_>,
    written: TypeId,
    chosen: &Operand,
    other: &Operand,
) -> bool
    ensures { result ≡ may_select context.now.program.now.of_module context.now.function.now context.now.slots.now context.now.registers.now written chosen.now other.now }
{
    are_numbers(context, written, chosen, other)
        || ((are_references(context, written, chosen, other)
            && are_of_one_layout(
                &value_of(context, written, chosen),
                &value_of(context, written, other),
            ))
            || are_outside(context, written, chosen, other))
}

/// What a select asks for.
pub fn choice_action(context: &FrameContext<'_>, choice: &Choice) -> Action
    ensures { result ≡ choice_action context.now.program.now.of_module context.now.function.now context.now.slots.now context.now.registers.now choice.now }
{
    only_if(
        is_condition(context, choice.condition_type, &choice.condition)
            && may_select(context, choice.written, &choice.chosen, &choice.other),
        Action::Local,
    )
}

fn selected(condition: Value, chosen: Value, other: Value) -> Value
    ensures { result ≡ selected condition chosen other }
{
    if number_in(&condition) == 0 {
        other
    } else {
        chosen
    }
}

/// What a select gives.
pub fn choice_value(context: &FrameContext<'_>, choice: &Choice) -> Value
    ensures { result ≡ choice_value context.now.program.now.of_module context.now.registers.now choice.now }
{
    selected(
        value_of(context, choice.condition_type, &choice.condition),
        value_of(context, choice.written, &choice.chosen),
        value_of(context, choice.written, &choice.other),
    )
}
