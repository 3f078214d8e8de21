//! Ends of blocks: what they ask for, where they lead, and what a return gives.
ghost use Rattle.std.specs.Prelude.{◌≡◌, if◌then◌else◌};
ghost use Rattle.machine.specs.declared.action.Action.TheVariants.{Wrong};
ghost use Rattle.machine.specs.Asks.{edge_of, target_at, edge_action, end_action};
ghost use Rattle.machine.specs.Machine.{result_of};

use crate::action::{Action, only_if};
use crate::frame_context::FrameContext;
use crate::jumps::{cases_fit, phis_fit, phis_of, switch_edge};
use crate::kinds::{is_void, number_in};
use crate::operands::{is_condition, is_usable, is_usable_number, operand_value, value_of};
use crate::value::Value;
use ir_ast::{BlockId, End, Module, ValueId};
use types::target_of;

/// The label to which a block goes on, if it ends with a br or a switch.
fn edge_of(context: &FrameContext<'_>, end: &End) -> Option<ValueId>
    ensures { result ≡ edge_of context.now.program.now.of_module context.now.registers.now end.now }
{
    match end {
        End::Jump(label) => Some(*label),
        End::Branch {
            condition_type,
            condition,
            taken,
            other,
        } => {
            let condition = value_of(context, *condition_type, condition);
            Some(if number_in(&condition) == 0 {
                *other
            } else {
                *taken
            })
        }
        End::Switch {
            written,
            value,
            otherwise,
            cases,
        } => Some(switch_edge(
            context.of_module(),
            *written,
            number_in(&value_of(context, *written, value)),
            *otherwise,
            cases.as_slice(),
        )),
        _ => None,
    }
}

/// The block to which a br or a switch leads.
pub fn target_of_edge(context: &FrameContext<'_>, end: &End) -> Option<BlockId>
    ensures { result ≡ target_at context.now.function.now (edge_of context.now.program.now.of_module context.now.registers.now end.now) }
{
    target_of(context.function, edge_of(context, end)?)
}

/// What a br or a switch of this block asks for.
fn edge_action(context: &FrameContext<'_>, from: usize, end: &End) -> Action
    ensures { result ≡ edge_action context.now.program.now.of_module context.now.function.now context.now.slots.now from context.now.registers.now end.now }
{
    match target_of_edge(context, end) {
        Some(block) => only_if(
            phis_fit(context, from, phis_of(context.function, block)),
            Action::Local,
        ),
        None => Action::End,
    }
}

/// What a br or a switch of this block asks for, if its operands have a meaning.
fn edge_action_if(context: &FrameContext<'_>, from: usize, end: &End, has_meaning: bool) -> Action
    ensures { result ≡ (if has_meaning then edge_action context.now.program.now.of_module context.now.function.now context.now.slots.now from context.now.registers.now end.now else Wrong) }
{
    if has_meaning {
        edge_action(context, from, end)
    } else {
        Action::Wrong
    }
}

/// What the end of the block with this number asks for.
pub fn end_action(context: &FrameContext<'_>, from: usize, end: &End) -> Action
    ensures { result ≡ end_action context.now.program.now.of_module context.now.function.now context.now.slots.now from context.now.registers.now end.now }
{
    match end {
        End::Jump(_) => edge_action(context, from, end),
        End::Branch {
            condition_type,
            condition,
            ..
        } => {
            let has_meaning = is_condition(context, *condition_type, condition);
            edge_action_if(context, from, end, has_meaning)
        }
        End::Switch {
            written,
            value,
            cases,
            ..
        } => {
            let has_meaning = is_usable_number(context, *written, value)
                && cases_fit(context.of_module(), *written, cases.as_slice());
            edge_action_if(context, from, end, has_meaning)
        }
        End::Unreachable => Action::End,
        End::ReturnVoid => {
            only_if(
                is_void(context.of_module(), context.function.returned),
                Action::End,
            )
        }
        End::Return(argument) => only_if(
            argument.written == context.function.returned
                && is_usable(context, argument.written, &argument.operand),
            Action::End,
        ),
    }
}

/// What a return gives.
pub fn result_of(of_module: &Module, registers: &[Value], end: &End) -> Value
    ensures { result ≡ result_of of_module.now registers.now end.now }
{
    match end {
        End::Return(argument) => {
            operand_value(of_module, registers, argument.written, &argument.operand)
        }
        _ => Value::Unset,
    }
}
