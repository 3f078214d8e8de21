ghost use Rattle.std.specs.Prelude.{◌≡◌, true, length};
ghost use Rattle.std.specs.List.{take_while};
ghost use Rattle.block_rules.specs.InstrContext.{is_parameter, is_given, is_gcroot, is_memory_of_head, is_of_head, is_head_instruction, head_of};

use crate::context::RuleContext;
use crate::operands::slot_named;
use ir_ast::{Function, Instr, MemoryOp, Op, Operand, Phi, Runtime, ValueId};
use types::runtime_called;

/// How many instructions the head of a block with these phis and this body has.
pub fn head_of(context: &RuleContext, phis: &[Phi], body: &[Instr]) -> usize
    ensures { result ≡ head_of context.now.program.now.of_module context.now.function.now context.now.slots.now phis.now body.now }
{
    match phis {
        [] => front_of_head(context, body),
        [_, ..] => 0,
    }
}

/// How many instructions at the front of a body may be of the head.
fn front_of_head(context: &RuleContext, body: &[Instr]) -> usize
    ensures { result ≡ length (take_while (is_head_instruction context.now.program.now.of_module context.now.function.now context.now.slots.now) body.now) }
{
    body.iter()
        .take_while(|instr| is_of_head(context, &instr.op))
        .count()
}

fn is_memory_of_head(context: &RuleContext, op: &MemoryOp) -> bool
    ensures { result ≡ is_memory_of_head context.now.function.now context.now.slots.now op.now }
{
    match op {
        MemoryOp::Alloca(_) | MemoryOp::Buffer { .. } => true,
        MemoryOp::Load { .. } => false,
        MemoryOp::Store { value, place, .. } => {
            is_given(context.function, value) && slot_named(context.slots, place).is_some()
        }
    }
}

fn is_of_head(context: &RuleContext, op: &Op) -> bool
    ensures { result ≡ is_of_head context.now.program.now.of_module context.now.function.now context.now.slots.now op.now }
{
    match op {
        Op::Memory(op) => is_memory_of_head(context, op),
        Op::Cast(cast) => slot_named(context.slots, &cast.operand).is_some(),
        Op::Call(call) => is_gcroot(runtime_called(context.module(), call.callee)),
        _ => false,
    }
}

fn is_gcroot(runtime: Option<Runtime>) -> bool
    ensures { result ≡ is_gcroot runtime }
{
    matches!(runtime, Some(Runtime::GcRoot))
}

fn is_given(function: &Function, operand: &Operand) -> bool
    ensures { result ≡ is_given function.now operand.now }
{
    match operand {
        Operand::Constant(_) => true,
        Operand::Local(v) => is_parameter(function, *v),
        _ => false,
    }
}

/// Parameters have the first numbers, so that the walk over them is for a name that is none, which ends the head.
fn is_parameter(function: &Function, value: ValueId) -> bool
    ensures { result ≡ is_parameter function.now value }
{
    is_at_its_place(function, value) || is_among_parameters(function, value)
}

fn is_at_its_place(function: &Function, value: ValueId) -> bool
    ensures { result ≡ true → is_parameter function.now value ≡ true }
{
    match function.parameters.get(value.number() as usize) {
        Some(parameter) => parameter.value == value,
        None => false,
    }
}

fn is_among_parameters(function: &Function, value: ValueId) -> bool
    ensures { result ≡ is_parameter function.now value }
{
    function
        .parameters
        .as_slice()
        .iter()
        .any(|parameter| parameter.value == value)
}
