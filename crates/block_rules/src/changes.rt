ghost use Rattle.std.specs.Prelude.{◌≡◌, OnOk};
ghost use Rattle.block_rules.specs.Rules.{after_named, after};

use crate::calls::after_call;
use crate::casts::after_cast;
use crate::choices::after_select;
use crate::context::RuleContext;
use crate::elements::after_element;
use crate::memory::after_memory;
use crate::numbers::after_number;
use crate::signature::callee_of;
use facts::Facts;
use ir_ast::{Instr, Op, ValueId};
use std::alloc::AllocError;
use type_kinds::TypeKind;

/// Goes on to what is known after an instruction. Where memory is refused the facts are of no more use.
pub fn advance(context: &RuleContext, facts: &mut Facts, instr: &Instr) -> Result<(), AllocError>
    ensures { OnOk result (facts.new ≡ after context.now.program.now context.now.certs.now.sections context.now.slots.now facts.old instr.now) }
{
    match &instr.op {
        Op::Memory(op) => after_memory(context, facts, instr.result, op),
        Op::Call(call) => {
            let arguments = call.arguments.as_slice();
            let called = callee_of(context.module(), call.callee, arguments.len());
            after_call(
                context,
                facts,
                instr.result,
                call.returned,
                arguments,
                &called,
            )
        }
        op => match instr.result {
            Some(v) => advance_named(context, facts, v, op),
            None => Ok(()),
        },
    }
}

/// The same by the name that an instruction defines.
fn advance_named(
    context: &RuleContext,
    facts: &mut Facts,
    v: ValueId,
    op: &Op,
) -> Result<(), AllocError>
    ensures { OnOk result (facts.new ≡ after_named context.now.program.now context.now.slots.now v op.now facts.old) }
{
    match op {
        Op::Number(op) => after_number(context, facts, v, op),
        Op::Element(element) => {
            let indices = element.indices.as_slice();
            after_element(context, facts, v, element.source, &element.base, indices)
        }
        Op::Cast(cast) => after_cast(context, facts, v, cast.from, cast.to, &cast.operand),
        Op::Choice(choice) => {
            let kind = TypeKind::of(context.module(), choice.written);
            after_select(
                context.module(),
                facts,
                v,
                kind,
                &choice.chosen,
                &choice.other,
            )
        }
        Op::Memory(_) | Op::Call(_) => Ok(()),
    }
}
