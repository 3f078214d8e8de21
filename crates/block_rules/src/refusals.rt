ghost use Rattle.std.specs.Prelude.{◌≡◌};
ghost use Rattle.block_rules.specs.FirstFailing.{first_failing};
ghost use Rattle.block_rules.specs.Rules.{conditions};

use crate::calls::call_refusal;
use crate::casts::cast_refusal;
use crate::choices::choice_refusal;
use crate::context::RuleContext;
use crate::elements::element_refusal;
use crate::instr_context::InstrContext;
use crate::memory::memory_refusal;
use crate::numbers::number_refusal;
use crate::rule::Rule;
use facts::Facts;
use ir_ast::{Instr, Op};

/// The rule that an instruction of a block's body breaks, if it breaks one.
pub fn refusal(
    context: &RuleContext,
    here: InstrContext,
    facts: &Facts,
    instr: &Instr,
) -> Option<Rule>
    ensures { result ≡ first_failing (conditions context.now.program.now context.now.certs.now.sections context.now.function.now context.now.slots.now here facts.now instr.now) }
{
    match &instr.op {
        Op::Number(op) => number_refusal(context, here, facts, op),
        Op::Memory(op) => memory_refusal(context, here, facts, instr.result, op),
        Op::Element(element) => element_refusal(context, here, facts, element),
        Op::Cast(cast) => cast_refusal(context, here, facts, cast),
        Op::Choice(choice) => choice_refusal(context, here, facts, choice),
        Op::Call(call) => {
            let arguments = call.arguments.as_slice();
            call_refusal(context, here, facts, call.returned, call.callee, arguments)
        }
    }
}
