//! How a block ends.
ghost use Rattle.std.specs.Prelude.{◌≡◌};
ghost use Rattle.block_rules.specs.FirstFailing.{first_failing};
ghost use Rattle.block_rules.specs.Rules.{is_target, names_target, is_case, are_cases, end_conditions};

use crate::choices::is_condition;
use crate::conditions::first_failing;
use crate::context::RuleContext;
use crate::instr_context::InstrContext;
use crate::operands::{
    constant_fits, is_available, is_no_slot, is_operand_current, is_outside_value, is_passed,
    is_value,
};
use crate::promises::{keeps_promise, says_what_it_is};
use crate::rule::Rule;
use facts::Facts;
use ir_ast::{Argument, BlockId, Case, End, Function, TypeId, ValueId};
use type_kinds::TypeKind;
use types::target_of;

fn is_target(function: &Function, block: Option<BlockId>) -> bool
    ensures { result ≡ is_target function.now block }
{
    match block {
        Some(block) => { block.number() != 0 && (block.number() as usize) < function.blocks.len() }
        None => false,
    }
}

/// Whether a label names a block that may be entered from another.
fn names_target(function: &Function, label: ValueId) -> bool
    ensures { result ≡ names_target function.now label }
{
    is_target(function, target_of(function, label))
}

fn is_case(context: &RuleContext, written: TypeId, case: Case) -> bool
    ensures { result ≡ is_case context.now.program.now.of_module context.now.function.now written case }
{
    constant_fits(case.constant, TypeKind::of(context.module(), written))
        && names_target(context.function, case.target)
}

/// Whether the cases of a switch are constants of its type and name blocks.
fn are_cases(context: &RuleContext, written: TypeId, cases: &[Case]) -> bool
    ensures { result ≡ are_cases context.now.program.now.of_module context.now.function.now written cases.now }
{
    cases.iter().all(|case| is_case(context, written, *case))
}

fn branch_refusal(
    context: &RuleContext,
    here: InstrContext,
    facts: &Facts,
    condition: &Argument,
    taken: ValueId,
    other: ValueId,
) -> Option<Rule>
    ensures { result ≡ first_failing (end_conditions context.now.program.now context.now.function.now context.now.slots.now here facts.now (End.Branch condition.now.written condition.now.operand taken other)) }
{
    first_failing(&[
        (
            Rule::K1,
            is_available(context.slots, facts, &condition.operand),
        ),
        (
            Rule::K2,
            is_condition(context, facts, condition.written, &condition.operand)
                && names_target(context.function, taken)
                && names_target(context.function, other)
                && is_no_slot(context.slots, &condition.operand),
        ),
        (Rule::K12, here.may_move_references),
    ])
}

fn switch_refusal(
    context: &RuleContext,
    here: InstrContext,
    facts: &Facts,
    value: &Argument,
    otherwise: ValueId,
    cases: &[Case],
) -> Option<Rule>
    ensures { result ≡ first_failing (end_conditions context.now.program.now context.now.function.now context.now.slots.now here facts.now (End.Switch value.now.written value.now.operand otherwise cases.now)) }
{
    first_failing(&[
        (Rule::K1, is_available(context.slots, facts, &value.operand)),
        (
            Rule::K2,
            is_value(context, facts, value.written, &value.operand)
                && TypeKind::of(context.module(), value.written).is_integer()
                && names_target(context.function, otherwise)
                && are_cases(context, value.written, cases)
                && is_no_slot(context.slots, &value.operand),
        ),
        (Rule::K12, here.may_move_references),
    ])
}

fn return_refusal(
    context: &RuleContext,
    here: InstrContext,
    facts: &Facts,
    argument: &Argument,
) -> Option<Rule>
    ensures { result ≡ first_failing (end_conditions context.now.program.now context.now.function.now context.now.slots.now here facts.now (End.Return argument.now)) }
{
    let operand = &argument.operand;
    let outside = is_outside_value(context, facts, argument.written, operand);
    first_failing(&[
        (Rule::K1, is_available(context.slots, facts, operand)),
        (
            Rule::K2,
            is_passed(context, facts, argument.written, operand)
                && argument.written == context.function.returned,
        ),
        (Rule::K3, is_operand_current(facts, operand)),
        (Rule::K10, is_no_slot(context.slots, operand)),
        (Rule::K12, here.may_move_references),
        (
            Rule::K14,
            keeps_promise(facts, here.promised, operand)
                && says_what_it_is(outside, &here.promised),
        ),
    ])
}

/// The rule that the end of a block breaks, if it breaks one; what its targets ask for is checked elsewhere.
pub fn end_refusal(
    context: &RuleContext,
    here: InstrContext,
    facts: &Facts,
    end: &End,
) -> Option<Rule>
    ensures { result ≡ first_failing (end_conditions context.now.program.now context.now.function.now context.now.slots.now here facts.now end.now) }
{
    match end {
        End::Jump(target) => first_failing(&[
            (Rule::K2, names_target(context.function, *target)),
            (Rule::K12, here.may_move_references),
        ]),
        End::Branch {
            condition_type,
            condition,
            taken,
            other,
        } => {
            let condition = Argument {
                written: *condition_type,
                operand: *condition,
            };
            branch_refusal(context, here, facts, &condition, *taken, *other)
        }
        End::Switch {
            written,
            value,
            otherwise,
            cases,
        } => {
            let value = Argument {
                written: *written,
                operand: *value,
            };
            switch_refusal(context, here, facts, &value, *otherwise, cases.as_slice())
        }
        End::Unreachable => first_failing(&[(Rule::K12, here.may_move_references)]),
        End::ReturnVoid => first_failing(&[
            (
                Rule::K2,
                TypeKind::of(context.module(), context.function.returned).is_void(),
            ),
            (Rule::K12, here.may_move_references),
            (Rule::K14, says_what_it_is(false, &here.promised)),
        ]),
        End::Return(argument) => return_refusal(context, here, facts, argument),
    }
}
