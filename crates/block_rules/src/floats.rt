//! Operations on floating point numbers. What they give is a number, of which no more is known.
ghost use Rattle.std.specs.Prelude.{◌≡◌};
ghost use Rattle.block_rules.specs.FirstFailing.{first_failing};
ghost use Rattle.block_rules.specs.Floats.{is_number_of, one_number, two_numbers, converted_number, float_conditions, float_kind};

use crate::conditions::first_failing;
use crate::context::RuleContext;
use crate::instr_context::InstrContext;
use crate::operands::{is_available, is_no_slot, is_value};
use crate::rule::Rule;
use facts::Facts;
use ir_ast::{FloatOp, Module, Operand, TypeId};
use type_kinds::TypeKind;

/// Whether an operand is a value of a type of numbers.
fn is_number_of(context: &RuleContext, facts: &Facts, written: TypeId, operand: &Operand) -> bool
    ensures { result ≡ is_number_of context.now.program.now.of_module context.now.function.now context.now.slots.now facts.now written operand.now }
{
    is_value(context, facts, written, operand)
        && TypeKind::of(context.module(), written).is_integer()
}

/// The rule that an operation on one number breaks, if it breaks one.
fn negate_refusal(
    context: &RuleContext,
    here: InstrContext,
    facts: &Facts,
    written: TypeId,
    operand: &Operand,
) -> Option<Rule>
    ensures { result ≡ first_failing (one_number context.now.program.now.of_module context.now.function.now context.now.slots.now here facts.now written operand.now) }
{
    first_failing(&[
        (Rule::K1, is_available(context.slots, facts, operand)),
        (Rule::K2, is_number_of(context, facts, written, operand)),
        (Rule::K10, is_no_slot(context.slots, operand)),
        (Rule::K12, here.may_move_references),
    ])
}

/// The same of an operation on two numbers of one type.
fn pair_refusal(
    context: &RuleContext,
    here: InstrContext,
    facts: &Facts,
    written: TypeId,
    first: &Operand,
    second: &Operand,
) -> Option<Rule>
    ensures { result ≡ first_failing (two_numbers context.now.program.now.of_module context.now.function.now context.now.slots.now here facts.now written first.now second.now) }
{
    first_failing(&[
        (
            Rule::K1,
            is_available(context.slots, facts, first) && is_available(context.slots, facts, second),
        ),
        (
            Rule::K2,
            is_number_of(context, facts, written, first)
                && is_number_of(context, facts, written, second),
        ),
        (
            Rule::K10,
            is_no_slot(context.slots, first) && is_no_slot(context.slots, second),
        ),
        (Rule::K12, here.may_move_references),
    ])
}

/// The same of a number that becomes one of another type.
fn convert_refusal(
    context: &RuleContext,
    here: InstrContext,
    facts: &Facts,
    from: TypeId,
    operand: &Operand,
    to: TypeId,
) -> Option<Rule>
    ensures { result ≡ first_failing (converted_number context.now.program.now.of_module context.now.function.now context.now.slots.now here facts.now from operand.now to) }
{
    first_failing(&[
        (Rule::K1, is_available(context.slots, facts, operand)),
        (
            Rule::K2,
            is_number_of(context, facts, from, operand)
                && TypeKind::of(context.module(), to).is_integer(),
        ),
        (Rule::K10, is_no_slot(context.slots, operand)),
        (Rule::K12, here.may_move_references),
    ])
}

/// The rule that an operation on floating point numbers breaks, if it breaks one.
pub fn float_refusal(
    context: &RuleContext,
    here: InstrContext,
    facts: &Facts,
    op: &FloatOp,
) -> Option<Rule>
    ensures { result ≡ first_failing (float_conditions context.now.program.now.of_module context.now.function.now context.now.slots.now here facts.now op.now) }
{
    match op {
        FloatOp::Arithmetic {
            written,
            first,
            second,
            ..
        } => pair_refusal(context, here, facts, *written, first, second),
        FloatOp::Negate { written, operand } => {
            negate_refusal(context, here, facts, *written, operand)
        }
        FloatOp::Compare {
            written,
            first,
            second,
            ..
        } => pair_refusal(context, here, facts, *written, first, second),
        FloatOp::Convert {
            from,
            operand,
            to,
            ..
        } => convert_refusal(context, here, facts, *from, operand, *to),
    }
}

/// What kind of number an operation on floating point numbers gives.
pub fn float_kind(module: &Module, op: &FloatOp) -> TypeKind
    ensures { result ≡ float_kind «module».now op.now }
{
    match op {
        FloatOp::Arithmetic { written, .. } | FloatOp::Negate { written, .. } => {
            TypeKind::of(module, *written)
        }
        FloatOp::Compare { .. } => TypeKind::Bits(1),
        FloatOp::Convert { to, .. } => TypeKind::of(module, *to),
    }
}
