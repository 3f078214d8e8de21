ghost use Rattle.std.specs.Prelude.{◌≡◌, ◌&&◌, OnOk};
ghost use Rattle.fact_tables.specs.Rows.{known_at};
ghost use Rattle.type_kinds.specs.TypeKinds.{kind_of};
ghost use Rattle.block_rules.specs.Operands.{is_value};
ghost use Rattle.block_rules.specs.Bounds.{below_next};
ghost use Rattle.block_rules.specs.FirstFailing.{first_failing};
ghost use Rattle.block_rules.specs.Integers.{below_known, constant_below, below_of, smaller, weaker_bound, remainder_bound, arithmetic_below, define_number, changes_width, may_resize, resized_below, is_equality, may_compare, after_constant, after_compare};
ghost use Rattle.block_rules.specs.Rules.{compares_outside, number_conditions, after_number};
ghost use Rattle.ir_ast.specs.declared.numbers.Arithmetic.{Arithmetic};

use crate::conditions::first_failing;
use crate::context::RuleContext;
use crate::floats::{float_kind, float_refusal};
use crate::instr_context::InstrContext;
use crate::operands::{
    is_available, is_no_slot, is_null, is_null_constant, is_number_known, is_operand_current,
    is_outside_value, is_value, known_of, number_of,
};
use crate::rule::Rule;
use facts::{Facts, Known, Test};
use ir_ast::{
    Argument, Arithmetic, Comparison, Constant, NumberOp, Operand, Resize, TypeId, ValueId,
};
use std::alloc::AllocError;
use type_kinds::TypeKind;

/// The number after this one, which it is below; 2 to the 64 is no bound.
pub fn below_next(number: u64) -> Option<u64>
    ensures { result ≡ below_next number }
{
    if number < u64::MAX {
        Some(number + 1)
    } else {
        None
    }
}

/// What a number is known to be below.
pub fn below_known(known: &Known) -> Option<u64>
    ensures { result ≡ below_known known.now }
{
    match known {
        Known::Number { below, .. } => *below,
        _ => None,
    }
}

fn constant_below(number: Option<u64>) -> Option<u64>
    ensures { result ≡ constant_below number }
{
    match number {
        Some(number) => below_next(number),
        None => None,
    }
}

/// What an operand is known to be below.
pub fn below_of(facts: &Facts, operand: &Operand) -> Option<u64>
    ensures { result ≡ below_of facts.now operand.now }
{
    match operand {
        Operand::Constant(_) => constant_below(number_of(operand)),
        _ => below_known(&known_of(facts, operand)),
    }
}

fn smaller(one: Option<u64>, other: Option<u64>) -> Option<u64>
    ensures { result ≡ smaller one other }
{
    match (one, other) {
        (Some(n), Some(m)) if m < n => Some(m),
        (Some(n), _) => Some(n),
        (None, other) => other,
    }
}

pub fn weaker_bound(one: Option<u64>, other: Option<u64>) -> Option<u64>
    ensures { result ≡ weaker_bound one other }
{
    match (one, other) {
        (Some(n), Some(m)) if n < m => Some(m),
        (Some(n), Some(_)) => Some(n),
        _ => None,
    }
}

/// What a remainder is known to be below, by what it is divided by.
fn remainder_bound(divisor: Option<u64>) -> Option<u64>
    ensures { result ≡ remainder_bound divisor }
{
    match divisor {
        Some(number) if number > 0 => Some(number),
        _ => None,
    }
}

/// What the result of arithmetic is known to be below.
pub fn arithmetic_below(kind: Arithmetic, first: &Operand, second: &Operand) -> Option<u64>
    ensures { result ≡ arithmetic_below kind first.now second.now }
{
    match kind {
        Arithmetic::And => smaller(
            constant_below(number_of(first)),
            constant_below(number_of(second)),
        ),
        Arithmetic::Remainder => remainder_bound(number_of(second)),
        _ => None,
    }
}

/// A value is a number of a type of this kind.
pub fn define_number(
    facts: &mut Facts,
    v: ValueId,
    kind: TypeKind,
    below: Option<u64>,
) -> Result<(), AllocError>
    ensures { OnOk result (facts.new ≡ define_number v kind below facts.old) }
{
    match kind {
        TypeKind::Bits(bits) => facts.define(v, Known::Number { bits, below }),
        _ => facts.define(v, Known::Nothing),
    }
}

fn changes_width(kind: Resize, from: u32, to: u32) -> bool
    ensures { result ≡ changes_width kind from to }
{
    match kind {
        Resize::ZeroExtend | Resize::SignExtend => from < to,
        Resize::Truncate => to < from,
    }
}

/// Whether one type may be changed to the other.
pub fn may_resize(kind: Resize, from: TypeKind, to: TypeKind) -> bool
    ensures { result ≡ may_resize kind from to }
{
    match from {
        TypeKind::Bits(from) => match to {
            TypeKind::Bits(to) => changes_width(kind, from, to),
            _ => false,
        },
        _ => false,
    }
}

/// What a number of another width is known to be below.
pub fn resized_below(kind: Resize, below: Option<u64>) -> Option<u64>
    ensures { result ≡ resized_below kind below }
{
    match kind {
        Resize::ZeroExtend => below,
        Resize::SignExtend | Resize::Truncate => None,
    }
}

fn is_equality(kind: Comparison) -> bool
    ensures { result ≡ is_equality kind }
{
    matches!(kind, Comparison::Equal | Comparison::NotEqual)
}

/// Whether values of this kind may be compared so.
pub fn may_compare(comparison: Comparison, kind: TypeKind) -> bool
    ensures { result ≡ may_compare comparison kind }
{
    match kind {
        TypeKind::Bits(_) => true,
        TypeKind::Reference(_) | TypeKind::AnyReference => is_equality(comparison),
        _ => false,
    }
}

/// Goes on to the facts after a comparison.
pub fn after_compare(
    facts: &mut Facts,
    v: ValueId,
    kind: Comparison,
    first: &Operand,
    second: &Operand,
) -> Result<(), AllocError>
    ensures { OnOk result (facts.new ≡ after_compare v kind first.now second.now facts.old) }
{
    match first {
        Operand::Local(tested) => compare_value(facts, v, kind, *tested, second),
        _ => facts.define(
            v,
            Known::Number {
                bits: 1,
                below: None,
            },
        ),
    }
}

fn compare_value(
    facts: &mut Facts,
    v: ValueId,
    kind: Comparison,
    tested: ValueId,
    second: &Operand,
) -> Result<(), AllocError>
    ensures { OnOk result (facts.new ≡ after_compare v kind (Operand.Local tested) second.now facts.old) }
{
    match second {
        Operand::Constant(constant) => compare_constant(facts, v, kind, tested, *constant),
        _ => facts.define(
            v,
            Known::Number {
                bits: 1,
                below: None,
            },
        ),
    }
}

/// Whether an address outside is null tells nothing.
fn compare_constant(
    facts: &mut Facts,
    v: ValueId,
    kind: Comparison,
    tested: ValueId,
    constant: Constant,
) -> Result<(), AllocError>
    ensures { OnOk result (facts.new ≡ after_constant v tested kind constant (known_at facts.old.values tested) facts.old) }
{
    if is_null_constant(constant) && is_number_known(&facts.known(tested)) {
        facts.define(
            v,
            Known::Number {
                bits: 1,
                below: None,
            },
        )
    } else {
        facts.define_test(
            v,
            Test {
                tested,
                kind,
                constant,
            },
        )
    }
}

fn arithmetic_refusal(
    context: &RuleContext,
    here: InstrContext,
    facts: &Facts,
    written: TypeId,
    first: &Operand,
    second: &Operand,
) -> Option<Rule>
    ensures { (kind : Arithmetic) → result ≡ first_failing (number_conditions context.now.program.now context.now.function.now context.now.slots.now here facts.now (NumberOp.Arithmetic kind written first.now second.now)) }
{
    first_failing(&[
        (
            Rule::K1,
            is_available(context.slots, facts, first) && is_available(context.slots, facts, second),
        ),
        (
            Rule::K2,
            is_value(context, facts, written, first)
                && is_value(context, facts, written, second)
                && TypeKind::of(context.module(), written).is_integer()
                && is_no_slot(context.slots, first)
                && is_no_slot(context.slots, second),
        ),
        (Rule::K12, here.may_move_references),
    ])
}

fn resize_refusal(
    context: &RuleContext,
    here: InstrContext,
    facts: &Facts,
    kind: Resize,
    from: &Argument,
    to: TypeId,
) -> Option<Rule>
    ensures { result ≡ first_failing (number_conditions context.now.program.now context.now.function.now context.now.slots.now here facts.now (NumberOp.Resize kind from.now.written from.now.operand to)) }
{
    first_failing(&[
        (Rule::K1, is_available(context.slots, facts, &from.operand)),
        (
            Rule::K2,
            is_value(context, facts, from.written, &from.operand)
                && may_resize(
                    kind,
                    TypeKind::of(context.module(), from.written),
                    TypeKind::of(context.module(), to),
                )
                && is_no_slot(context.slots, &from.operand),
        ),
        (Rule::K12, here.may_move_references),
    ])
}

/// Whether two values of this type may be compared so.
fn compares_values(
    context: &RuleContext,
    facts: &Facts,
    kind: Comparison,
    first: &Argument,
    second: &Operand,
) -> bool
    ensures { result ≡ (is_value context.now.program.now.of_module context.now.function.now context.now.slots.now facts.now first.now.written first.now.operand && is_value context.now.program.now.of_module context.now.function.now context.now.slots.now facts.now first.now.written second.now && may_compare kind (kind_of context.now.program.now.of_module first.now.written)) }
{
    is_value(context, facts, first.written, &first.operand)
        && is_value(context, facts, first.written, second)
        && may_compare(kind, TypeKind::of(context.module(), first.written))
}

/// Whether addresses outside are compared, or one with null.
fn compares_outside(
    context: &RuleContext,
    facts: &Facts,
    first: &Argument,
    second: &Operand,
) -> bool
    ensures { result ≡ compares_outside context.now.program.now.of_module context.now.function.now context.now.slots.now facts.now first.now.written first.now.operand second.now }
{
    (is_outside_value(context, facts, first.written, &first.operand)
        && (is_outside_value(context, facts, first.written, second) || is_null(second)))
        || (is_null(&first.operand) && is_outside_value(context, facts, first.written, second))
}

/// The second operand has the type that is written before the first one.
fn compare_refusal(
    context: &RuleContext,
    here: InstrContext,
    facts: &Facts,
    kind: Comparison,
    first: &Argument,
    second: &Operand,
) -> Option<Rule>
    ensures { result ≡ first_failing (number_conditions context.now.program.now context.now.function.now context.now.slots.now here facts.now (NumberOp.Compare kind first.now.written first.now.operand second.now)) }
{
    first_failing(&[
        (
            Rule::K1,
            is_available(context.slots, facts, &first.operand)
                && is_available(context.slots, facts, second),
        ),
        (
            Rule::K2,
            compares_values(context, facts, kind, first, second)
                || compares_outside(context, facts, first, second),
        ),
        (
            Rule::K3,
            is_operand_current(facts, &first.operand) && is_operand_current(facts, second),
        ),
        (
            Rule::K10,
            is_no_slot(context.slots, &first.operand) && is_no_slot(context.slots, second),
        ),
        (Rule::K12, here.may_move_references),
    ])
}

/// The rule that an operation on numbers breaks, if it breaks one.
pub fn number_refusal(
    context: &RuleContext,
    here: InstrContext,
    facts: &Facts,
    op: &NumberOp,
) -> Option<Rule>
    ensures { result ≡ first_failing (number_conditions context.now.program.now context.now.function.now context.now.slots.now here facts.now op.now) }
{
    match op {
        NumberOp::Arithmetic {
            written,
            first,
            second,
            ..
        } => arithmetic_refusal(context, here, facts, *written, first, second),
        NumberOp::Resize {
            kind,
            from,
            operand,
            to,
        } => {
            let from = Argument {
                written: *from,
                operand: *operand,
            };
            resize_refusal(context, here, facts, *kind, &from, *to)
        }
        NumberOp::Compare {
            kind,
            written,
            first,
            second,
        } => {
            let first = Argument {
                written: *written,
                operand: *first,
            };
            compare_refusal(context, here, facts, *kind, &first, second)
        }
        NumberOp::Float(op) => float_refusal(context, here, facts, op),
    }
}

/// Goes on to what is known after an operation on numbers that defines this name.
pub fn after_number(
    context: &RuleContext,
    facts: &mut Facts,
    v: ValueId,
    op: &NumberOp,
) -> Result<(), AllocError>
    ensures { OnOk result (facts.new ≡ after_number context.now.program.now.of_module v op.now facts.old) }
{
    match op {
        NumberOp::Arithmetic {
            kind,
            written,
            first,
            second,
        } => {
            let below = arithmetic_below(*kind, first, second);
            define_number(facts, v, TypeKind::of(context.module(), *written), below)
        }
        NumberOp::Resize {
            kind,
            operand,
            to,
            ..
        } => {
            let below = resized_below(*kind, below_of(facts, operand));
            define_number(facts, v, TypeKind::of(context.module(), *to), below)
        }
        NumberOp::Compare {
            kind,
            first,
            second,
            ..
        } => after_compare(facts, v, *kind, first, second),
        NumberOp::Float(op) => define_number(facts, v, float_kind(context.module(), op), None),
    }
}
