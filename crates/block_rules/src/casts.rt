ghost use Rattle.std.specs.Prelude.{◌≡◌, ◌&&◌, OnOk};
ghost use Rattle.fact_tables.specs.Rows.{is_on, off_base};
ghost use Rattle.block_rules.specs.FirstFailing.{first_failing};
ghost use Rattle.block_rules.specs.Rules.{casts_outside, cast_conditions};
ghost use Rattle.type_kinds.specs.TypeKinds.{kind_of, is_bits};
ghost use Rattle.block_rules.specs.Casts.{casts_null, casts_constant, casts_slot, casts_words, casts_base, casts_to, casts_global, casts_operand, casts_known, casts_other, may_cast, layout_of_null, cast_number, cast_constant, cast_local, after_cast};

use crate::conditions::first_failing;
use crate::context::RuleContext;
use crate::instr_context::InstrContext;
use crate::numbers::{below_next, define_number};
use crate::operands::{
    is_available, is_operand_current, is_outside_value, is_typed, known_in, known_of,
};
use crate::places::define_held;
use crate::rule::Rule;
use facts::{Facts, Known};
use ir_ast::{Cast, Constant, Module, Operand, SymbolId, TypeId, ValueId};
use layout::{Program, global_word};
use pools::{LayoutId, Layouts, WordSet};
use shadow_stack::SlotId;
use std::alloc::AllocError;
use type_kinds::{TypeKind, layout_of_word, loads_words};
use types::is_outside;

fn casts_null(module: &Module, from: TypeId, to: TypeId) -> bool
    ensures { result ≡ casts_null «module».now from to }
{
    (TypeKind::of(module, from).may_be_reference() && TypeKind::of(module, to).may_be_reference())
        || (TypeKind::of_place(module, from).may_be_reference()
            && TypeKind::of_place(module, to).may_be_reference())
}

fn casts_constant(module: &Module, from: TypeId, to: TypeId, constant: Constant) -> bool
    ensures { result ≡ casts_constant «module».now from to constant }
{
    match constant {
        Constant::Null => casts_null(module, from, to),
        _ => false,
    }
}

fn casts_slot(held: TypeKind, to: TypeKind) -> bool
    ensures { result ≡ casts_slot held to }
{
    match held {
        TypeKind::Reference(layout) => to.fits_layout(layout),
        _ => false,
    }
}

fn casts_words(layouts: &Layouts, layout: LayoutId, words: &WordSet, to: &TypeKind) -> bool
    ensures { result ≡ casts_words layouts.now layout words.now to.now }
{
    to.may_be_reference() && loads_words(layouts, layout, words, *to)
}

fn casts_base(program: &Program, to: TypeId, words: &WordSet, base: &Known) -> bool
    ensures { result ≡ casts_base program.now to words.now base.now }
{
    match base {
        Known::Cell { layout, .. } => casts_words(
            program.layouts(),
            *layout,
            words,
            &TypeKind::of_place(program.module(), to),
        ),
        _ => true,
    }
}

fn casts_global(module: &Module, to: TypeId, symbol: SymbolId) -> bool
    ensures { result ≡ casts_global «module».now to symbol }
{
    match layout_of_word(global_word(module, symbol)) {
        Some(layout) => TypeKind::of_place(module, to).fits_layout(layout),
        None => false,
    }
}

/// Whether an operand is used at a type of its layout, and what is outside at any.
pub fn casts_operand(module: &Module, operand: &Operand) -> bool
    ensures { result ≡ casts_operand «module».now operand.now }
{
    match operand {
        Operand::CastGlobal { from, global, to } => {
            *from == *to || casts_global(module, *to, *global) || is_outside(module, *global)
        }
        _ => true,
    }
}

/// Whether numbers of these bits are of both types.
fn is_number_of(module: &Module, bits: u32, from: TypeId, to: TypeId) -> bool
    ensures { result ≡ (is_bits bits (kind_of «module».now from) && is_bits bits (kind_of «module».now to)) }
{
    TypeKind::of(module, from).is_bits(bits as u64) && TypeKind::of(module, to).is_bits(bits as u64)
}

fn casts_known(program: &Program, facts: &Facts, from: TypeId, to: TypeId, known: &Known) -> bool
    ensures { result ≡ casts_known program.now facts.now from to known.now }
{
    match known {
        Known::Nothing => true,
        Known::Number { bits, .. } => is_number_of(program.module(), *bits, from, to),
        Known::Cell { layout, .. } => TypeKind::of(program.module(), to).fits_layout(*layout),
        Known::Null => TypeKind::of(program.module(), to).may_be_reference(),
        Known::Address { base, words } => casts_base(program, to, words, &facts.known(*base)),
        Known::GlobalAddress(symbol) => casts_global(program.module(), to, *symbol),
    }
}

/// Whether a bitcast to another type keeps the layout.
fn casts_other(
    context: &RuleContext,
    facts: &Facts,
    from: TypeId,
    to: TypeId,
    operand: &Operand,
) -> bool
    ensures { result ≡ casts_other context.now.program.now context.now.slots.now facts.now from to operand.now }
{
    match operand {
        Operand::Constant(constant) => casts_constant(context.module(), from, to, *constant),
        Operand::Local(v) => match context.slots.slot_of(*v) {
            Some(s) => casts_slot(
                TypeKind::of_slot(context.module(), context.slots, s),
                TypeKind::of_place(context.module(), to),
            ),
            None => casts_known(context.program, facts, from, to, &facts.known(*v)),
        },
        operand => casts_known(context.program, facts, from, to, &known_of(facts, operand)),
    }
}

/// Whether a bitcast is allowed.
pub fn may_cast(
    context: &RuleContext,
    facts: &Facts,
    from: TypeId,
    to: TypeId,
    operand: &Operand,
) -> bool
    ensures { result ≡ may_cast context.now.program.now context.now.slots.now facts.now from to operand.now }
{
    from == to || casts_other(context, facts, from, to, operand)
}

fn layout_of_null(from: TypeKind, to: TypeKind) -> Option<LayoutId>
    ensures { result ≡ layout_of_null from to }
{
    match to.layout() {
        Some(layout) => Some(layout),
        None => from.layout(),
    }
}

fn cast_number(facts: &mut Facts, v: ValueId, number: u64, kind: TypeKind) -> Result<(), AllocError>
    ensures { OnOk result (facts.new ≡ cast_number v number kind facts.old) }
{
    match kind {
        TypeKind::Bits(bits) => {
            let below = below_next(number);
            facts.define(v, Known::Number { bits, below })
        }
        _ => facts.define(v, Known::Nothing),
    }
}

fn cast_constant(
    module: &Module,
    facts: &mut Facts,
    v: ValueId,
    from: TypeId,
    to: TypeId,
    constant: Constant,
) -> Result<(), AllocError>
    ensures { OnOk result (facts.new ≡ cast_constant «module».now v from to constant facts.old) }
{
    match constant {
        Constant::Number(number) => cast_number(facts, v, number, TypeKind::of(module, to)),
        Constant::Float(_) => define_number(facts, v, TypeKind::of(module, to), None),
        Constant::Truth(_) => facts.define(v, Known::Nothing),
        Constant::Null => {
            let layout = layout_of_null(TypeKind::of(module, from), TypeKind::of(module, to));
            define_held(facts, v, layout, false)
        }
    }
}

/// What is known of a value, if that is no address of which the other value is the base.
pub fn off_base(v: ValueId, known: &Known) -> Known
    ensures { result ≡ off_base v known.now }
{
    if is_on(v, known) {
        Known::Nothing
    } else {
        *known
    }
}

fn is_on(v: ValueId, known: &Known) -> bool
    ensures { result ≡ is_on v known.now }
{
    match known {
        Known::Address { base, .. } => *base == v,
        _ => false,
    }
}

fn cast_local(
    facts: &mut Facts,
    v: ValueId,
    u: ValueId,
    known: &Known,
    slot: Option<SlotId>,
) -> Result<(), AllocError>
    ensures { OnOk result (facts.new ≡ cast_local v u known.now slot facts.old) }
{
    match slot {
        Some(_) => Ok(()),
        None => {
            if u == v {
                Ok(())
            } else {
                let known = off_base(v, known);
                facts.define(v, known)
            }
        }
    }
}

/// Goes on to the facts after a bitcast.
pub fn after_cast(
    context: &RuleContext,
    facts: &mut Facts,
    v: ValueId,
    from: TypeId,
    to: TypeId,
    operand: &Operand,
) -> Result<(), AllocError>
    ensures { OnOk result (facts.new ≡ after_cast context.now.program.now.of_module context.now.slots.now v from to operand.now facts.old) }
{
    match operand {
        Operand::Constant(constant) => cast_constant(
            context.module(),
            facts,
            v,
            from,
            to,
            *constant,
        ),
        Operand::Local(u) => {
            let known = facts.known(*u);
            cast_local(facts, v, *u, &known, context.slots.slot_of(*u))
        }
        operand => {
            let known = known_in(context.module(), facts, operand);
            facts.define(v, known)
        }
    }
}

/// Whether an address outside gets another pointer type.
fn casts_outside(
    context: &RuleContext,
    facts: &Facts,
    from: TypeId,
    to: TypeId,
    operand: &Operand,
) -> bool
    ensures { result ≡ casts_outside context.now.program.now.of_module context.now.function.now context.now.slots.now facts.now from to operand.now }
{
    is_outside_value(context, facts, from, operand)
        && TypeKind::of(context.module(), to).is_pointer()
}

/// The rule that a bitcast breaks, if it breaks one.
pub fn cast_refusal(
    context: &RuleContext,
    here: InstrContext,
    facts: &Facts,
    cast: &Cast,
) -> Option<Rule>
    ensures { result ≡ first_failing (cast_conditions context.now.program.now context.now.function.now context.now.slots.now here facts.now cast.now) }
{
    let Cast { from, operand, to } = cast;
    first_failing(&[
        (Rule::K1, is_available(context.slots, facts, operand)),
        (
            Rule::K2,
            is_typed(context, *from, operand) || is_outside_value(context, facts, *from, operand),
        ),
        (Rule::K3, is_operand_current(facts, operand)),
        (Rule::K12, here.may_move_references),
        (
            Rule::K19,
            casts_operand(context.module(), operand)
                && (may_cast(context, facts, *from, *to, operand)
                    || casts_outside(context, facts, *from, *to, operand)),
        ),
    ])
}
