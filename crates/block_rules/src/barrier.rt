ghost use Rattle.std.specs.Prelude.{◌≡◌, OnOk};
ghost use Rattle.fact_tables.specs.Rows.{is_of};
ghost use Rattle.block_rules.specs.FirstFailing.{first_failing};
ghost use Rattle.block_rules.specs.Operands.{known_of};
ghost use Rattle.block_rules.specs.Barriers.{is_own_place, needs_no_barrier, is_known_null, is_of_base, lies_in_object, names_object, may_read, is_read, read_conditions, after_read, after_read_call, may_write, is_write, write_conditions, after_write};

use crate::casts::casts_operand;
use crate::conditions::first_failing;
use crate::context::RuleContext;
use crate::instr_context::InstrContext;
use crate::operands::{
    is_available, is_based, is_current, is_no_slot, is_null, is_operand_current, is_typed,
    is_value, known_of, place_known, slot_named,
};
use crate::places::{is_one_layout, load_known, loads_known, publish, stores_known};
use crate::rule::Rule;
use crate::signature::is_written_as;
use barriers::may_store_plain;
use facts::{ClassId, Facts, Known};
use ir_ast::{Argument, Operand, Runtime, TypeId, ValueId};
use std::alloc::AllocError;
use type_kinds::TypeKind;

fn is_own_place(facts: &Facts, place: &Known) -> bool
    ensures { result ≡ is_own_place facts.now place.now }
{
    match place {
        Known::Address { base, .. } => may_store_plain(facts, *base),
        Known::GlobalAddress(_) => false,
        _ => true,
    }
}

/// Whether what is stored at a place, of which this is known, goes there without a barrier.
pub fn needs_no_barrier(
    context: &RuleContext,
    facts: &Facts,
    stored: TypeId,
    place: &Operand,
    known: &Known,
) -> bool
    ensures { result ≡ needs_no_barrier context.now.program.now.of_module context.now.slots.now facts.now stored place.now known.now }
{
    slot_named(context.slots, place).is_some()
        || !TypeKind::of(context.module(), stored).may_be_reference()
        || is_own_place(facts, known)
}

fn is_known_null(known: &Known) -> bool
    ensures { result ≡ is_known_null known.now }
{
    matches!(known, Known::Null)
}

fn is_of(class: ClassId, known: &Known) -> bool
    ensures { result ≡ is_of class known.now }
{
    match known {
        Known::Cell { class: other, .. } => *other == class,
        _ => false,
    }
}

fn is_of_base(object: &Known, base: &Known) -> bool
    ensures { result ≡ is_of_base object.now base.now }
{
    match base {
        Known::Cell { class, .. } => is_of(*class, object),
        _ => true,
    }
}

fn lies_in_object(facts: &Facts, object: &Known, place: &Known) -> bool
    ensures { result ≡ lies_in_object facts.now object.now place.now }
{
    match place {
        Known::Address { base, .. } => is_of_base(object, &facts.known(*base)),
        Known::GlobalAddress(_) => false,
        _ => true,
    }
}

fn names_object(facts: &Facts, object: &Operand, place: &Known) -> bool
    ensures { result ≡ names_object facts.now object.now place.now }
{
    let known = known_of(facts, object);
    is_null(object) || is_known_null(&known) || lies_in_object(facts, &known, place)
}

fn may_read(context: &RuleContext, facts: &Facts, place: &Operand, known: &Known) -> bool
    ensures { result ≡ may_read context.now.program.now context.now.slots.now facts.now place.now known.now }
{
    slot_named(context.slots, place).is_some()
        || loads_known(context.program, facts, TypeKind::AnyReference, known)
}

fn may_write(
    context: &RuleContext,
    facts: &Facts,
    value: &Operand,
    place: &Operand,
    known: &Known,
) -> bool
    ensures { result ≡ may_write context.now.program.now context.now.slots.now facts.now value.now place.now known.now }
{
    slot_named(context.slots, place).is_some()
        || stores_known(
            context.program,
            facts,
            TypeKind::AnyReference,
            &known_of(facts, value),
            known,
        )
}

fn is_read(
    context: &RuleContext,
    facts: &Facts,
    returned: TypeId,
    object: &Argument,
    place: &Argument,
) -> bool
    ensures { result ≡ is_read context.now.program.now context.now.function.now context.now.slots.now facts.now returned object.now place.now }
{
    is_value(context, facts, object.written, &object.operand)
        && is_typed(context, place.written, &place.operand)
        && may_read(
            context,
            facts,
            &place.operand,
            &place_known(context, facts, place.written, &place.operand),
        )
        && is_written_as(
            context.module(),
            returned,
            &[*object, *place],
            Runtime::GcRead,
        )
}

/// The rule that a call of gcread with this object and place breaks, if it breaks one.
pub fn read_refusal(
    context: &RuleContext,
    here: InstrContext,
    facts: &Facts,
    returned: TypeId,
    object: &Argument,
    place: &Argument,
) -> Option<Rule>
    ensures { result ≡ first_failing (read_conditions context.now.program.now context.now.function.now context.now.slots.now here facts.now returned object.now place.now) }
{
    let at = place_known(context, facts, place.written, &place.operand);
    first_failing(&[
        (
            Rule::K1,
            is_available(context.slots, facts, &object.operand)
                && is_available(context.slots, facts, &place.operand),
        ),
        (Rule::K2, is_read(context, facts, returned, object, place)),
        (
            Rule::K3,
            is_operand_current(facts, &object.operand) && is_current(facts, &at),
        ),
        (Rule::K4, is_based(facts, &place.operand, &at)),
        (Rule::K7, names_object(facts, &object.operand, &at)),
        (
            Rule::K10,
            is_no_slot(context.slots, &object.operand) && is_no_slot(context.slots, &place.operand),
        ),
        (Rule::K12, here.may_move_references),
        (Rule::K19, casts_operand(context.module(), &place.operand)),
    ])
}

/// Goes on to the facts after a call of gcread.
pub fn after_read_call(
    context: &RuleContext,
    facts: &mut Facts,
    defined: Option<ValueId>,
    arguments: &[Argument],
) -> Result<(), AllocError>
    ensures { OnOk result (facts.new ≡ after_read_call context.now.program.now defined arguments.now facts.old) }
{
    match defined {
        Some(v) => after_read(context, facts, v, arguments),
        None => Ok(()),
    }
}

fn after_read(
    context: &RuleContext,
    facts: &mut Facts,
    v: ValueId,
    arguments: &[Argument],
) -> Result<(), AllocError>
    ensures { OnOk result (facts.new ≡ after_read context.now.program.now v arguments.now facts.old) }
{
    match arguments {
        [_, place] => {
            let known = place_known(context, facts, place.written, &place.operand);
            load_known(context.program, facts, v, TypeKind::AnyReference, &known)
        }
        _ => facts.define(v, Known::Nothing),
    }
}

/// A call of gcwrite: the type that it gives, and its arguments.
#[derive(Clone, Copy)]
pub struct WriteCall<'a> {
    pub returned: TypeId,
    pub value: &'a Argument,
    pub object: &'a Argument,
    pub place: &'a Argument,
}

fn is_write(context: &RuleContext, facts: &Facts, call: &WriteCall) -> bool
    ensures { result ≡ is_write context.now.program.now context.now.function.now context.now.slots.now facts.now call.now.returned call.now.value.now call.now.object.now call.now.place.now }
{
    let WriteCall {
        returned,
        value,
        object,
        place,
    } = *call;
    is_value(context, facts, value.written, &value.operand)
        && is_value(context, facts, object.written, &object.operand)
        && is_typed(context, place.written, &place.operand)
        && may_write(
            context,
            facts,
            &value.operand,
            &place.operand,
            &place_known(context, facts, place.written, &place.operand),
        )
        && is_one_layout(
            context,
            facts,
            value.written,
            &place_known(context, facts, place.written, &place.operand),
        )
        && is_written_as(
            context.module(),
            returned,
            &[*value, *object, *place],
            Runtime::GcWrite,
        )
}

/// The rule that a call of gcwrite breaks, if it breaks one.
pub fn write_refusal(
    context: &RuleContext,
    here: InstrContext,
    facts: &Facts,
    call: &WriteCall,
) -> Option<Rule>
    ensures { result ≡ first_failing (write_conditions context.now.program.now context.now.function.now context.now.slots.now here facts.now call.now.returned call.now.value.now call.now.object.now call.now.place.now) }
{
    let WriteCall {
        value,
        object,
        place,
        ..
    } = *call;
    let at = place_known(context, facts, place.written, &place.operand);
    first_failing(&[
        (
            Rule::K1,
            is_available(context.slots, facts, &value.operand)
                && is_available(context.slots, facts, &object.operand)
                && is_available(context.slots, facts, &place.operand),
        ),
        (Rule::K2, is_write(context, facts, call)),
        (
            Rule::K3,
            is_operand_current(facts, &value.operand)
                && is_operand_current(facts, &object.operand)
                && is_current(facts, &at),
        ),
        (Rule::K4, is_based(facts, &place.operand, &at)),
        (Rule::K7, names_object(facts, &object.operand, &at)),
        (
            Rule::K10,
            is_no_slot(context.slots, &value.operand)
                && is_no_slot(context.slots, &object.operand)
                && is_no_slot(context.slots, &place.operand),
        ),
        (Rule::K12, here.may_move_references),
        (Rule::K19, casts_operand(context.module(), &place.operand)),
    ])
}

/// Goes on to the facts after a call of gcwrite.
pub fn after_write(facts: &mut Facts, arguments: &[Argument]) -> Result<(), AllocError>
    ensures { OnOk result (facts.new ≡ after_write arguments.now facts.old) }
{
    match arguments {
        [value, ..] => publish(facts, &value.operand),
        [] => Ok(()),
    }
}
