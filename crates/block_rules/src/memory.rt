//! Slots, and what is read from places and put there.
ghost use Rattle.std.specs.Prelude.{◌≡◌, ◌&&◌, ◌||◌, ℕ, None, OnOk};
ghost use Rattle.facts.specs.Facts.{FactSet};
ghost use Rattle.block_rules.specs.FirstFailing.{first_failing};
ghost use Rattle.block_rules.specs.Rules.{names_root, gives_root, may_hold, is_count_available, is_count, is_datum, loads_outside, stores_outside, memory_conditions, after_memory};
ghost use Rattle.block_rules.specs.Operands.{is_typed, is_value, known_of};
ghost use Rattle.block_rules.specs.Places.{may_load, may_store, is_one_layout};

use crate::barrier::needs_no_barrier;
use crate::casts::casts_operand;
use crate::conditions::first_failing;
use crate::context::RuleContext;
use crate::instr_context::InstrContext;
use crate::operands::{
    is_available, is_based, is_current, is_no_slot, is_operand_current, is_outside_value, is_typed,
    is_value, known_of, outside_known, place_known, slot_named,
};
use crate::places::{after_load, after_store, is_one_layout, may_load, may_store};
use crate::rule::Rule;
use facts::{Facts, Known};
use ir_ast::{Argument, MemoryOp, Operand, TypeId, ValueId};
use shadow_stack::{SlotId, Slots};
use std::alloc::AllocError;
use type_kinds::TypeKind;

fn names_root(slots: &Slots, slot: Option<SlotId>) -> bool
    ensures { result ≡ names_root slots.now slot }
{
    match slot {
        Some(s) => slots.is_root(s),
        None => false,
    }
}

fn gives_root(slots: &Slots, defined: Option<ValueId>) -> bool
    ensures { result ≡ gives_root slots.now defined }
{
    match defined {
        Some(v) => names_root(slots, slots.slot_of(v)),
        None => false,
    }
}

/// Whether an alloca of this type is allowed.
fn may_hold(context: &RuleContext, defined: Option<ValueId>, held: TypeId) -> bool
    ensures { result ≡ may_hold context.now.program.now.of_module context.now.slots.now defined held }
{
    TypeKind::of(context.module(), held).is_integer() || gives_root(context.slots, defined)
}

fn alloca_refusal(
    context: &RuleContext,
    here: InstrContext,
    defined: Option<ValueId>,
    held: TypeId,
) -> Option<Rule>
    ensures { (facts : FactSet) → result ≡ first_failing (memory_conditions context.now.program.now context.now.function.now context.now.slots.now here facts defined (MemoryOp.Alloca held)) }
{
    first_failing(&[
        (Rule::K8, may_hold(context, defined, held)),
        (Rule::K11, here.in_entry),
        (Rule::K12, here.may_move_references),
    ])
}

fn is_count_available(context: &RuleContext, facts: &Facts, count: &Option<Argument>) -> bool
    ensures { result ≡ is_count_available context.now.slots.now facts.now count.now }
{
    match count {
        Some(count) => is_available(context.slots, facts, &count.operand),
        None => true,
    }
}

/// Whether a count of elements is a number.
fn is_count(context: &RuleContext, facts: &Facts, count: &Option<Argument>) -> bool
    ensures { result ≡ is_count context.now.program.now.of_module context.now.function.now context.now.slots.now facts.now count.now }
{
    match count {
        Some(count) => {
            TypeKind::of(context.module(), count.written).is_integer()
                && is_value(context, facts, count.written, &count.operand)
                && is_no_slot(context.slots, &count.operand)
        }
        None => true,
    }
}

fn buffer_refusal(
    context: &RuleContext,
    here: InstrContext,
    facts: &Facts,
    count: &Option<Argument>,
) -> Option<Rule>
    ensures { (held : ℕ) → result ≡ first_failing (memory_conditions context.now.program.now context.now.function.now context.now.slots.now here facts.now None (MemoryOp.Buffer held count.now)) }
{
    first_failing(&[
        (Rule::K1, is_count_available(context, facts, count)),
        (Rule::K2, is_count(context, facts, count)),
        (Rule::K8, context.module().wide),
        (Rule::K11, here.in_entry),
        (Rule::K12, here.may_move_references),
    ])
}

/// Whether a number or an address outside is read at a type of this kind.
fn is_datum(kind: &TypeKind) -> bool
    ensures { result ≡ is_datum kind.now }
{
    kind.is_integer() || kind.is_pointer()
}

/// Whether a load is from an address outside.
fn loads_outside(
    context: &RuleContext,
    facts: &Facts,
    loaded: TypeId,
    place_type: TypeId,
    place: &Operand,
) -> bool
    ensures { result ≡ loads_outside context.now.program.now.of_module context.now.function.now context.now.slots.now facts.now loaded place_type place.now }
{
    is_outside_value(context, facts, place_type, place)
        && is_datum(&TypeKind::of(context.module(), loaded))
}

fn load_refusal(
    context: &RuleContext,
    here: InstrContext,
    facts: &Facts,
    loaded: TypeId,
    place_type: TypeId,
    place: &Operand,
) -> Option<Rule>
    ensures { result ≡ first_failing (memory_conditions context.now.program.now context.now.function.now context.now.slots.now here facts.now None (MemoryOp.Load loaded place_type place.now)) }
{
    let at = place_known(context, facts, place_type, place);
    first_failing(&[
        (Rule::K1, is_available(context.slots, facts, place)),
        (
            Rule::K2,
            (is_typed(context, place_type, place) && may_load(context, facts, loaded, place, &at))
                || loads_outside(context, facts, loaded, place_type, place),
        ),
        (Rule::K3, is_current(facts, &at)),
        (Rule::K4, is_based(facts, place, &at)),
        (Rule::K12, here.may_move_references),
        (Rule::K19, casts_operand(context.module(), place)),
    ])
}

/// Whether a value may be stored at a place of the module, of which this is known.
fn stores_inside(
    context: &RuleContext,
    facts: &Facts,
    stored: &Argument,
    place: &Argument,
    at: &Known,
) -> bool
    ensures { result ≡ (is_value context.now.program.now.of_module context.now.function.now context.now.slots.now facts.now stored.now.written stored.now.operand && is_typed context.now.program.now.of_module context.now.function.now place.now.written place.now.operand && may_store context.now.program.now context.now.slots.now facts.now stored.now.written (known_of facts.now stored.now.operand) place.now.operand at.now && is_one_layout context.now.program.now facts.now stored.now.written at.now) }
{
    let known = known_of(facts, &stored.operand);
    is_value(context, facts, stored.written, &stored.operand)
        && is_typed(context, place.written, &place.operand)
        && may_store(context, facts, stored.written, &known, &place.operand, at)
        && is_one_layout(context, facts, stored.written, at)
}

/// Whether a number or an address outside, and no reference, is stored at an address outside.
fn stores_outside(context: &RuleContext, facts: &Facts, stored: &Argument, place: &Argument) -> bool
    ensures { result ≡ stores_outside context.now.program.now.of_module context.now.function.now context.now.slots.now facts.now stored.now.written stored.now.operand place.now.written place.now.operand }
{
    let value = &stored.operand;
    is_outside_value(context, facts, place.written, &place.operand)
        && ((TypeKind::of(context.module(), stored.written).is_integer()
            && is_value(context, facts, stored.written, value))
            || is_outside_value(context, facts, stored.written, value))
}

fn store_refusal(
    context: &RuleContext,
    here: InstrContext,
    facts: &Facts,
    stored: &Argument,
    place: &Argument,
) -> Option<Rule>
    ensures { result ≡ first_failing (memory_conditions context.now.program.now context.now.function.now context.now.slots.now here facts.now None (MemoryOp.Store stored.now.written stored.now.operand place.now.written place.now.operand)) }
{
    let value = &stored.operand;
    let to = &place.operand;
    let at = place_known(context, facts, place.written, to);
    first_failing(&[
        (
            Rule::K1,
            is_available(context.slots, facts, value) && is_available(context.slots, facts, to),
        ),
        (
            Rule::K2,
            stores_inside(context, facts, stored, place, &at)
                || stores_outside(context, facts, stored, place),
        ),
        (
            Rule::K3,
            is_operand_current(facts, value) && is_current(facts, &at),
        ),
        (Rule::K4, is_based(facts, to, &at)),
        (
            Rule::K6,
            needs_no_barrier(context, facts, stored.written, to, &at),
        ),
        (Rule::K10, is_no_slot(context.slots, value)),
        (Rule::K12, here.may_move_references),
        (Rule::K19, casts_operand(context.module(), to)),
    ])
}

/// The rule that an operation on memory breaks, if it breaks one.
pub fn memory_refusal(
    context: &RuleContext,
    here: InstrContext,
    facts: &Facts,
    defined: Option<ValueId>,
    op: &MemoryOp,
) -> Option<Rule>
    ensures { result ≡ first_failing (memory_conditions context.now.program.now context.now.function.now context.now.slots.now here facts.now defined op.now) }
{
    match op {
        MemoryOp::Alloca(held) => alloca_refusal(context, here, defined, *held),
        MemoryOp::Buffer { count, .. } => buffer_refusal(context, here, facts, count),
        MemoryOp::Load {
            loaded,
            place_type,
            place,
        } => load_refusal(context, here, facts, *loaded, *place_type, place),
        MemoryOp::Store {
            stored,
            value,
            place_type,
            place,
        } => {
            let stored = Argument {
                written: *stored,
                operand: *value,
            };
            let place = Argument {
                written: *place_type,
                operand: *place,
            };
            store_refusal(context, here, facts, &stored, &place)
        }
    }
}

/// Goes on to what is known after an operation on memory, by the name that it defines, if it does.
pub fn after_memory(
    context: &RuleContext,
    facts: &mut Facts,
    defined: Option<ValueId>,
    op: &MemoryOp,
) -> Result<(), AllocError>
    ensures { OnOk result (facts.new ≡ after_memory context.now.program.now context.now.slots.now defined op.now facts.old) }
{
    match (op, defined) {
        (MemoryOp::Store { value, place, .. }, _) => {
            after_store(facts, value, slot_named(context.slots, place))
        }
        (MemoryOp::Alloca(_), Some(v)) => match context.slots.slot_of(v) {
            Some(s) => facts.end_slot(s),
            None => Ok(()),
        },
        (MemoryOp::Buffer { .. }, Some(v)) => facts.define(v, outside_known()),
        (
            MemoryOp::Load {
                loaded,
                place_type,
                place,
            },
            Some(v),
        ) => after_load(context, facts, v, *loaded, *place_type, place),
        (_, None) => Ok(()),
    }
}
