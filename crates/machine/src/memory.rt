//! Slots, loads and stores: what they ask for, and what is read.
ghost use Rattle.std.specs.Prelude.{◌≡◌};
ghost use Rattle.machine.specs.Elements.{is_read_as, takes_value};
ghost use Rattle.machine.specs.Kinds.{slot_at_place, address_at_place, is_usable, value_of};
ghost use Rattle.machine.specs.Asks.{is_slot_type, is_held_as, is_loaded_as, read_action, load_action, plain_action, barrier_action, store_action, is_count, memory_action};
ghost use Rattle.machine.specs.Machine.{slot_value, read_at, loaded_from};

use crate::action::{Action, only_if};
use crate::answer::Answer;
use crate::elements::{
    global_kind, globals_cell, is_read_as, kind_of_word, read_value, takes_value,
};
use crate::foreign::asked_given;
use crate::frame_context::FrameContext;
use crate::kinds::{fits_layout_of, is_byte_pointer};
use crate::operands::{address_at_place, is_usable, is_usable_number, slot_at_place, value_of};
use crate::outside::{is_usable_outside, stores_outside};
use crate::value::{Pointee, Value};
use ir_ast::{Argument, MemoryOp, Module, Operand, TypeId};
use layout::Program;
use pools::LayoutId;
use shadow_stack::SlotId;
use types::is_opaque;

fn is_slot_type(of_module: &Module, layout: Option<LayoutId>, held: TypeId, written: TypeId) -> bool
    ensures { result ≡ is_slot_type of_module.now layout held written }
{
    held == written || (layout.is_some() && is_byte_pointer(of_module, written))
}

/// Whether a slot of this layout and type is stored to under a type.
fn is_held_as(
    of_module: &Module,
    layout: Option<LayoutId>,
    held: Option<TypeId>,
    written: TypeId,
) -> bool
    ensures { result ≡ is_held_as of_module.now layout held written }
{
    match held {
        Some(held) => is_slot_type(of_module, layout, held, written),
        None => false,
    }
}

/// Whether a slot of this type is loaded under a type.
fn is_loaded_as(of_module: &Module, held: Option<TypeId>, written: TypeId) -> bool
    ensures { result ≡ is_loaded_as of_module.now held written }
{
    match held {
        Some(held) => {
            held == written
                || (is_byte_pointer(of_module, written) && !is_opaque(of_module, written))
        }
        None => false,
    }
}

/// What a read of the word to which an address points asks for.
pub fn read_action(program: &Program, loaded: TypeId, address: Option<Pointee>) -> Action
    ensures { result ≡ read_action program.now loaded address }
{
    match &address {
        Some(Pointee::Word { layout, at, word }) => only_if(
            is_read_as(
                program.module(),
                loaded,
                kind_of_word(program, *layout, *word),
            ),
            Action::Read {
                at: *at,
                word: *word,
            },
        ),
        Some(Pointee::Global(global)) => only_if(
            is_read_as(
                program.module(),
                loaded,
                global_kind(program.module(), *global),
            ),
            Action::Read {
                at: globals_cell(),
                word: global.number(),
            },
        ),
        _ => Action::Wrong,
    }
}

/// What a load asks for: nothing of a slot, the word of an address.
fn load_action(
    context: &FrameContext<'_>,
    loaded: TypeId,
    place_type: TypeId,
    place: &Operand,
) -> Action
    ensures { let m = context.now.program.now.of_module in let f = context.now.function.now in let slots = context.now.slots.now in result ≡ load_action context.now.program.now slots loaded (slot_at_place m f slots place_type place.now) (address_at_place m f slots context.now.registers.now place_type place.now) }
{
    match slot_at_place(context, place_type, place) {
        Some(slot) => only_if(
            is_loaded_as(context.of_module(), context.slots.held_type(slot), loaded),
            Action::Local,
        ),
        None => read_action(
            context.program,
            loaded,
            address_at_place(context, place_type, place),
        ),
    }
}

fn plain_action(program: &Program, stored: TypeId, value: Value, address: Option<Pointee>) -> Action
    ensures { result ≡ plain_action program.now stored value address }
{
    match &address {
        Some(Pointee::Word { layout, at, word }) => only_if(
            takes_value(
                program.module(),
                stored,
                kind_of_word(program, *layout, *word),
                &value,
            ),
            Action::StorePlain {
                at: *at,
                word: *word,
                value,
            },
        ),
        Some(Pointee::Global(global)) => only_if(
            takes_value(
                program.module(),
                stored,
                global_kind(program.module(), *global),
                &value,
            ),
            Action::StorePlain {
                at: globals_cell(),
                word: global.number(),
                value,
            },
        ),
        _ => Action::Wrong,
    }
}

/// What a store with the barrier asks for, to the word to which an address points.
pub fn barrier_action(
    program: &Program,
    stored: TypeId,
    value: Value,
    address: Option<Pointee>,
) -> Action
    ensures { result ≡ barrier_action program.now stored value address }
{
    match &address {
        Some(Pointee::Word { layout, at, word }) => only_if(
            takes_value(
                program.module(),
                stored,
                kind_of_word(program, *layout, *word),
                &value,
            ),
            Action::Write {
                at: *at,
                word: *word,
                value,
            },
        ),
        Some(Pointee::Global(global)) => only_if(
            takes_value(
                program.module(),
                stored,
                global_kind(program.module(), *global),
                &value,
            ),
            Action::Write {
                at: globals_cell(),
                word: global.number(),
                value,
            },
        ),
        _ => Action::Wrong,
    }
}

/// What a store asks for: nothing of a slot, a plain store of the word of an address.
fn store_action(
    context: &FrameContext<'_>,
    stored: TypeId,
    operand: &Operand,
    place_type: TypeId,
    place: &Operand,
) -> Action
    ensures { let m = context.now.program.now.of_module in let f = context.now.function.now in let slots = context.now.slots.now in let registers = context.now.registers.now in result ≡ store_action context.now.program.now slots stored (is_usable m f slots registers stored operand.now) (value_of m registers stored operand.now) (slot_at_place m f slots place_type place.now) (address_at_place m f slots registers place_type place.now) }
{
    let value = value_of(context, stored, operand);
    let usable = is_usable(context, stored, operand);
    match slot_at_place(context, place_type, place) {
        Some(slot) => {
            let layout = context.slots.layout(slot);
            let held = context.slots.held_type(slot);
            only_if(
                usable
                    && (is_held_as(context.of_module(), layout, held, stored)
                        && fits_layout_of(layout, &value)),
                Action::Local,
            )
        }
        None => {
            if usable {
                plain_action(
                    context.program,
                    stored,
                    value,
                    address_at_place(context, place_type, place),
                )
            } else {
                Action::Wrong
            }
        }
    }
}

/// Whether a count of elements is a number.
fn is_count(context: &FrameContext<'_>, count: &Option<Argument>) -> bool
    ensures { result ≡ is_count context.now.program.now.of_module context.now.function.now context.now.slots.now context.now.registers.now count.now }
{
    match count {
        Some(count) => is_usable_number(context, count.written, &count.operand),
        None => true,
    }
}

/// What an operation on memory asks for. What is read outside is from outside, and what is stored there changes nothing here.
pub fn memory_action(context: &FrameContext<'_>, op: &MemoryOp) -> Action
    ensures { result ≡ memory_action context.now.program.now context.now.function.now context.now.slots.now context.now.registers.now op.now }
{
    match op {
        MemoryOp::Alloca(_) => Action::Local,
        MemoryOp::Buffer { count, .. } => {
            only_if(
                context.of_module().wide && is_count(context, count),
                Action::Local,
            )
        }
        MemoryOp::Load {
            loaded,
            place_type,
            place,
        } => {
            if is_usable_outside(context, *place_type, place) {
                asked_given(context.of_module(), *loaded)
            } else {
                load_action(context, *loaded, *place_type, place)
            }
        }
        MemoryOp::Store {
            stored,
            value,
            place_type,
            place,
        } => {
            if is_usable_outside(context, *place_type, place) {
                only_if(stores_outside(context, *stored, value), Action::Local)
            } else {
                store_action(context, *stored, value, *place_type, place)
            }
        }
    }
}

/// What a slot holds.
pub fn slot_value(slots: &[Value], slot: SlotId) -> Value
    ensures { result ≡ slot_value slots.now slot }
{
    match slots.get(slot.number()) {
        Some(value) => *value,
        None => Value::Unset,
    }
}

/// What is read at an address.
pub fn read_at(program: &Program, address: Option<Pointee>, answer: Answer) -> Value
    ensures { result ≡ read_at program.now address answer }
{
    match &address {
        Some(Pointee::Word { layout, word, .. }) => {
            read_value(kind_of_word(program, *layout, *word), answer)
        }
        Some(Pointee::Global(global)) => {
            read_value(global_kind(program.module(), *global), answer)
        }
        _ => Value::Unset,
    }
}

/// What a load gives: what the slot holds, or what is read at the address.
pub fn loaded_from(
    program: &Program,
    slots: &[Value],
    slot: Option<SlotId>,
    address: Option<Pointee>,
    answer: Answer,
) -> Value
    ensures { result ≡ loaded_from program.now slots.now slot address answer }
{
    match slot {
        Some(slot) => slot_value(slots, slot),
        None => read_at(program, address, answer),
    }
}
