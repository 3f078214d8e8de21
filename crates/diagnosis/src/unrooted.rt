//! K8: a slot that is no root, and the lines that make it one.
use crate::cases::{Case, Held, Mending};
use crate::cells::cell_layout;
use crate::diagnosis::Draft;
use crate::scene::{Scene, block_id};
use crate::told::{Told, value_in};
use certs::{Family, family_of_type, is_opaque_text};
use ir_ast::{Block, BlockId, Function, Instr, LocalSort, MemoryOp, Op, Operand, TypeId, ValueId};
use pools::LayoutId;
use std::alloc::AllocError;

/// The type of what a slot of a function holds.
pub(crate) fn type_held(function: &Function, slot: ValueId) -> Option<TypeId> {
    match function.sorts.get(slot.number() as usize) {
        Some(LocalSort::Slot(held)) => Some(*held),
        _ => None,
    }
}

fn held_in(scene: &Scene, name: ValueId) -> Held {
    let Some(held) = type_held(scene.context.function, name) else {
        return Held::Reference;
    };
    match family_of_type(scene.context.module(), held) {
        Family::AnyReference => Held::AnyReference,
        Family::Address => Held::Address,
        _ => Held::Reference,
    }
}

/// The value that an instruction stores into a slot.
fn stored_into(instr: &Instr, slot: ValueId) -> Option<ValueId> {
    match &instr.op {
        Op::Memory(
            MemoryOp::Store {
                value: Operand::Local(value),
                place: Operand::Local(place),
                ..
            },
        ) => {
            if place.number() == slot.number() {
                Some(*value)
            } else {
                None
            }
        }
        _ => None,
    }
}

/// The layout of what an instruction stores into a slot, if that is known.
fn layout_stored(
    scene: &Scene,
    block: BlockId,
    index: usize,
    value: Option<ValueId>,
) -> Result<Option<LayoutId>, AllocError> {
    match value {
        Some(value) => {
            let facts = scene.facts_at(&scene.spot_in(block, index))?;
            let layout = cell_layout(&facts.known(value));
            drop(facts);
            Ok(layout)
        }
        None => Ok(None),
    }
}

/// The layout of what a block first stores into a slot, if that is known.
fn layout_in(
    scene: &Scene,
    id: BlockId,
    block: &Block,
    slot: ValueId,
) -> Result<Option<LayoutId>, AllocError> {
    for (index, instr) in block.body.as_slice().iter().enumerate() {
        let found = layout_stored(scene, id, index, stored_into(instr, slot))?;
        if found.is_some() {
            return Ok(found);
        }
    }
    Ok(None)
}

/// The layout of what is stored into a slot, if that is known.
fn layout_held(scene: &Scene, slot: ValueId) -> Result<Option<LayoutId>, AllocError> {
    for (place, block) in scene.context.function.blocks.as_slice().iter().enumerate() {
        if let Some(id) = block_id(place) {
            let found = layout_in(scene, id, block, slot)?;
            if found.is_some() {
                return Ok(found);
            }
        }
    }
    Ok(None)
}

/// The lines that make a slot a root. A text that writes `ptr` says in its shapes to which layout the slot refers.
fn mend_unrooted(found: &mut Draft, told: &Told, slot: ValueId) {
    if !is_opaque_text(told.scene.context.module()) {
        return found.mend(told, Mending::RootAfter(slot, None));
    }
    match layout_held(told.scene, slot) {
        Ok(layout) => found.mend(told, Mending::RootAfter(slot, layout)),
        Err(_) => found.refuse(),
    }
}

/// K8.
pub(crate) fn find_unrooted(found: &mut Draft, told: &Told) {
    let Some(slot) = value_in(told.holes.it) else {
        return;
    };
    let held = held_in(told.scene, slot);
    found.case(told, Case::Unrooted(held));
    match held {
        Held::Reference => mend_unrooted(found, told, slot),
        _ => found.mend(told, Mending::OfCase),
    }
}
