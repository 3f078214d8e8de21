//! K6: where the cell in which a reference is stored lost `fresh`.
use crate::cases::Seen;
use crate::changes::{Change, CodeAt, last_change};
use crate::definitions::spot_of;
use crate::diagnosis::Draft;
use crate::nulls::load_of;
use crate::scene::{Scene, Spot};
use crate::stale::class_of;
use crate::told::{Told, local, value_in};
use crate::ways::safepoint_before;
use facts::{ClassId, Facts};
use ir_ast::{Operand, ValueId};
use shadow_stack::SlotId;
use std::alloc::AllocError;

/// How many calls are gone back over at most.
const CALLS: usize = 16;

/// How many other names of a cell are asked at most.
const NAMES: usize = 64;

/// Where a reference lost `fresh` in the block of the refused instruction.
fn unfresh_at(scene: &Scene, value: ValueId) -> Result<Option<Spot>, AllocError> {
    let refusal = scene.refusal;
    let at = CodeAt {
        func: refusal.func,
        block: refusal.block,
        place: refusal.instr,
    };
    let index = last_change(scene.alloc, &scene.context, at, value, Change::Unfresh)?;
    match index {
        Some(index) => Ok(Some(scene.spot_in(refusal.block, index))),
        None => Ok(None),
    }
}

/// A name of a cell, and where the cell lost `fresh` under this name.
#[derive(Clone, Copy)]
struct Unfresh {
    name: ValueId,
    spot: Spot,
}

/// The value of a number, if it is one of the names of a cell.
fn name_at(scene: &Scene, number: usize, class: ClassId) -> Option<ValueId> {
    let name = ValueId::new(u32::try_from(number).ok()?);
    let own = class_of(scene.facts, name)?;
    if own == class { Some(name) } else { None }
}

/// Where a cell lost `fresh` in the block, under one of the first of its names.
fn other_name(scene: &Scene, class: ClassId) -> Result<Option<Unfresh>, AllocError> {
    let mut left = NAMES;
    for number in 0..scene.context.function.locals.count() {
        if let Some(name) = name_at(scene, number, class) {
            if left == 0 {
                return Ok(None);
            }
            left -= 1;
            if let Some(spot) = unfresh_at(scene, name)? {
                return Ok(Some(Unfresh { name, spot }));
            }
        }
    }
    Ok(None)
}

/// Where the cell of a reference lost `fresh` in the block, under its own name or another one.
fn unfresh_here(scene: &Scene, value: ValueId) -> Result<Option<Unfresh>, AllocError> {
    let Some(class) = class_of(scene.facts, value) else {
        return Ok(None);
    };
    match unfresh_at(scene, value)? {
        Some(spot) => Ok(Some(Unfresh { name: value, spot })),
        None => other_name(scene, class),
    }
}

/// Whether a slot holds a fresh cell.
fn is_fresh_in(facts: &Facts, slot: SlotId) -> bool {
    match facts.slot(slot).holds {
        Some(class) => facts.class(class).fresh,
        None => false,
    }
}

/// Whether a slot holds a fresh cell before an instruction.
fn holds_fresh(scene: &Scene, spot: &Spot, slot: ValueId) -> Result<bool, AllocError> {
    let Some(number) = scene.context.slots.slot_of(slot) else {
        return Ok(false);
    };
    let facts = scene.facts_at(spot)?;
    let fresh = is_fresh_in(&facts, number);
    drop(facts);
    Ok(fresh)
}

/// The call up to which a slot held a fresh cell, going back from an instruction.
fn unfresh_in_slot(
    scene: &Scene,
    from: &Spot,
    slot: ValueId,
) -> Result<Option<Unfresh>, AllocError> {
    let mut spot = *from;
    for _call in 0..CALLS {
        let Some(lost) = safepoint_before(scene, &spot, slot)? else {
            return Ok(None);
        };
        if holds_fresh(scene, &lost.spot, slot)? {
            return Ok(Some(Unfresh {
                name: slot,
                spot: lost.spot,
            }));
        }
        spot = lost.spot;
    }
    Ok(None)
}

/// The local name from which a value is loaded.
fn slot_loaded(scene: &Scene, value: ValueId) -> Option<ValueId> {
    let (_, place) = load_of(scene, value)?;
    local(place)
}

/// The call up to which the slot held a fresh cell from which a reference is loaded.
fn unfresh_before_load(scene: &Scene, value: ValueId) -> Result<Option<Unfresh>, AllocError> {
    let (Some(spot), Some(slot)) = (spot_of(scene, value), slot_loaded(scene, value)) else {
        return Ok(None);
    };
    unfresh_in_slot(scene, &spot, slot)
}

/// Where the cell of a reference lost `fresh`.
fn unfresh_of(scene: &Scene, value: ValueId) -> Result<Option<Unfresh>, AllocError> {
    match unfresh_here(scene, value)? {
        Some(unfresh) => Ok(Some(unfresh)),
        None => unfresh_before_load(scene, value),
    }
}

/// What is seen where the cell of a reference lost `fresh` under a name.
fn seen_under(scene: &Scene, value: ValueId, name: ValueId) -> Seen {
    if name.number() == value.number() {
        Seen::Unfresh
    } else if scene.context.slots.slot_of(name).is_some() {
        Seen::UnfreshInSlot
    } else {
        Seen::UnfreshTwin
    }
}

/// Where the base of the place lost `fresh`.
pub(crate) fn note_unfresh(found: &mut Draft, told: &Told) {
    let Some(value) = value_in(told.holes.base) else {
        return;
    };
    match unfresh_of(told.scene, value) {
        Ok(Some(unfresh)) => found.note(
            &told.with_it(Some(Operand::Local(unfresh.name))),
            &unfresh.spot,
            None,
            seen_under(told.scene, value, unfresh.name),
        ),
        Ok(None) => {}
        Err(_) => found.refuse(),
    }
}
