//! K4: a base that may be null, where it came in, and what would show that it is not.
use crate::cases::{Case, Loaded, Mending, Seen};
use crate::definitions::{Definition, defining, definition_of, spot_of};
use crate::diagnosis::Draft;
use crate::scene::{Scene, Spot, instr_in};
use crate::told::{Told, local, value_in};
use crate::ways::same_under_other_name;
use ir_ast::{MemoryOp, Op, Operand, ValueId};

/// Over how many instructions a place is followed back at most.
const STEPS: usize = 64;

/// Whether an instruction of the body of the refused one's block defines a value.
pub(crate) fn is_made_here(scene: &Scene, value: ValueId) -> bool {
    let block = scene.refusal.block;
    match spot_of(scene, value) {
        Some(spot) => spot.block == block && spot.place >= scene.phis_of(block),
        None => false,
    }
}

/// Whether an operand names a value.
pub(crate) fn is_value(value: ValueId, operand: Option<Operand>) -> bool {
    value_in(operand) == Some(value)
}

/// The place, whose base may be null.
pub(crate) fn find_place(found: &mut Draft, told: &Told) {
    let base = value_in(told.holes.it);
    if told.holes.place.is_none() || (base.is_some() && base == value_in(told.holes.place)) {
        return found.case(told, Case::NullableBase);
    }
    found.case_under(told, Case::NullablePlace, told.holes.place)
}

/// A value, and the instruction that makes it.
#[derive(Clone, Copy)]
struct Made {
    value: ValueId,
    spot: Spot,
}

/// The value that is made of a base on the way to a place: over casts back to the getelementptr of the base.
fn made_of(scene: &Scene, base: ValueId, place: ValueId) -> Option<Made> {
    let mut value = place;
    for _step in 0..STEPS {
        let spot = spot_of(scene, value)?;
        let from = same_under_other_name(instr_in(scene.context.function, &spot)?)?;
        if from.number() == base.number() {
            return Some(Made { value, spot });
        }
        value = from;
    }
    None
}

/// Where the base came in.
pub(crate) fn note_base(found: &mut Draft, told: &Told) {
    let (Some(place), Some(base)) = (value_in(told.holes.place), value_in(told.holes.it)) else {
        return;
    };
    if let Some(made) = made_of(told.scene, base, place) {
        let told = told.with_place(Some(Operand::Local(made.value)));
        found.note(&told, &made.spot, told.holes.it, Seen::Base);
    }
}

/// The load from a slot that gives a value, if one does, and the slot.
pub(crate) fn load_of(scene: &Scene, value: ValueId) -> Option<(Loaded, Operand)> {
    let instr = defining(scene.context.function, value)?;
    let Op::Memory(
        MemoryOp::Load {
            loaded,
            place_type,
            place,
        },
    ) = &instr.op
    else {
        return None;
    };
    scene.context.slots.slot_of(local(*place)?)?;
    let load = Loaded {
        value,
        loaded: *loaded,
        place_type: *place_type,
    };
    Some((load, *place))
}

/// What may be listed of the slot from which the value is loaded.
fn mend_slot(found: &mut Draft, told: &Told, value: ValueId) {
    let scene = told.scene;
    if is_made_here(scene, value) {
        return found.mend(told, Mending::ListSlotHere);
    }
    match definition_of(scene.context.function, value).block() {
        Some(block) if block.number() != 0 => {
            found.mend(&told.with_block(Some(block)), Mending::ListSlotThere)
        }
        _ => {}
    }
}

/// What a block may list in place of that.
fn mend_listed(found: &mut Draft, told: &Told, value: ValueId) {
    match load_of(told.scene, value) {
        Some((_, slot)) => mend_slot(found, &told.with_place(Some(slot)), value),
        None if is_made_here(told.scene, value) => {}
        None => found.mend(told, Mending::ListNonnull),
    }
}

/// What the certificate may say in place of that.
fn mend_claimed(found: &mut Draft, told: &Told, value: ValueId) {
    let scene = told.scene;
    if scene.refusal.block.number() != 0 {
        return mend_listed(found, told, value);
    }
    match definition_of(scene.context.function, value) {
        Definition::Parameter(_) => found.mend(told, Mending::PromiseNonnull),
        _ => {}
    }
}

/// What shows that it is not null.
pub(crate) fn mend_nullable(found: &mut Draft, told: &Told) {
    found.mend(told, Mending::CompareWithNull);
    if let Some(value) = value_in(told.holes.it) {
        mend_claimed(found, told, value);
    }
}
