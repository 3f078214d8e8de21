//! K6 and K7: the write barrier, and the object that it names.
use crate::cases::{Mending, Target};
use crate::diagnosis::Draft;
use crate::scene::Scene;
use crate::stale::class_of;
use crate::subjects::arguments_of;
use crate::told::{Holes, Told, value_in};
use facts::{ClassId, Known};
use ir_ast::Operand;

/// The reference in whose cell an operand is a place.
pub(crate) fn base_of(scene: &Scene, operand: &Option<Operand>) -> Option<Operand> {
    let value = value_in(*operand)?;
    match scene.facts.known(value) {
        Known::Address { base, .. } => Some(Operand::Local(base)),
        Known::Cell { .. } => Some(Operand::Local(value)),
        _ => None,
    }
}

/// Where a reference is stored without a barrier.
pub(crate) fn target_of_store(told: &Told) -> Target {
    match (told.holes.place, told.holes.base) {
        (Some(Operand::Global(_) | Operand::CastGlobal { .. }), _) => Target::Global,
        (_, Some(_)) => Target::Cell,
        _ => Target::Other,
    }
}

/// The class of the reference that an operand names.
fn class_in(scene: &Scene, operand: Option<Operand>) -> Option<ClassId> {
    class_of(scene.facts, value_in(operand)?)
}

/// The value that the refused llvm.gcwrite stores, if the place is in its own cell.
fn stored_into_itself(told: &Told) -> Option<Operand> {
    let [value, _, _] = arguments_of(told.scene) else {
        return None;
    };
    let class = class_in(told.scene, Some(value.operand))?;
    if class_in(told.scene, told.holes.base) == Some(class) {
        Some(value.operand)
    } else {
        None
    }
}

/// K7: the object of the place. Where the place is in the cell of the value, this and the object may be changed round.
pub(crate) fn mend_object(found: &mut Draft, told: &Told) {
    if let Some(value) = stored_into_itself(told) {
        let swapped = told.with(Holes {
            base: Some(value),
            ..told.holes
        });
        found.mend(&swapped, Mending::ChangeRound);
        return found.mend(&swapped, Mending::NameItself);
    }
    let mending = match told.holes.base {
        None => Mending::NameNull,
        Some(_) => Mending::NameObject,
    };
    found.mend(told, mending)
}
