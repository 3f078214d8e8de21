//! A reference that is stale: since which call, and how it is loaded again.
use crate::cases::{Mending, Seen};
use crate::cells::cell_layout;
use crate::diagnosis::Draft;
use crate::scene::{Scene, Spot};
use crate::told::{Told, value_in};
use crate::ways::{Lost, safepoint_before};
use facts::{ClassId, Facts, Known};
use ir_ast::{Instr, MemoryOp, Op, Operand, ValueId};
use pools::LayoutId;
use std::alloc::AllocError;

/// The class of a reference.
pub(crate) fn class_of(facts: &Facts, value: ValueId) -> Option<ClassId> {
    match facts.known(value) {
        Known::Cell { class, .. } => Some(class),
        _ => None,
    }
}

/// The slot that an instruction makes, if it holds what is of this class.
pub(crate) fn slot_with(
    scene: &Scene,
    facts: &Facts,
    instr: &Instr,
    class: ClassId,
) -> Option<ValueId> {
    if !matches!(instr.op, Op::Memory(MemoryOp::Alloca(_))) {
        return None;
    }
    let name = instr.result?;
    let slot = scene.context.slots.slot_of(name)?;
    let held = facts.slot(slot).holds?;
    if held == class { Some(name) } else { None }
}

/// The root slot that holds a reference.
fn slot_among(scene: &Scene, facts: &Facts, value: ValueId) -> Option<ValueId> {
    let class = class_of(facts, value)?;
    let entry = scene.context.function.blocks.get(0)?;
    for instr in entry.body.as_slice() {
        let name = slot_with(scene, facts, instr, class);
        if name.is_some() {
            return name;
        }
    }
    None
}

/// The root slot that holds a reference when a call may reach a safepoint.
fn slot_at(scene: &Scene, lost: &Lost) -> Result<Option<ValueId>, AllocError> {
    let facts = scene.facts_at(&lost.spot)?;
    let slot = slot_among(scene, &facts, lost.value);
    drop(facts);
    Ok(slot)
}

/// The call since which a value is stale at an instruction.
pub(crate) fn lost_before(
    scene: &Scene,
    spot: &Spot,
    value: Option<ValueId>,
) -> Result<Option<Lost>, AllocError> {
    match value {
        Some(value) => safepoint_before(scene, spot, value),
        None => Ok(None),
    }
}

/// The layout of a reference before the call at which it is lost.
fn layout_at(scene: &Scene, lost: &Lost) -> Result<Option<LayoutId>, AllocError> {
    let facts = scene.facts_at(&lost.spot)?;
    let layout = cell_layout(&facts.known(lost.value));
    drop(facts);
    Ok(layout)
}

/// How a reference is held over a call, where no root slot holds it.
fn mend_unheld(found: &mut Draft, told: &Told, lost: &Lost) {
    found.mend(told, Mending::Hold);
    match layout_at(told.scene, lost) {
        Ok(layout) => found.mend(told, Mending::NewRoot(lost.value, layout)),
        Err(_) => found.refuse(),
    }
}

/// How the reference that is lost at a call is loaded again.
fn mend_lost(found: &mut Draft, told: &Told, lost: &Lost) {
    match slot_at(told.scene, lost) {
        Ok(Some(slot)) => found.mend(
            &told.with_place(Some(Operand::Local(slot))),
            Mending::LoadFromRoot,
        ),
        Ok(None) => mend_unheld(found, told, lost),
        Err(_) => found.refuse(),
    }
}

/// Since which call it is stale, what is known of these operands, and how it is loaded again.
pub(crate) fn find_lost(found: &mut Draft, told: &Told, operands: &[Operand]) {
    let scene = told.scene;
    found.know(scene, operands);
    match lost_before(scene, &scene.spot(), value_in(told.holes.it)) {
        Ok(Some(lost)) => {
            let told = told.with_it(Some(Operand::Local(lost.value)));
            found.note(&told, &lost.spot, None, Seen::Lost);
            mend_lost(found, &told, &lost)
        }
        Ok(None) => found.mend(told, Mending::LoadAfterSafepoint),
        Err(_) => found.refuse(),
    }
}
