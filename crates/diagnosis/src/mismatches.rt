//! K5 and K19: a struct is written, and the reference refers to another one.
use crate::cases::{Case, Mending, Seen};
use crate::cells::{cell_layout, element_of};
use crate::diagnosis::Draft;
use crate::scene::Scene;
use crate::told::{Told, op_of, value_in};
use crate::unknown::note_definition;
use ir_ast::{IrType, Module, Op, Operand, StructNameId, TypeId};
use pools::LayoutId;
use types::pointee;

fn layout_named(module: &Module, name: &StructNameId) -> Option<LayoutId> {
    for (place, named) in module.structs.as_slice().iter().enumerate() {
        if named.name.number() == name.number() {
            return match u32::try_from(place) {
                Ok(number) => Some(LayoutId::new(number)),
                Err(_) => None,
            };
        }
    }
    None
}

/// The layout of a named struct.
fn layout_of_struct(module: &Module, written: TypeId) -> Option<LayoutId> {
    let found = module.types.get(written);
    match &found {
        Some(IrType::Named(name)) => layout_named(module, name),
        _ => None,
    }
}

/// The type to which a cast leads.
fn cast_to(scene: &Scene) -> Option<TypeId> {
    match op_of(scene)? {
        Op::Cast(cast) => pointee(scene.context.module(), cast.to),
        _ => None,
    }
}

/// The type that the refused getelementptr or cast leads to.
fn type_written(scene: &Scene) -> Option<TypeId> {
    match element_of(scene) {
        Some(element) => Some(element.source),
        None => cast_to(scene),
    }
}

/// Another struct is written in the refused getelementptr or cast than the one to which this reference refers.
fn mismatch_of(scene: &Scene, operand: Option<Operand>) -> Option<(LayoutId, LayoutId)> {
    let found = cell_layout(&scene.facts.known(value_in(operand)?))?;
    let written = layout_of_struct(scene.context.module(), type_written(scene)?)?;
    if found == written {
        return None;
    }
    Some((found, written))
}

/// What is wrong where another struct is written. Returns whether that is so of the base or the operand.
pub(crate) fn find_mismatch(draft: &mut Draft, told: &Told, operands: &[Operand]) -> bool {
    let Some((found, written)) = mismatch_of(told.scene, told.holes.it) else {
        return false;
    };
    draft.case(told, Case::OtherStruct { found, written });
    note_definition(draft, told, Seen::Defined);
    draft.know(told.scene, operands);
    draft.words(found);
    draft.mend(told, Mending::OfCase);
    draft.mend(told, Mending::Numbers);
    true
}
