//! K2 and K5: the elements of an array, and which operand is no value.
use crate::cases::{Beyond, Case, Mending, Mistyped};
use crate::definitions::{Definition, definition_of};
use crate::diagnosis::Draft;
use crate::mistyped::{Wrong, is_address, is_global, special_in};
use crate::nulls::{is_made_here, is_value};
use crate::operands::{reference_of, slot_among};
use crate::outside::{handed_outside, misused_outside};
use crate::scene::Scene;
use crate::subjects::{arguments_of, is_runtime_call};
use crate::told::{Holes, Told, call_of, op_of, value_in};
use crate::write_barrier::mend_object;
use facts::Known;
use ir_ast::{Argument, Constant, Element, IrType, Op, Operand, Runtime, TypeId, ValueId};
use pools::LayoutId;
use types::{part_at, runtime_called};

/// An index of an array that is not known to be small enough.
#[derive(Clone, Copy)]
struct LooseIndex {
    index: Operand,
    /// How many bits it has.
    bits: u32,
    /// How many elements the array has.
    length: u64,
}

/// How many bits an integer type has.
fn bits_of(scene: &Scene, written: TypeId) -> u32 {
    match scene.context.module().types.get(written) {
        Some(IrType::Integer(bits)) => bits,
        _ => 64,
    }
}

/// How many elements an array has.
fn length_of(scene: &Scene, whole: TypeId) -> Option<u64> {
    match scene.context.module().types.get(whole) {
        Some(IrType::Array { length, .. }) => Some(length),
        _ => None,
    }
}

/// An index that leads into an array and is no constant.
fn loose(scene: &Scene, whole: TypeId, index: Argument) -> Option<LooseIndex> {
    value_in(Some(index.operand))?;
    Some(LooseIndex {
        index: index.operand,
        bits: bits_of(scene, index.written),
        length: length_of(scene, whole)?,
    })
}

/// The first index into an array that is no constant.
fn first_loose(scene: &Scene, source: TypeId, indices: &[Argument]) -> Option<LooseIndex> {
    let mut whole = source;
    for index in indices {
        let found = loose(scene, whole, *index);
        if found.is_some() {
            return found;
        }
        whole = part_at(scene.context.module(), whole, *index)?;
    }
    None
}

pub(crate) fn element_of<'a>(scene: &Scene<'a>) -> Option<&'a Element> {
    match op_of(scene)? {
        Op::Element(element) => Some(element),
        _ => None,
    }
}

/// The index of the refused getelementptr that is not known to be small enough.
fn loose_index(scene: &Scene) -> Option<LooseIndex> {
    let element = element_of(scene)?;
    match element.indices.as_slice() {
        [_, parts @ ..] => first_loose(scene, element.source, parts),
        [] => None,
    }
}

/// Whether an index leads outside an array, or to no field.
fn is_outside(scene: &Scene, whole: TypeId, index: Argument) -> bool {
    match (length_of(scene, whole), number_of(index.operand)) {
        (Some(length), Some(number)) => number >= length,
        _ => part_at(scene.context.module(), whole, index).is_none(),
    }
}

fn number_of(operand: Operand) -> Option<u64> {
    match operand {
        Operand::Constant(Constant::Number(number)) => Some(number),
        _ => None,
    }
}

/// The first constant index that leads outside.
fn first_outside(scene: &Scene, source: TypeId, indices: &[Argument]) -> Option<Operand> {
    let mut whole = source;
    for index in indices {
        if is_outside(scene, whole, *index) {
            return Some(index.operand);
        }
        whole = part_at(scene.context.module(), whole, *index)?;
    }
    None
}

/// The constant index of the refused getelementptr that leads outside.
fn outside_index(scene: &Scene) -> Option<Operand> {
    let element = element_of(scene)?;
    match element.indices.as_slice() {
        [_, parts @ ..] => first_outside(scene, element.source, parts),
        [] => None,
    }
}

/// Whether the refused getelementptr counts bytes.
fn counts_bytes(scene: &Scene) -> bool {
    match element_of(scene) {
        Some(element) => matches!(
            scene.context.module().types.get(element.source),
            Some(IrType::Integer(_))
        ),
        None => false,
    }
}

/// The base of the refused getelementptr.
pub(crate) fn element_base(scene: &Scene) -> Option<Operand> {
    match element_of(scene) {
        Some(element) => Some(element.base),
        None => None,
    }
}

/// The layout in whose cell an operand leads.
fn layout_of(scene: &Scene, operand: Option<Operand>) -> Option<LayoutId> {
    let reference = reference_of(scene.facts, value_in(operand)?);
    cell_layout(&scene.facts.known(reference))
}

/// The layout of the cell of a reference.
pub(crate) fn cell_layout(known: &Known) -> Option<LayoutId> {
    match known {
        Known::Cell { layout, .. } => Some(*layout),
        _ => None,
    }
}

/// The words of the layout are shown in whose cell an operand leads.
fn show_words(found: &mut Draft, scene: &Scene, operand: Option<Operand>) {
    if let Some(layout) = layout_of(scene, operand) {
        found.words(layout);
    }
}

/// How the certificate may say of an index that it is small enough.
fn bound_listed(scene: &Scene, index: ValueId) -> Option<Mending> {
    if is_made_here(scene, index) {
        return None;
    }
    if scene.refusal.block.number() != 0 {
        return Some(Mending::ListBelow);
    }
    match definition_of(scene.context.function, index) {
        Definition::Parameter(_) => Some(Mending::PromiseBelow),
        _ => None,
    }
}

/// Below which number an index is known to be.
fn known_below(scene: &Scene, index: Option<Operand>) -> Option<u64> {
    match scene.facts.known(value_in(index)?) {
        Known::Number { below, .. } => below,
        _ => None,
    }
}

/// How an index leads outside that is known to be below this number, if its array has elements of that number.
fn beyond_of(below: u64, bits: u32, length: u64) -> Option<Beyond> {
    let mut half: u64 = 1;
    for _bit in 1..bits {
        half = half.saturating_mul(2);
    }
    if below > length {
        None
    } else if below > half {
        Some(Beyond::Signed)
    } else {
        Some(Beyond::Words)
    }
}

/// K5: an index that is not known to be small enough. The base is that of the getelementptr.
fn find_loose(found: &mut Draft, told: &Told, bits: u32) {
    found.case(told, Case::Loose);
    found.mend(told, Mending::CompareIndex(bits));
    if let Some(index) = value_in(told.holes.it) {
        if let Some(mending) = bound_listed(told.scene, index) {
            found.mend(told, mending);
        }
    }
}

/// K5: an index that is no constant. The base is that of the getelementptr.
fn find_index(found: &mut Draft, told: &Told, bits: u32) {
    let beyond = match known_below(told.scene, told.holes.it) {
        Some(below) => beyond_of(below, bits, told.holes.number),
        None => None,
    };
    match beyond {
        Some(beyond) => {
            found.case(told, Case::Beyond(beyond));
            found.mend(told, Mending::OfCase)
        }
        None => find_loose(found, told, bits),
    }
}

/// K5: a constant index, or an offset in bytes.
fn find_fixed(found: &mut Draft, told: &Told) {
    let case = if counts_bytes(told.scene) {
        Case::Bytes
    } else {
        Case::OutsideCell
    };
    let caret = outside_index(told.scene).or(told.holes.it);
    found.case_under(told, case, caret);
    found.mend(told, Mending::OfCase)
}

/// K5, by the base of the getelementptr.
pub(crate) fn find_outside(found: &mut Draft, told: &Told, operands: &[Operand]) {
    found.know(told.scene, operands);
    show_words(found, told.scene, told.holes.it);
    match loose_index(told.scene) {
        Some(loose) => {
            let holes = Holes {
                it: Some(loose.index),
                base: told.holes.it,
                number: loose.length,
                ..told.holes
            };
            find_index(found, &told.with(holes), loose.bits)
        }
        None => find_fixed(found, told),
    }
}

/// The value that the refused llvm.gcwrite stores.
fn stored_by_barrier(scene: &Scene) -> Option<Operand> {
    let call = call_of(scene)?;
    match (
        runtime_called(scene.context.module(), call.callee),
        call.arguments.as_slice(),
    ) {
        (Some(Runtime::GcWrite), [value, ..]) => Some(value.operand),
        _ => None,
    }
}

/// A slot that is used as a value, and is not the place.
fn slot_used(scene: &Scene, operands: &[Operand], place: &Option<Operand>) -> Option<Operand> {
    let slot = value_in(slot_among(scene, operands))?;
    if is_value(slot, *place) {
        None
    } else {
        Some(Operand::Local(slot))
    }
}

/// An address that is used as a value: of a global, or else of a word.
fn address_used(scene: &Scene, operands: &[Operand]) -> Option<Operand> {
    let mut globals = operands.iter().filter(|operand| is_global(**operand));
    let mut addresses = operands
        .iter()
        .filter(|operand| is_address(scene, **operand));
    globals.next().or(addresses.next()).copied()
}

/// What is wrong with the value that llvm.gcwrite stores.
fn wrong_stored(scene: &Scene, value: &Operand) -> Wrong {
    match address_used(scene, [*value].as_slice()) {
        Some(operand) => Wrong::of(Mistyped::Address, operand),
        None => Wrong::of(Mistyped::Stored, *value),
    }
}

/// What is wrong where an instruction has no place.
fn wrong_among(scene: &Scene, operands: &[Operand]) -> Wrong {
    match (address_used(scene, operands), operands) {
        (Some(operand), _) => Wrong::of(Mistyped::Address, operand),
        (None, [only]) if call_of(scene).is_some() => Wrong::of(Mistyped::Argument, *only),
        (None, [only]) => Wrong::of(Mistyped::Only, *only),
        _ => Wrong {
            mistyped: Mistyped::Other,
            operand: None,
        },
    }
}

fn number_of_layout(scene: &Scene) -> Option<Operand> {
    match arguments_of(scene) {
        [only] if is_runtime_call(scene) => Some(only.operand),
        _ => None,
    }
}

/// The operand that a refusal by K2 speaks of, and what is wrong with its type.
fn wrong_in(scene: &Scene, operands: &[Operand], place: Option<Operand>) -> Wrong {
    if let Some(handed) = handed_outside(scene, operands) {
        return Wrong::of(Mistyped::Handed, handed);
    }
    if let Some(number) = number_of_layout(scene) {
        return Wrong::of(Mistyped::Layout, number);
    }
    if let Some(outside) = misused_outside(scene, operands) {
        return Wrong::of(Mistyped::Outside, outside);
    }
    if let Some(found) = special_in(scene) {
        return found;
    }
    if let Some(slot) = slot_used(scene, operands, &place) {
        return Wrong::of(Mistyped::Slot, slot);
    }
    if let Some(value) = stored_by_barrier(scene) {
        return wrong_stored(scene, &value);
    }
    match place {
        Some(place) => Wrong::of(Mistyped::Place, place),
        None => wrong_among(scene, operands),
    }
}

/// What mends a type that is read or stored at a word of a cell.
fn mend_word_type(found: &mut Draft, told: &Told, cell: Option<Operand>) {
    show_words(found, told.scene, cell);
    found.mend(told, Mending::OfCase);
    found.mend(told, Mending::Numbers)
}

/// What mends K2.
fn mend_type(found: &mut Draft, told: &Told, wrong: Wrong) {
    match wrong.mistyped {
        Mistyped::Layout => found.mend(told, Mending::OtherNumber),
        Mistyped::Place => mend_word_type(found, told, told.holes.it),
        Mistyped::Stored => mend_word_type(found, told, told.holes.place),
        Mistyped::SlotType => mend_slot_type(found, told, wrong.operand),
        Mistyped::Rooted => mend_root(found, told, wrong.operand),
        Mistyped::Object => mend_object(found, told),
        _ => found.mend(told, Mending::OfCase),
    }
}

fn mend_slot_type(found: &mut Draft, told: &Told, slot: Option<Operand>) {
    match slot {
        Some(slot) => found.mend(told, Mending::SlotType(slot)),
        None => found.mend(told, Mending::OfCase),
    }
}

fn mend_root(found: &mut Draft, told: &Told, slot: Option<Operand>) {
    match value_in(slot) {
        Some(slot) => found.mend(told, Mending::Root(slot)),
        None => found.mend(told, Mending::OfCase),
    }
}

/// The types of the function of numbers that is called, as a further line of what mends.
fn mend_call(found: &mut Draft, told: &Told) {
    if let Some(runtime) = runtime_named(told.scene) {
        if matches!(runtime, Runtime::Integer { .. } | Runtime::Float { .. }) {
            found.mend(told, Mending::CallTypes(runtime))
        }
    }
}

/// K2.
pub(crate) fn find_mistyped(found: &mut Draft, told: &Told, operands: &[Operand]) {
    let wrong = wrong_in(told.scene, operands, told.holes.place);
    let told = told.with_it(wrong.operand);
    found.case(&told, Case::Mistyped(wrong.mistyped));
    found.know(told.scene, operands);
    mend_type(found, &told, wrong);
    if !matches!(wrong.mistyped, Mistyped::Handed) {
        mend_call(found, &told)
    }
}

/// The function of the runtime whose name is called.
pub(crate) fn runtime_named(scene: &Scene) -> Option<Runtime> {
    let call = call_of(scene)?;
    let symbols = &scene.context.module().symbols;
    Runtime::of(symbols.name_at(call.callee.number() as usize))
}
