//! The shapes that the types of a text say, whose pointers are typed.
ghost use Rattle.std.specs.Prelude.{◌≡◌, [], map, slice_get, unwrap_or, OnOk, IfOk};
ghost use Rattle.shadow_stack.specs.Slots.{slot_of};
ghost use Rattle.types.specs.References.{referenced_layout};
ghost use Rattle.certificate.specs.ShapeDrafts.{no_roots};
ghost use Rattle.certificate.specs.TypedShapes as spec;

use crate::shape_draft::ShapeDraft;
use ir_ast::{Function, HashKey, Module, Names, RootShapes, Shapes, SymbolSort, TypeId, ValueId};
use items::Items;
use pools::LayoutId;
use shadow_stack::{Slots, slots_of};
use std::alloc::{AllocError, Global};
use types::{is_reference, pointee};

/// Which of these fields are pointers.
fn pointers_among(
    alloc: Global,
    module: &Module,
    fields: &[TypeId],
) -> Result<Items<bool>, AllocError>
    ensures { IfOk result (λ row. row ≡ spec.pointers_among «module».now fields.now) }
{
    let mut row = Items::new(alloc);
    for field in fields {
        row.push(pointee(module, *field).is_some())?;
    }
    Ok(row)
}

fn pointers_of(
    alloc: Global,
    module: &Module,
    rows: &[Items<TypeId>],
) -> Result<Items<Items<bool>>, AllocError>
    ensures { IfOk result (λ pointers. pointers ≡ map (spec.pointers_among «module».now) rows.now) }
{
    let mut pointers = Items::new(alloc);
    for fields in rows {
        pointers.push(pointers_among(alloc, module, fields.as_slice())?)?;
    }
    Ok(pointers)
}

/// What each of these fields refers to.
fn layouts_of(
    alloc: Global,
    module: &Module,
    fields: &[TypeId],
) -> Result<Items<Option<LayoutId>>, AllocError>
    ensures { IfOk result (λ row. row ≡ map (referenced_layout «module».now) fields.now) }
{
    let mut row = Items::new(alloc);
    for field in fields {
        row.push(is_reference(module, *field))?;
    }
    Ok(row)
}

/// The scalar fields of a struct.
fn fields_at(rows: &[Items<TypeId>], layout: LayoutId) -> &[TypeId]
    ensures { result.now ≡ unwrap_or (slice_get rows.now layout) [] }
{
    match rows.get(layout.number() as usize) {
        Some(fields) => fields.as_slice(),
        None => &[],
    }
}

fn word_row(
    alloc: Global,
    module: &Module,
    rows: &[Items<TypeId>],
    layout: &Option<LayoutId>,
) -> Result<Items<Option<LayoutId>>, AllocError>
    ensures { IfOk result (λ row. row ≡ spec.typed_row «module».now rows.now layout.now) }
{
    match layout {
        None => Ok(Items::new(alloc)),
        Some(layout) => layouts_of(alloc, module, fields_at(rows, *layout)),
    }
}

fn word_rows(
    alloc: Global,
    module: &Module,
    rows: &[Items<TypeId>],
    struct_of: &[Option<LayoutId>],
) -> Result<Items<Items<Option<LayoutId>>>, AllocError>
    ensures { IfOk result (λ words. words ≡ map (spec.typed_row «module».now rows.now) struct_of.now) }
{
    let mut words = Items::new(alloc);
    for layout in struct_of {
        words.push(word_row(alloc, module, rows, layout)?)?;
    }
    Ok(words)
}

/// What a global refers to, if a global name is one's.
fn global_shape(module: &Module, sort: SymbolSort) -> Option<LayoutId>
    ensures { result ≡ spec.typed_global «module».now sort }
{
    match sort {
        SymbolSort::Global(number) => match module.globals.get(number.number() as usize) {
            Some(global) => is_reference(module, global.held),
            None => None,
        },
        _ => None,
    }
}

fn global_shapes(
    alloc: Global,
    module: &Module,
    sorts: &[SymbolSort],
) -> Result<Items<Option<LayoutId>>, AllocError>
    ensures { IfOk result (λ globals. globals ≡ map (spec.typed_global «module».now) sorts.now) }
{
    let mut globals = Items::new(alloc);
    for sort in sorts {
        globals.push(global_shape(module, *sort))?;
    }
    Ok(globals)
}

/// What the slot of a local name refers to.
fn slot_shape(slots: &Slots, name: ValueId) -> Option<LayoutId>
    ensures { result ≡ spec.typed_slot slots.now (slot_of slots.now name) }
{
    match slots.slot_of(name) {
        Some(slot) => slots.layout(slot),
        None => None,
    }
}

/// Nothing is given for the slots of a function.
fn no_roots(alloc: Global, key: HashKey) -> RootShapes
    ensures { result ≡ no_roots }
{
    RootShapes {
        names: Names::new(alloc, key),
        layouts: Items::new(alloc),
    }
}

/// Gives what a slot of this name refers to, if it does.
fn put_slot(
    alloc: Global,
    roots: &mut RootShapes,
    name: &[u8],
    target: Option<LayoutId>,
) -> Result<(), AllocError>
    ensures { OnOk result (roots.new ≡ spec.with_typed_slot name.now target roots.old) }
{
    if let Some(target) = target {
        roots.names.number(alloc, name)?;
        roots.layouts.push(Some(target))?;
    }
    Ok(())
}

/// Gives what the slot of a local name refers to, if it is a root slot.
fn put_root(
    alloc: Global,
    roots: &mut RootShapes,
    slots: &Slots,
    function: &Function,
    name: usize,
    root: bool,
) -> Result<(), AllocError>
    ensures { OnOk result (roots.new ≡ spec.with_root_named slots.now function.now name root roots.old) }
{
    if !root || name >= function.locals.count() {
        return Ok(());
    }
    let target = slot_shape(slots, ValueId::new(name as u32));
    put_slot(alloc, roots, function.locals.name_at(name), target)
}

/// What the root slots of a function refer to, of which each local name is one or not.
fn root_row(
    alloc: Global,
    slots: &Slots,
    function: &Function,
    is_root: &[bool],
) -> Result<RootShapes, AllocError>
    ensures { IfOk result (λ roots. roots ≡ spec.typed_slots slots.now function.now 0 is_root.now no_roots) }
{
    let mut roots = no_roots(alloc, function.locals.key());
    for (name, root) in is_root.iter().enumerate() {
        put_root(alloc, &mut roots, slots, function, name, *root)?;
    }
    Ok(roots)
}

/// The root slots of a function, by its number.
fn function_roots(
    alloc: Global,
    module: &Module,
    roots: &[Items<bool>],
    number: usize,
) -> Result<RootShapes, AllocError>
    ensures { IfOk result (λ row. row ≡ spec.typed_roots_in «module».now (slice_get «module».now.functions number) (slice_get roots.now number)) }
{
    let Some(function) = module.functions.get(number) else {
        return Ok(no_roots(alloc, module.symbols.key()));
    };
    let Some(is_root) = roots.get(number) else {
        return Ok(no_roots(alloc, module.symbols.key()));
    };
    let slots = slots_of(alloc, module, function)?;
    let row = root_row(alloc, &slots, function, is_root.as_slice());
    drop(slots);
    row
}

fn symbol_roots(
    alloc: Global,
    module: &Module,
    roots: &[Items<bool>],
    sort: SymbolSort,
) -> Result<RootShapes, AllocError>
    ensures { IfOk result (λ row. row ≡ spec.typed_roots «module».now roots.now sort) }
{
    match sort {
        SymbolSort::Defined(function) => {
            function_roots(alloc, module, roots, function.number() as usize)
        }
        _ => Ok(no_roots(alloc, module.symbols.key())),
    }
}

fn root_rows(
    alloc: Global,
    module: &Module,
    roots: &[Items<bool>],
    sorts: &[SymbolSort],
) -> Result<Items<RootShapes>, AllocError>
    ensures { IfOk result (λ rows. rows ≡ map (spec.typed_roots «module».now roots.now) sorts.now) }
{
    let mut rows = Items::new(alloc);
    for sort in sorts {
        rows.push(symbol_roots(alloc, module, roots, *sort)?)?;
    }
    Ok(rows)
}

fn typed_shapes(
    alloc: Global,
    module: &Module,
    rows: &[Items<TypeId>],
    roots: &[Items<bool>],
) -> Result<Shapes, AllocError>
    ensures { IfOk result (λ shapes. shapes ≡ spec.typed_shapes «module».now rows.now roots.now) }
{
    let words = word_rows(alloc, module, rows, module.struct_of.as_slice())?;
    let globals = global_shapes(alloc, module, module.sorts.as_slice())?;
    let roots = root_rows(alloc, module, roots, module.sorts.as_slice())?;
    Ok(Shapes {
        words,
        globals,
        roots,
    })
}

/// The shapes that the types of a module say, and what is asked of them: one for each pointer and for each root slot of its opaque
/// text. The scalar fields of each struct are given.
pub fn typed_draft(
    alloc: Global,
    module: &Module,
    opaque: &Module,
    rows: &[Items<TypeId>],
) -> Result<ShapeDraft, AllocError>
    ensures { IfOk result (λ draft. draft ≡ spec.typed_draft «module».now opaque.now rows.now) }
{
    let pointers = pointers_of(alloc, module, rows)?;
    let begun = ShapeDraft::of(alloc, opaque, pointers)?;
    match typed_shapes(alloc, module, rows, begun.slots.as_slice()) {
        Ok(shapes) => Ok(begun.with_shapes(shapes)),
        Err(refused) => {
            drop(begun);
            Err(refused)
        }
    }
}
