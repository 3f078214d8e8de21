//! The text of shapes.
ghost use Rattle.std.specs.Prelude.{◌≡◌, ◌++◌, OnOk};
ghost use Rattle.std.specs.List.{flat_map};
ghost use Rattle.certificate.specs.ShapesPrint as spec;
ghost use Rattle.ir_ast.specs.Shapes.{row_at};

use crate::draft::root_names;
use crate::shape_draft::root_of;
use ir_ast::{
    Function, Global as GlobalItem, Module, Shapes, StructNameId, StructType, SymbolId, shape_at,
};
use name_text::{Blank, put_global, put_key, put_layout, put_name, put_number};
use pools::LayoutId;
use std::alloc::{AllocError, Global};
use types::is_opaque;

/// What something refers to, and the line's end.
fn put_target(out: &mut Vec<u8>, module: &Module, target: LayoutId) -> Result<(), AllocError>
    ensures { OnOk result (out.new.items ≡ out.old.items ++ spec.target_text «module».now target) }
{
    out.extend_from_slice(b" ref ")?;
    put_layout(out, module, target, Blank::Kept)?;
    out.push(b'\n')?;
    Ok(())
}

fn put_word(
    alloc: Global,
    out: &mut Vec<u8>,
    module: &Module,
    name: StructNameId,
    word: usize,
    shape: &Option<LayoutId>,
) -> Result<(), AllocError>
    ensures { OnOk result (out.new.items ≡ out.old.items ++ spec.word_text «module».now name word shape.now) }
{
    match shape {
        None => Ok(()),
        Some(target) => {
            out.extend_from_slice(b"layout ")?;
            let text = module.struct_names.name_at(name.number() as usize);
            put_name(out, text, Blank::Kept)?;
            out.push(b' ')?;
            put_number(alloc, out, word as u64)?;
            put_target(out, module, *target)
        }
    }
}

fn put_row(
    alloc: Global,
    out: &mut Vec<u8>,
    module: &Module,
    name: StructNameId,
    row: &[Option<LayoutId>],
) -> Result<(), AllocError>
    ensures { OnOk result (out.new.items ≡ out.old.items ++ spec.row_text «module».now name 0 row.now) }
{
    for (word, shape) in row.iter().enumerate() {
        put_word(alloc, out, module, name, word, shape)?;
    }
    Ok(())
}

/// The shapes of the words of the struct of this name.
fn row_of_name(shapes: &Shapes, name: StructNameId) -> &[Option<LayoutId>]
    ensures { result.now ≡ row_at shapes.now.words name }
{
    match shapes.words.get(name.number() as usize) {
        Some(row) => row.as_slice(),
        None => &[],
    }
}

fn put_words_of(
    alloc: Global,
    out: &mut Vec<u8>,
    module: &Module,
    shapes: &Shapes,
    named: &StructType,
) -> Result<(), AllocError>
    ensures { OnOk result (out.new.items ≡ out.old.items ++ spec.words_text «module».now shapes.now named.now) }
{
    let row = row_of_name(shapes, named.name);
    put_row(alloc, out, module, named.name, row)
}

fn put_words(
    alloc: Global,
    out: &mut Vec<u8>,
    module: &Module,
    shapes: &Shapes,
    structs: &[StructType],
) -> Result<(), AllocError>
    ensures { OnOk result (out.new.items ≡ out.old.items ++ flat_map (spec.words_text «module».now shapes.now) structs.now) }
{
    for named in structs {
        put_words_of(alloc, out, module, shapes, named)?;
    }
    Ok(())
}

/// The line of a global, where it has a shape.
fn put_global_line(
    out: &mut Vec<u8>,
    module: &Module,
    symbol: SymbolId,
    shape: Option<LayoutId>,
) -> Result<(), AllocError>
    ensures { OnOk result (out.new.items ≡ out.old.items ++ spec.global_line «module».now symbol shape) }
{
    match shape {
        None => Ok(()),
        Some(target) => {
            out.extend_from_slice(b"global ")?;
            put_global(out, module, symbol, Blank::Kept)?;
            put_target(out, module, target)
        }
    }
}

fn put_global_if(
    out: &mut Vec<u8>,
    module: &Module,
    shapes: &Shapes,
    global: &GlobalItem,
) -> Result<(), AllocError>
    ensures { OnOk result (out.new.items ≡ out.old.items ++ spec.global_text_if «module».now shapes.now global.now) }
{
    if !is_opaque(module, global.held) {
        return Ok(());
    }
    let shape = shape_at(shapes.globals.as_slice(), global.symbol.number() as usize);
    put_global_line(out, module, global.symbol, shape)
}

fn put_globals(
    out: &mut Vec<u8>,
    module: &Module,
    shapes: &Shapes,
    globals: &[GlobalItem],
) -> Result<(), AllocError>
    ensures { OnOk result (out.new.items ≡ out.old.items ++ flat_map (spec.global_text_if «module».now shapes.now) globals.now) }
{
    for global in globals {
        put_global_if(out, module, shapes, global)?;
    }
    Ok(())
}

/// The line of a slot, where it has a shape.
fn put_slot(
    out: &mut Vec<u8>,
    module: &Module,
    function: &Function,
    slot: usize,
    shape: Option<LayoutId>,
) -> Result<(), AllocError>
    ensures { OnOk result (out.new.items ≡ out.old.items ++ spec.slot_text «module».now function.now slot shape) }
{
    match shape {
        None => Ok(()),
        Some(target) => {
            out.extend_from_slice(b"root ")?;
            put_global(out, module, function.symbol, Blank::Kept)?;
            out.extend_from_slice(b" %")?;
            put_key(out, function.locals.name_at(slot), Blank::Kept)?;
            put_target(out, module, target)
        }
    }
}

fn put_slots(
    out: &mut Vec<u8>,
    module: &Module,
    shapes: &Shapes,
    function: &Function,
    roots: &[bool],
) -> Result<(), AllocError>
    ensures { OnOk result (out.new.items ≡ out.old.items ++ spec.slots_text «module».now shapes.now function.now 0 roots.now) }
{
    for (slot, root) in roots.iter().enumerate() {
        if *root {
            let shape = root_of(shapes, function, slot);
            put_slot(out, module, function, slot, shape)?;
        }
    }
    Ok(())
}

/// The root slots of a function.
fn put_roots_of(
    alloc: Global,
    out: &mut Vec<u8>,
    module: &Module,
    shapes: &Shapes,
    function: &Function,
) -> Result<(), AllocError>
    ensures { OnOk result (out.new.items ≡ out.old.items ++ spec.roots_text «module».now shapes.now function.now) }
{
    let roots = root_names(alloc, module, function)?;
    put_slots(out, module, shapes, function, roots.as_slice())
}

fn put_roots(
    alloc: Global,
    out: &mut Vec<u8>,
    module: &Module,
    shapes: &Shapes,
    functions: &[Function],
) -> Result<(), AllocError>
    ensures { OnOk result (out.new.items ≡ out.old.items ++ flat_map (spec.roots_text «module».now shapes.now) functions.now) }
{
    for function in functions {
        put_roots_of(alloc, out, module, shapes, function)?;
    }
    Ok(())
}

/// The lines of shapes: of the words, the globals and the root slots of the module.
pub fn put_shapes(
    alloc: Global,
    out: &mut Vec<u8>,
    module: &Module,
    shapes: &Shapes,
) -> Result<(), AllocError>
    ensures { OnOk result (out.new.items ≡ out.old.items ++ spec.shapes_text «module».now shapes.now) }
{
    put_words(alloc, out, module, shapes, module.structs.as_slice())?;
    put_globals(out, module, shapes, module.globals.as_slice())?;
    put_roots(alloc, out, module, shapes, module.functions.as_slice())
}
