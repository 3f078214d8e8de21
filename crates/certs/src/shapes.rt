//! Which shapes are shapes of a module.
ghost use Rattle.std.specs.Prelude.{◌≡◌};
ghost use Rattle.std.specs.List.{list_all};
ghost use Rattle.certs.specs.ShapesFit as spec;

use crate::family::is_opaque_text;
use crate::fits::{is_layout, is_root_name};
use ir_ast::{
    Block, Function, Global, Instr, MemoryOp, Module, Op, RootShapes, Shapes, TypeId, ValueId,
    shape_at,
};
use items::Items;
use pools::LayoutId;
use types::is_opaque;

fn shape_fits(module: &Module, shape: &Option<LayoutId>) -> bool
    ensures { result ≡ spec.shape_fits «module».now shape.now }
{
    match shape {
        None => true,
        Some(layout) => is_layout(module, *layout),
    }
}

fn row_fits(module: &Module, row: &[Option<LayoutId>]) -> bool
    ensures { result ≡ spec.row_fits «module».now row.now }
{
    row.iter().all(|shape| shape_fits(module, shape))
}

fn each_row_fits(module: &Module, rows: &[Items<Option<LayoutId>>]) -> bool
    ensures { result ≡ list_all (spec.row_fits «module».now) rows.now }
{
    rows.iter().all(|row| row_fits(module, row.as_slice()))
}

fn each_root_row_fits(module: &Module, roots: &[RootShapes]) -> bool
    ensures { result ≡ list_all (spec.root_row_fits «module».now) roots.now }
{
    roots
        .iter()
        .all(|roots| row_fits(module, roots.layouts.as_slice()))
}

fn global_fits(module: &Module, shapes: &Shapes, global: &Global) -> bool
    ensures { result ≡ spec.global_fits «module».now shapes.now global.now }
{
    let shape = shape_at(shapes.globals.as_slice(), global.symbol.number() as usize);
    if is_opaque(module, global.held) {
        shape.is_some()
    } else {
        shape.is_none()
    }
}

fn each_global_fits(module: &Module, shapes: &Shapes) -> bool
    ensures { result ≡ list_all (spec.global_fits «module».now shapes.now) «module».now.globals }
{
    module
        .globals
        .as_slice()
        .iter()
        .all(|global| global_fits(module, shapes, global))
}

/// What a slot of this function refers to, by the name of its alloca.
fn root_shape(shapes: &Shapes, function: &Function, name: ValueId) -> Option<LayoutId>
    ensures { result ≡ spec.root_of shapes.now function.now name }
{
    let roots = shapes.roots.get(function.symbol.number() as usize)?;
    let place = roots
        .names
        .find(function.locals.name_at(name.number() as usize))?;
    shape_at(roots.layouts.as_slice(), place)
}

/// Whether a slot of this name has a shape where it is a root slot of type `ptr`.
fn slot_fits(
    module: &Module,
    shapes: &Shapes,
    function: &Function,
    name: ValueId,
    held: TypeId,
) -> bool
    ensures { result ≡ spec.slot_fits «module».now shapes.now function.now name held }
{
    !is_opaque(module, held)
        || !is_root_name(module, function, name)
        || root_shape(shapes, function, name).is_some()
}

fn op_fits(module: &Module, shapes: &Shapes, function: &Function, instr: &Instr) -> bool
    ensures { result ≡ spec.op_fits «module».now shapes.now function.now instr.now.result instr.now.op }
{
    match (instr.result, &instr.op) {
        (Some(name), Op::Memory(MemoryOp::Alloca(held))) => {
            slot_fits(module, shapes, function, name, *held)
        }
        _ => true,
    }
}

fn body_fits(module: &Module, shapes: &Shapes, function: &Function, block: &Block) -> bool
    ensures { result ≡ spec.body_fits «module».now shapes.now function.now block.now.body }
{
    block
        .body
        .as_slice()
        .iter()
        .all(|instr| op_fits(module, shapes, function, instr))
}

fn roots_fit(module: &Module, shapes: &Shapes, function: &Function) -> bool
    ensures { result ≡ spec.roots_fit «module».now shapes.now function.now }
{
    function
        .blocks
        .as_slice()
        .iter()
        .all(|block| body_fits(module, shapes, function, block))
}

fn each_function_fits(module: &Module, shapes: &Shapes) -> bool
    ensures { result ≡ list_all (spec.roots_fit «module».now shapes.now) «module».now.functions }
{
    module
        .functions
        .as_slice()
        .iter()
        .all(|function| roots_fit(module, shapes, function))
}

fn all_shapes_fit(module: &Module, shapes: &Shapes) -> bool
    ensures { result ≡ spec.all_shapes_fit «module».now shapes.now }
{
    each_row_fits(module, shapes.words.as_slice())
        && row_fits(module, shapes.globals.as_slice())
        && each_root_row_fits(module, shapes.roots.as_slice())
        && each_global_fits(module, shapes)
        && each_function_fits(module, shapes)
}

/// Whether these shapes, or none, go with this module.
pub fn shapes_fit(module: &Module, shapes: &Option<Shapes>) -> bool
    ensures { result ≡ spec.shapes_fit «module».now shapes.now }
{
    match shapes {
        None => !is_opaque_text(module),
        Some(shapes) => is_opaque_text(module) && all_shapes_fit(module, shapes),
    }
}
