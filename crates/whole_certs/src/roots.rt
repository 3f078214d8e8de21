//! Which root slots have a shape.
ghost use Rattle.std.specs.Prelude.{◌≡◌, ◌↔◌, IsTrue, IfOk};
ghost use Rattle.std.specs.List.{list_all};
ghost use Rattle.certs.specs.ShapesFit.{root_of};
ghost use Rattle.certificate.specs.Alike.{HasRootShapes};
ghost use Rattle.whole_certs.specs.Roots as spec;

use crate::words::is_marked;
use certificate::root_names;
use ir_ast::{Function, Module, Shapes, shape_at};
use pools::LayoutId;
use std::alloc::{AllocError, Global};

/// What a slot of a function refers to, by the name of its alloca.
fn root_of(shapes: &Shapes, function: &Function, slot: usize) -> Option<LayoutId>
    ensures { result ≡ root_of shapes.now function.now slot }
{
    let roots = shapes.roots.get(function.symbol.number() as usize)?;
    let place = roots.names.find(function.locals.name_at(slot))?;
    shape_at(roots.layouts.as_slice(), place)
}

/// Whether a local name has a shape where it is a root slot's.
fn is_slot_shaped(shapes: &Shapes, function: &Function, roots: &[bool], slot: usize) -> bool
    ensures { result ≡ spec.is_slot_shaped shapes.now function.now roots.now slot }
{
    !is_marked(roots, slot) || root_of(shapes, function, slot).is_some()
}

fn are_slots_shaped(shapes: &Shapes, function: &Function, roots: &[bool]) -> bool
    ensures { result ≡ spec.are_slots_shaped shapes.now function.now roots.now }
{
    (0..roots.len()).all(|slot| is_slot_shaped(shapes, function, roots, slot))
}

/// Whether each root slot of a function has a shape.
fn are_roots_shaped(
    alloc: Global,
    module: &Module,
    shapes: &Shapes,
    function: &Function,
) -> Result<bool, AllocError>
    ensures { IfOk result (λ shaped. shaped ≡ spec.are_roots_shaped «module».now shapes.now function.now) }
{
    let roots = root_names(alloc, module, function)?;
    let shaped = are_slots_shaped(shapes, function, roots.as_slice());
    drop(roots);
    Ok(shaped)
}

fn each_function_is_shaped(
    alloc: Global,
    module: &Module,
    shapes: &Shapes,
    functions: &[Function],
) -> Result<bool, AllocError>
    ensures { IfOk result (λ shaped. shaped ≡ list_all (spec.are_roots_shaped «module».now shapes.now) functions.now) }
{
    for function in functions {
        if !are_roots_shaped(alloc, module, shapes, function)? {
            return Ok(false);
        }
    }
    Ok(true)
}

/// Whether each root slot of a module has a shape.
pub(crate) fn has_root_shapes(
    alloc: Global,
    module: &Module,
    shapes: &Shapes,
) -> Result<bool, AllocError>
    ensures { IfOk result (λ has. IsTrue has ↔ HasRootShapes «module».now shapes.now) }
{
    each_function_is_shaped(alloc, module, shapes, module.functions.as_slice())
}
