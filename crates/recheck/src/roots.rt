//! Root slots without a shape.
ghost use Rattle.std.specs.Prelude.{◌≡◌, IfOk};
ghost use Rattle.std.specs.Option.{option_copied};
ghost use Rattle.recheck.specs.RootShapes as spec;

use certificate::root_names;
use ir_ast::{FuncId, Function, Module};
use std::alloc::{AllocError, Global};

/// Whether the module says what a slot of a function refers to, by the local name of its alloca.
fn is_shaped(of_module: &Module, function: &Function, slot: usize) -> bool
    ensures { result ≡ spec.is_shaped of_module.now function.now slot }
{
    of_module
        .root_shape(function.symbol, function.locals.name_at(slot))
        .is_some()
}

/// The first of the root slots among the local names of a function of which it does not say so.
fn missing_among(of_module: &Module, function: &Function, roots: &[bool]) -> Option<usize>
    ensures { result ≡ spec.missing_from of_module.now function.now 0 roots.now }
{
    for (slot, root) in roots.iter().enumerate() {
        if *root && !is_shaped(of_module, function, slot) {
            return Some(slot);
        }
    }
    None
}

fn missing_of(
    alloc: Global,
    of_module: &Module,
    function: Option<&Function>,
) -> Result<Option<usize>, AllocError>
    ensures { IfOk result (λ slot. slot ≡ spec.missing_of of_module.now (option_copied function.entry)) }
{
    let Some(function) = function else {
        return Ok(None);
    };
    if of_module.shapes.is_none() {
        return Ok(None);
    }
    let roots = root_names(alloc, of_module, function)?;
    Ok(missing_among(of_module, function, roots.as_slice()))
}

/// The first root slot of a function without a shape, by its local name, where the module has shapes.
pub fn missing_root(
    alloc: Global,
    of_module: &Module,
    func: FuncId,
) -> Result<Option<usize>, AllocError>
    ensures { IfOk result (λ slot. slot ≡ spec.missing_root of_module.now func) }
{
    missing_of(
        alloc,
        of_module,
        of_module.functions.get(func.number() as usize),
    )
}
