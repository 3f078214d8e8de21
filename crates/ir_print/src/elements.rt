//! The text of getelementptr.
ghost use Rattle.std.specs.Prelude.{◌≡◌, ◌++◌, OnOk};
ghost use Rattle.std.specs.List.{flat_map};
ghost use Rattle.ir_print.specs.Elements as spec;

use crate::operands::put_argument;
use crate::parts::{put_placed, typed};
use ir_ast::{Argument, Element, Module, Names};
use std::alloc::{AllocError, Global};

/// `, T V`.
fn put_index(
    alloc: Global,
    out: &mut Vec<u8>,
    module: &Module,
    locals: &Names,
    index: &Argument,
) -> Result<(), AllocError>
    ensures { OnOk result (out.new.items ≡ out.old.items ++ spec.index_text «module».now locals.now index.now) }
{
    out.extend_from_slice(b", ")?;
    put_argument(alloc, out, module, locals, index)
}

/// The indices of a getelementptr.
pub fn put_indices(
    alloc: Global,
    out: &mut Vec<u8>,
    module: &Module,
    locals: &Names,
    indices: &[Argument],
) -> Result<(), AllocError>
    ensures { OnOk result (out.new.items ≡ out.old.items ++ flat_map (spec.index_text «module».now locals.now) indices.now) }
{
    for index in indices {
        put_index(alloc, out, module, locals, index)?;
    }
    Ok(())
}

/// The word of a getelementptr.
#[tactic(auto, unfolding(crate::specs::Elements::element_word))]
pub fn element_word() -> &'static [u8]
    ensures { result.now ≡ spec.element_word }
{
    b"getelementptr "
}

/// A getelementptr.
pub fn put_element(
    alloc: Global,
    out: &mut Vec<u8>,
    module: &Module,
    locals: &Names,
    element: &Element,
) -> Result<(), AllocError>
    ensures { OnOk result (out.new.items ≡ out.old.items ++ spec.element_text «module».now locals.now element.now) }
{
    let base = typed(element.base_type, element.base);
    out.extend_from_slice(element_word())?;
    put_placed(alloc, out, module, locals, element.source, &base)?;
    put_indices(alloc, out, module, locals, element.indices.as_slice())
}
