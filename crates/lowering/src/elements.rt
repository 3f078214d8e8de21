//! How getelementptr is lowered.
ghost use Rattle.std.specs.Prelude.{◌≡◌, ◌++◌, ◌∷◌, [], OnOk};
ghost use Rattle.lowering.specs.Elements as spec;

use crate::scope::Scope;
use crate::word_types::put_words;
use crate::words::put_local_step;
use ir_ast::{Argument, Element, TypeId, ValueId};
use ir_print::{element_word, put_argument, put_indices, put_result, typed};
use std::alloc::{AllocError, Global};

/// `T, ptr V`, with T in words.
fn put_based(
    alloc: Global,
    out: &mut Vec<u8>,
    scope: &Scope,
    source: TypeId,
    base: &Argument,
) -> Result<(), AllocError>
    ensures { OnOk result (out.new.items ≡ out.old.items ++ spec.based_text scope.now.of_module.now scope.now.locals.now source base.now) }
{
    put_words(alloc, out, scope.of_module, source)?;
    out.extend_from_slice(b", ")?;
    put_argument(alloc, out, scope.of_module, scope.locals, base)
}

/// A getelementptr in words.
fn put_element(
    alloc: Global,
    out: &mut Vec<u8>,
    scope: &Scope,
    element: &Element,
) -> Result<(), AllocError>
    ensures { OnOk result (out.new.items ≡ out.old.items ++ spec.element_text scope.now.of_module.now scope.now.locals.now element.now) }
{
    let base = typed(element.base_type, element.base);
    out.extend_from_slice(element_word())?;
    put_based(alloc, out, scope, element.source, &base)?;
    put_indices(
        alloc,
        out,
        scope.of_module,
        scope.locals,
        element.indices.as_slice(),
    )
}

/// The line of a getelementptr.
pub(crate) fn put_element_line(
    alloc: Global,
    out: &mut Vec<u8>,
    scope: &Scope,
    value: Option<ValueId>,
    element: &Element,
) -> Result<(), AllocError>
    ensures { OnOk result (out.new.items ≡ out.old.items ++ spec.element_line scope.now.recorded scope.now.of_module.now scope.now.locals.now value element.now) }
{
    put_local_step(out, scope.recorded)?;
    out.extend_from_slice(b"  ")?;
    put_result(out, scope.locals, value)?;
    put_element(alloc, out, scope, element)?;
    out.push(b'\n')?;
    Ok(())
}
