//! With which version of the format a module's text goes, and the shapes before a text.
ghost use Rattle.std.specs.Prelude.{◌≡◌, IfOk};
ghost use Rattle.certificate.specs.Starts as spec;
ghost use Rattle.certificate.specs.Starts.{AreBegun, AreStart};

use crate::shape_draft::ShapeDraft;
use certs::is_opaque_text;
use ir_ast::{Module, has_typed_pointer};
use layout::pointer_rows;
use std::alloc::{AllocError, Global};

fn may_be_shaped(module: &Module) -> bool
    ensures { result ≡ spec.may_be_shaped «module».now }
{
    is_opaque_text(module) || !has_typed_pointer(&module.types)
}

/// Whether this is the version with which the module's text goes.
pub fn goes_with(module: &Module, version: &[u8]) -> bool
    ensures { result ≡ spec.goes_with «module».now version.now }
{
    if version == b"1".as_slice() && !is_opaque_text(module) {
        return true;
    }
    version == b"2".as_slice() && may_be_shaped(module)
}

/// No shape is given so far.
pub fn shapes_begun(alloc: Global, module: &Module) -> Result<ShapeDraft, AllocError>
    ensures { IfOk result (AreBegun «module».now) }
{
    let pointers = pointer_rows(alloc, module)?;
    ShapeDraft::of(alloc, module, pointers)
}

/// The shapes before a text of certificates: where it may have none, nothing is kept for them.
pub fn shapes_at_start(alloc: Global, module: &Module) -> Result<ShapeDraft, AllocError>
    ensures { IfOk result (AreStart «module».now) }
{
    if may_be_shaped(module) {
        shapes_begun(alloc, module)
    } else {
        Ok(ShapeDraft::none(alloc))
    }
}
