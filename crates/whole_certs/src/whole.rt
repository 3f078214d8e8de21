//! Certificates with all their shapes.
ghost use Rattle.std.specs.Prelude.{◌↔◌, IsTrue, IfOk};
ghost use Rattle.certificate.specs.Alike.{HasWordShapes, HasRootShapes};
ghost use Rattle.whole_certs.specs.Whole.{AreWhole};

use crate::roots::has_root_shapes;
use crate::words::has_word_shapes;
use certs::Certs;
use ir_ast::{Module, Shapes};
use layout::pointer_rows;
use std::alloc::{AllocError, Global};

/// Whether no shape is missing, and no word has one that is not of type `ptr`.
fn has_all_shapes(alloc: Global, module: &Module, shapes: &Shapes) -> Result<bool, AllocError>
    ensures { IfOk result (λ has. IsTrue has ↔ (HasWordShapes «module».now shapes.now × HasRootShapes «module».now shapes.now)) }
{
    let pointers = pointer_rows(alloc, module)?;
    let has_words = has_word_shapes(module, shapes, pointers.as_slice());
    drop(pointers);
    if !has_words {
        return Ok(false);
    }
    has_root_shapes(alloc, module, shapes)
}

/// Whether these are certificates of this module, with all their shapes: they fit it, and where its text writes `ptr`, exactly the words of
/// that type have a shape, and each root slot has one.
pub fn are_whole(alloc: Global, module: &Module, certs: &Certs) -> Result<bool, AllocError>
    ensures { IfOk result (λ whole. IsTrue whole ↔ AreWhole «module».now certs.now) }
{
    if !certs.fits(module) {
        return Ok(false);
    }
    match certs.shapes() {
        None => Ok(true),
        Some(shapes) => has_all_shapes(alloc, module, shapes),
    }
}
