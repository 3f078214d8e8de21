//! The text of bitcasts.
ghost use Rattle.std.specs.Prelude.{◌≡◌, ◌++◌, OnOk};
ghost use Rattle.ir_print.specs.Casts as spec;

use crate::parts::{put_converted, typed};
use ir_ast::{Cast, Module, Names};
use std::alloc::{AllocError, Global};

/// A bitcast.
pub fn put_cast(
    alloc: Global,
    out: &mut Vec<u8>,
    module: &Module,
    locals: &Names,
    cast: &Cast,
) -> Result<(), AllocError>
    ensures { OnOk result (out.new.items ≡ out.old.items ++ spec.cast_text «module».now locals.now cast.now) }
{
    let operand = typed(cast.from, cast.operand);
    out.extend_from_slice(b"bitcast ")?;
    put_converted(alloc, out, module, locals, &operand, cast.to)
}
