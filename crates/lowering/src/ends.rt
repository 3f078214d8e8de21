//! How the ends of blocks are lowered.
ghost use Rattle.std.specs.Prelude.{◌≡◌, ◌++◌, OnOk};
ghost use Rattle.lowering.specs.Ends as spec;

use crate::scope::Scope;
use crate::words::put_local_step;
use ir_ast::End;
use ir_print::put_end_line;
use std::alloc::{AllocError, Global};

/// The line that ends the thread where its block has no other end.
fn put_thread_end(out: &mut Vec<u8>, end: &End) -> Result<(), AllocError>
    ensures { OnOk result (out.new.items ≡ out.old.items ++ spec.thread_line end.now) }
{
    match end {
        End::Unreachable => out.extend_from_slice(b"  call void @dg_end()\n"),
        _ => Ok(()),
    }
}

/// The end of a block.
pub(crate) fn put_end(
    alloc: Global,
    out: &mut Vec<u8>,
    scope: &Scope,
    end: &End,
) -> Result<(), AllocError>
    ensures { OnOk result (out.new.items ≡ out.old.items ++ spec.end_text scope.now.recorded scope.now.of_module.now scope.now.locals.now end.now) }
{
    put_local_step(out, scope.recorded)?;
    put_thread_end(out, end)?;
    put_end_line(alloc, out, scope.of_module, scope.locals, end)
}
