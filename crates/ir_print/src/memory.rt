//! The text of operations on memory.
ghost use Rattle.std.specs.Prelude.{◌≡◌, ◌++◌, OnOk};
ghost use Rattle.ir_print.specs.Memory as spec;

use crate::operands::{put_argument, put_typed};
use crate::parts::{put_placed, typed};
use crate::types::put_type;
use ir_ast::{Argument, MemoryOp, Module, Names};
use std::alloc::{AllocError, Global};

/// How many elements are counted, if they are.
fn put_count(
    alloc: Global,
    out: &mut Vec<u8>,
    module: &Module,
    locals: &Names,
    count: &Option<Argument>,
) -> Result<(), AllocError>
    ensures { OnOk result (out.new.items ≡ out.old.items ++ spec.count_text «module».now locals.now count.now) }
{
    match count {
        Some(count) => {
            out.extend_from_slice(b", ")?;
            put_argument(alloc, out, module, locals, count)
        }
        None => Ok(()),
    }
}

/// An operation on memory.
pub fn put_memory(
    alloc: Global,
    out: &mut Vec<u8>,
    module: &Module,
    locals: &Names,
    op: &MemoryOp,
) -> Result<(), AllocError>
    ensures { OnOk result (out.new.items ≡ out.old.items ++ spec.memory_op_text «module».now locals.now op.now) }
{
    match *op {
        MemoryOp::Alloca(held) => {
            out.extend_from_slice(b"alloca ")?;
            put_type(alloc, out, module, held)
        }
        MemoryOp::Buffer { held, count } => {
            out.extend_from_slice(b"alloca ")?;
            put_type(alloc, out, module, held)?;
            put_count(alloc, out, module, locals, &count)
        }
        MemoryOp::Load {
            loaded,
            place_type,
            place,
        } => {
            let place = typed(place_type, place);
            out.extend_from_slice(b"load ")?;
            put_placed(alloc, out, module, locals, loaded, &place)
        }
        MemoryOp::Store {
            stored,
            value,
            place_type,
            place,
        } => {
            out.extend_from_slice(b"store ")?;
            put_typed(alloc, out, module, locals, stored, value)?;
            out.extend_from_slice(b", ")?;
            put_typed(alloc, out, module, locals, place_type, place)
        }
    }
}
