//! How operations on memory are lowered.
ghost use Rattle.std.specs.Prelude.{◌≡◌, ◌++◌, ◌∷◌, [], OnOk, slice_get};
ghost use Rattle.lowering.specs.Memory as spec;

use crate::scope::Scope;
use crate::words::{Loading, Seat, Storing, put_load, put_local_step, put_store};
use ir_ast::{Argument, Instr, IrType, MemoryOp, Operand, TypeId, ValueId};
use ir_print::{put_instruction, put_type, typed};
use name_text::{Blank, put_local};
use shadow_stack::Slots;
use std::alloc::{AllocError, Global};

/// Whether a place is that of a slot.
fn names_slot(slots: &Slots, place: &Argument) -> bool
    ensures { result ≡ spec.names_slot slots.now place.now.operand }
{
    match place.operand {
        Operand::Local(value) => slots.slot_of(value).is_some(),
        _ => false,
    }
}

/// An instruction as it stands, which makes no step on shared words.
pub(crate) fn put_plain(
    alloc: Global,
    out: &mut Vec<u8>,
    scope: &Scope,
    instr: &Instr,
) -> Result<(), AllocError>
    ensures { OnOk result (out.new.items ≡ out.old.items ++ spec.plain_line scope.now.recorded scope.now.of_module.now scope.now.locals.now instr.now) }
{
    put_local_step(out, scope.recorded)?;
    put_instruction(alloc, out, scope.of_module, scope.locals, instr)
}

/// The value that a slot of this type begins with, and what is before the slot's name.
fn first_value(shown: Option<IrType>) -> &'static [u8]
    ensures { result.now ≡ spec.first_value shown }
{
    match shown {
        Some(IrType::Integer(_)) => b" 0, ptr ",
        Some(IrType::Float | IrType::Double) => b" 0.0, ptr ",
        _ => b" null, ptr ",
    }
}

/// The line that stores what a slot begins with.
fn put_first(
    alloc: Global,
    out: &mut Vec<u8>,
    scope: &Scope,
    held: TypeId,
    slot: Option<ValueId>,
) -> Result<(), AllocError>
    ensures { OnOk result (out.new.items ≡ out.old.items ++ spec.first_line scope.now.of_module.now scope.now.locals.now held slot) }
{
    match slot {
        None => Ok(()),
        Some(slot) => {
            out.extend_from_slice(b"  store ")?;
            put_type(alloc, out, scope.of_module, held)?;
            out.extend_from_slice(first_value(scope.of_module.types.get(held)))?;
            put_local(out, scope.locals, slot, Blank::Kept)?;
            out.push(b'\n')?;
            Ok(())
        }
    }
}

/// A load, as it stands where its place is a slot.
fn put_load_from(
    alloc: Global,
    out: &mut Vec<u8>,
    scope: &Scope,
    seat: &Seat,
    instr: &Instr,
    loading: &Loading,
) -> Result<(), AllocError>
    ensures { OnOk result (out.new.items ≡ out.old.items ++ spec.load_from scope.now.recorded scope.now.of_module.now scope.now.locals.now scope.now.slots.now seat.now instr.now loading.now) }
{
    if names_slot(scope.slots, &loading.place) {
        put_plain(alloc, out, scope, instr)
    } else {
        put_load(alloc, out, scope, seat, loading)
    }
}

/// A store, as it stands where its place is a slot.
fn put_store_into(
    alloc: Global,
    out: &mut Vec<u8>,
    scope: &Scope,
    seat: &Seat,
    instr: &Instr,
    storing: &Storing,
) -> Result<(), AllocError>
    ensures { OnOk result (out.new.items ≡ out.old.items ++ spec.store_into scope.now.recorded scope.now.of_module.now scope.now.locals.now scope.now.slots.now seat.now instr.now storing.now) }
{
    if names_slot(scope.slots, &storing.place) {
        put_plain(alloc, out, scope, instr)
    } else {
        put_store(alloc, out, scope, seat, storing)
    }
}

/// An operation on memory.
pub(crate) fn put_memory(
    alloc: Global,
    out: &mut Vec<u8>,
    scope: &Scope,
    seat: &Seat,
    instr: &Instr,
    op: &MemoryOp,
) -> Result<(), AllocError>
    ensures { OnOk result (out.new.items ≡ out.old.items ++ spec.memory_text scope.now.recorded scope.now.of_module.now scope.now.locals.now scope.now.slots.now seat.now instr.now op.now) }
{
    match *op {
        MemoryOp::Alloca(held) => {
            put_plain(alloc, out, scope, instr)?;
            put_first(alloc, out, scope, held, instr.result)
        }
        MemoryOp::Buffer { .. } => put_plain(alloc, out, scope, instr),
        MemoryOp::Load {
            loaded,
            place_type,
            place,
        } => {
            let loading = Loading {
                result: instr.result,
                loaded,
                place: typed(place_type, place),
            };
            put_load_from(alloc, out, scope, seat, instr, &loading)
        }
        MemoryOp::Store {
            stored,
            value,
            place_type,
            place,
        } => {
            let storing = Storing {
                value: typed(stored, value),
                place: typed(place_type, place),
            };
            put_store_into(alloc, out, scope, seat, instr, &storing)
        }
    }
}
