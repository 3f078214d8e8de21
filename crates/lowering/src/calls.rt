//! How calls are lowered.
ghost use Rattle.std.specs.Prelude.{◌≡◌, ◌++◌, ◌∷◌, [], OnOk};
ghost use Rattle.std.specs.Fmt.{decimal};
ghost use Rattle.lowering.specs.Calls as spec;
ghost use Rattle.types.specs.LayoutNumbers.{layout_meant};

use crate::memory::put_plain;
use crate::scope::Scope;
use crate::words::{Loading, Seat, put_load, put_local_step};
use ir_ast::{Argument, Call, Instr, IntegersTaken, Runtime, integers_taken};
use ir_print::{put_argument, put_instruction, put_result, put_type};
use name_text::{Blank, put_global, put_number};
use pools::LayoutId;
use std::alloc::{AllocError, Global};
use types::{layout_meant, runtime_called};

/// The argument of a call of dg_alloc, and the layout that it means.
#[derive(Clone, Copy)]
struct Placed {
    number: Argument,
    layout: LayoutId,
}

/// The line that stores null into the slot that is made a root.
fn put_null(
    alloc: Global,
    out: &mut Vec<u8>,
    scope: &Scope,
    arguments: &[Argument],
) -> Result<(), AllocError>
    ensures { OnOk result (out.new.items ≡ out.old.items ++ spec.null_line scope.now.of_module.now scope.now.locals.now arguments.now) }
{
    match arguments {
        [] => Ok(()),
        [slot, ..] => {
            out.extend_from_slice(b"  store ptr null, ")?;
            put_argument(alloc, out, scope.of_module, scope.locals, slot)?;
            out.push(b'\n')?;
            Ok(())
        }
    }
}

/// A read of a reference.
fn put_gcread(
    alloc: Global,
    out: &mut Vec<u8>,
    scope: &Scope,
    seat: &Seat,
    instr: &Instr,
    call: &Call,
) -> Result<(), AllocError>
    ensures { OnOk result (out.new.items ≡ out.old.items ++ spec.gcread_text scope.now.recorded scope.now.of_module.now scope.now.locals.now seat.now instr.now call.now call.now.arguments) }
{
    match call.arguments.as_slice() {
        [_, place] => {
            let loading = Loading {
                result: instr.result,
                loaded: call.returned,
                place: *place,
            };
            put_load(alloc, out, scope, seat, &loading)
        }
        _ => put_instruction(alloc, out, scope.of_module, scope.locals, instr),
    }
}

/// How the call of the barrier begins.
#[tactic(auto, unfolding(crate::specs::Calls::barrier_word))]
fn barrier_word() -> &'static [u8]
    ensures { result.now ≡ spec.barrier_word }
{
    b"  call void @dg_write("
}

/// The call of the barrier, with a value and its place.
fn put_barrier(
    alloc: Global,
    out: &mut Vec<u8>,
    scope: &Scope,
    value: &Argument,
    place: &Argument,
) -> Result<(), AllocError>
    ensures { OnOk result (out.new.items ≡ out.old.items ++ spec.barrier_line scope.now.of_module.now scope.now.locals.now value.now place.now) }
{
    out.extend_from_slice(barrier_word())?;
    put_argument(alloc, out, scope.of_module, scope.locals, value)?;
    out.extend_from_slice(b", ")?;
    put_argument(alloc, out, scope.of_module, scope.locals, place)?;
    out.extend_from_slice(b")\n")
}

/// A store of a reference after the barrier.
fn put_gcwrite(
    alloc: Global,
    out: &mut Vec<u8>,
    scope: &Scope,
    instr: &Instr,
    arguments: &[Argument],
) -> Result<(), AllocError>
    ensures { OnOk result (out.new.items ≡ out.old.items ++ spec.gcwrite_text scope.now.of_module.now scope.now.locals.now instr.now arguments.now) }
{
    match arguments {
        [value, _, place] => put_barrier(alloc, out, scope, value, place),
        _ => put_instruction(alloc, out, scope.of_module, scope.locals, instr),
    }
}

/// A call up to its first argument.
fn put_call_head(
    alloc: Global,
    out: &mut Vec<u8>,
    scope: &Scope,
    instr: &Instr,
    call: &Call,
) -> Result<(), AllocError>
    ensures { OnOk result (out.new.items ≡ out.old.items ++ spec.call_head scope.now.of_module.now scope.now.locals.now instr.now call.now) }
{
    out.extend_from_slice(b"  ")?;
    put_result(out, scope.locals, instr.result)?;
    out.extend_from_slice(b"call ")?;
    put_type(alloc, out, scope.of_module, call.returned)?;
    out.push(b' ')?;
    put_global(out, scope.of_module, call.callee, Blank::Kept)?;
    out.extend_from_slice(b"(")
}

/// A call of a function of an integer and a flag, which for LLVM would leave a result open.
fn put_flagged(
    alloc: Global,
    out: &mut Vec<u8>,
    scope: &Scope,
    instr: &Instr,
    call: &Call,
    taken: &Argument,
) -> Result<(), AllocError>
    ensures { OnOk result (out.new.items ≡ out.old.items ++ spec.flagged_line scope.now.recorded scope.now.of_module.now scope.now.locals.now instr.now call.now taken.now) }
{
    put_local_step(out, scope.recorded)?;
    put_call_head(alloc, out, scope, instr, call)?;
    put_argument(alloc, out, scope.of_module, scope.locals, taken)?;
    out.extend_from_slice(b", i1 false)\n")
}

/// A call of a function of integers.
fn put_integers(
    alloc: Global,
    out: &mut Vec<u8>,
    scope: &Scope,
    instr: &Instr,
    call: &Call,
    takes: IntegersTaken,
) -> Result<(), AllocError>
    ensures { OnOk result (out.new.items ≡ out.old.items ++ spec.integers_text scope.now.recorded scope.now.of_module.now scope.now.locals.now instr.now call.now takes call.now.arguments) }
{
    match (takes, call.arguments.as_slice()) {
        (IntegersTaken::Flagged, [taken, _]) => {
            put_flagged(alloc, out, scope, instr, call, taken)
        }
        _ => put_plain(alloc, out, scope, instr),
    }
}

/// The place of a layout in the table of layouts.
fn put_layout(alloc: Global, out: &mut Vec<u8>, layout: LayoutId) -> Result<(), AllocError>
    ensures { OnOk result (out.new.items ≡ out.old.items ++ decimal layout) }
{
    put_number(alloc, out, layout.number() as u64)
}

/// The end of a call of dg_alloc: the place of a layout in the table of layouts.
fn put_layout_end(alloc: Global, out: &mut Vec<u8>, layout: LayoutId) -> Result<(), AllocError>
    ensures { OnOk result (out.new.items ≡ out.old.items ++ spec.layout_end layout) }
{
    out.extend_from_slice(b" ")?;
    put_layout(alloc, out, layout)?;
    out.extend_from_slice(b")\n")
}

/// A call of dg_alloc for this layout, by its place in the table of layouts.
fn put_placed(
    alloc: Global,
    out: &mut Vec<u8>,
    scope: &Scope,
    instr: &Instr,
    call: &Call,
    placed: Placed,
) -> Result<(), AllocError>
    ensures { OnOk result (out.new.items ≡ out.old.items ++ spec.placed_line scope.now.of_module.now scope.now.locals.now instr.now call.now placed.number placed.layout) }
{
    put_call_head(alloc, out, scope, instr, call)?;
    put_type(alloc, out, scope.of_module, placed.number.written)?;
    put_layout_end(alloc, out, placed.layout)
}

/// The same where a layout is meant.
fn put_placed_if(
    alloc: Global,
    out: &mut Vec<u8>,
    scope: &Scope,
    instr: &Instr,
    call: &Call,
    number: Argument,
) -> Result<(), AllocError>
    ensures { OnOk result (out.new.items ≡ out.old.items ++ spec.placed_by scope.now.of_module.now scope.now.locals.now instr.now call.now number (layout_meant scope.now.of_module.now number.operand)) }
{
    match layout_meant(scope.of_module, &number.operand) {
        None => put_instruction(alloc, out, scope.of_module, scope.locals, instr),
        Some(layout) => put_placed(alloc, out, scope, instr, call, Placed { number, layout }),
    }
}

/// A call of dg_alloc, which stands as it is where no numbers of layouts are listed.
fn put_alloc(
    alloc: Global,
    out: &mut Vec<u8>,
    scope: &Scope,
    instr: &Instr,
    call: &Call,
) -> Result<(), AllocError>
    ensures { OnOk result (out.new.items ≡ out.old.items ++ spec.alloc_text scope.now.of_module.now scope.now.locals.now instr.now call.now scope.now.of_module.now.trusted.numbers) }
{
    match (
        scope.of_module.trusted.numbers.as_slice(),
        call.arguments.as_slice(),
    ) {
        ([_, ..], [number]) => put_placed_if(alloc, out, scope, instr, call, *number),
        _ => put_instruction(alloc, out, scope.of_module, scope.locals, instr),
    }
}

/// A call.
pub(crate) fn put_call(
    alloc: Global,
    out: &mut Vec<u8>,
    scope: &Scope,
    seat: &Seat,
    instr: &Instr,
    call: &Call,
) -> Result<(), AllocError>
    ensures { OnOk result (out.new.items ≡ out.old.items ++ spec.call_text scope.now.recorded scope.now.of_module.now scope.now.locals.now seat.now instr.now call.now) }
{
    match runtime_called(scope.of_module, call.callee) {
        None | Some(Runtime::Float { .. }) => put_plain(alloc, out, scope, instr),
        Some(Runtime::Alloc) => put_alloc(alloc, out, scope, instr, call),
        Some(Runtime::Safepoint) => {
            put_instruction(alloc, out, scope.of_module, scope.locals, instr)
        }
        Some(Runtime::GcRoot) => {
            put_plain(alloc, out, scope, instr)?;
            put_null(alloc, out, scope, call.arguments.as_slice())
        }
        Some(Runtime::GcRead) => put_gcread(alloc, out, scope, seat, instr, call),
        Some(Runtime::GcWrite) => put_gcwrite(alloc, out, scope, instr, call.arguments.as_slice()),
        Some(Runtime::Integer { function, .. }) => {
            put_integers(alloc, out, scope, instr, call, integers_taken(function))
        }
    }
}
