//! How a word of a cell or a global is read and stored.
ghost use Rattle.std.specs.Prelude.{◌≡◌, ◌++◌, ◌∷◌, [], OnOk, slice_get};
ghost use Rattle.ir_print.specs.Parts.{placed_text};
ghost use Rattle.lowering.specs.Words as spec;

use crate::scope::Scope;
use ir_ast::{Argument, IrType, Module, TypeId, ValueId};
use ir_print::{put_argument, put_result, put_type};
use name_text::put_number;
use std::alloc::{AllocError, Global};

/// The place of an instruction in the block with this label, by which its new name is made.
#[derive(Clone, Copy)]
pub(crate) struct Seat {
    pub label: ValueId,
    pub place: usize,
}

/// A value of this type that is read from a place.
#[derive(Clone, Copy)]
pub(crate) struct Loading {
    pub result: Option<ValueId>,
    pub loaded: TypeId,
    pub place: Argument,
}

/// A value that is stored at a place.
#[derive(Clone, Copy)]
pub(crate) struct Storing {
    pub value: Argument,
    pub place: Argument,
}

/// The new name of an instruction.
#[tactic(auto, unfolding(crate::specs::Words::seat_text))]
fn put_seat(alloc: Global, out: &mut Vec<u8>, seat: &Seat) -> Result<(), AllocError>
    ensures { OnOk result (out.new.items ≡ out.old.items ++ spec.seat_text seat.now) }
{
    out.extend_from_slice(b"%dg.")?;
    put_number(alloc, out, seat.label.number() as u64)?;
    out.push(b'.')?;
    put_number(alloc, out, seat.place as u64)
}

/// Whether a type is that of a number of fewer bits than a word.
fn is_narrow(shown: Option<IrType>) -> bool
    ensures { result ≡ spec.is_narrow shown }
{
    match &shown {
        Some(IrType::Integer(bits)) => *bits < 64,
        Some(IrType::Float) => true,
        _ => false,
    }
}

/// Whether a value of a type is made of a word through its lower half.
pub(crate) fn is_halved(shown: Option<IrType>) -> bool
    ensures { result ≡ spec.is_halved shown }
{
    matches!(shown, Some(IrType::Float))
}

/// What makes a value of a type of a word, or of its lower half.
pub(crate) fn from_word(shown: Option<IrType>) -> &'static [u8]
    ensures { result.now ≡ spec.from_word shown }
{
    match &shown {
        Some(IrType::Integer(bits)) => {
            if *bits < 64 {
                b"trunc i64 "
            } else {
                b"bitcast i64 "
            }
        }
        Some(IrType::Float) => b"bitcast i32 ",
        Some(IrType::Double) => b"bitcast i64 ",
        _ => b"inttoptr i64 ",
    }
}

/// What makes a word of a value of a type, or its lower half.
pub(crate) fn to_word(shown: Option<IrType>) -> &'static [u8]
    ensures { result.now ≡ spec.to_word shown }
{
    match &shown {
        Some(IrType::Integer(bits)) => { if *bits < 64 { b"zext " } else { b"bitcast " } }
        Some(IrType::Float | IrType::Double) => b"bitcast ",
        _ => b"ptrtoint ",
    }
}

/// What stands after the place of an atomic step.
#[tactic(auto, unfolding(crate::specs::Words::order_text))]
fn order() -> &'static [u8]
    ensures { result.now ≡ spec.order_text }
{
    b" seq_cst, align 8\n"
}

/// How the line of a whole load goes on after its result.
#[tactic(auto, unfolding(crate::specs::Words::load_word))]
fn load_word() -> &'static [u8]
    ensures { result.now ≡ spec.load_word }
{
    b"load atomic "
}

/// How the line of a store of a word begins.
#[tactic(auto, unfolding(crate::specs::Words::store_word))]
fn store_word() -> &'static [u8]
    ensures { result.now ≡ spec.store_word }
{
    b"  store atomic i64 "
}

/// How the line of a whole store begins.
#[tactic(auto, unfolding(crate::specs::Words::whole_store_word))]
fn whole_store_word() -> &'static [u8]
    ensures { result.now ≡ spec.whole_store_word }
{
    b"  store atomic "
}

/// How the line begins that has the recorder store a word.
#[tactic(auto, unfolding(crate::specs::Words::recorded_store_word))]
fn recorded_store_word() -> &'static [u8]
    ensures { result.now ≡ spec.recorded_store_word }
{
    b"  call void @dg_store("
}

/// What stands before the place of a read.
fn before_read(recorded: bool) -> &'static [u8]
    ensures { result.now ≡ spec.before_read recorded }
{
    if recorded {
        b" = call i64 @dg_read("
    } else {
        b" = load atomic i64, "
    }
}

/// What stands after the place of a read.
fn after_read(recorded: bool) -> &'static [u8]
    ensures { result.now ≡ spec.after_read recorded }
{
    if recorded { b")\n" } else { order() }
}

/// The line that reads a word under the new name.
fn put_read(
    alloc: Global,
    out: &mut Vec<u8>,
    scope: &Scope,
    seat: &Seat,
    place: &Argument,
) -> Result<(), AllocError>
    ensures { OnOk result (out.new.items ≡ out.old.items ++ spec.read_line scope.now.recorded scope.now.of_module.now scope.now.locals.now seat.now place.now) }
{
    out.extend_from_slice(b"  ")?;
    put_seat(alloc, out, seat)?;
    out.extend_from_slice(before_read(scope.recorded))?;
    put_argument(alloc, out, scope.of_module, scope.locals, place)?;
    out.extend_from_slice(after_read(scope.recorded))
}

/// What comes after the new name of a word, where its lower half is named.
fn half_mark(halved: bool) -> &'static [u8]
    ensures { result.now ≡ spec.half_mark halved }
{
    if halved { b".h" } else { b"" }
}

/// The new name of the word, or of its lower half.
#[tactic(auto, unfolding(crate::specs::Words::part_text))]
fn put_part(alloc: Global, out: &mut Vec<u8>, halved: bool, seat: &Seat) -> Result<(), AllocError>
    ensures { OnOk result (out.new.items ≡ out.old.items ++ spec.part_text halved seat.now) }
{
    put_seat(alloc, out, seat)?;
    out.extend_from_slice(half_mark(halved))
}

/// The line that makes the lower half of the word.
fn put_half_text(alloc: Global, out: &mut Vec<u8>, seat: &Seat) -> Result<(), AllocError>
    ensures { OnOk result (out.new.items ≡ out.old.items ++ spec.half_text seat.now) }
{
    out.extend_from_slice(b"  ")?;
    put_part(alloc, out, true, seat)?;
    out.extend_from_slice(b" = trunc i64 ")?;
    put_seat(alloc, out, seat)?;
    out.extend_from_slice(b" to i32\n")
}

/// The same, where there is need of it.
fn put_half(alloc: Global, out: &mut Vec<u8>, halved: bool, seat: &Seat) -> Result<(), AllocError>
    ensures { OnOk result (out.new.items ≡ out.old.items ++ spec.half_line halved seat.now) }
{
    if halved {
        put_half_text(alloc, out, seat)
    } else {
        Ok(())
    }
}

/// The new name, and the type of the value that is made of it.
#[tactic(auto, unfolding(crate::specs::Words::made_text))]
fn put_made(
    alloc: Global,
    out: &mut Vec<u8>,
    module: &Module,
    seat: &Seat,
    loaded: TypeId,
) -> Result<(), AllocError>
    ensures { OnOk result (out.new.items ≡ out.old.items ++ spec.made_text «module».now seat.now loaded) }
{
    put_part(alloc, out, is_halved(module.types.get(loaded)), seat)?;
    out.extend_from_slice(b" to ")?;
    put_type(alloc, out, module, loaded)?;
    out.push(b'\n')?;
    Ok(())
}

/// The line that makes the value of the word, or of its lower half.
fn put_value(
    alloc: Global,
    out: &mut Vec<u8>,
    scope: &Scope,
    seat: &Seat,
    loading: &Loading,
) -> Result<(), AllocError>
    ensures { OnOk result (out.new.items ≡ out.old.items ++ spec.value_line scope.now.of_module.now scope.now.locals.now seat.now loading.now) }
{
    out.extend_from_slice(b"  ")?;
    put_result(out, scope.locals, loading.result)?;
    out.extend_from_slice(from_word(scope.of_module.types.get(loading.loaded)))?;
    put_made(alloc, out, scope.of_module, seat, loading.loaded)
}

/// The lines that make the value of the word.
fn put_values(
    alloc: Global,
    out: &mut Vec<u8>,
    scope: &Scope,
    seat: &Seat,
    loading: &Loading,
) -> Result<(), AllocError>
    ensures { OnOk result (out.new.items ≡ out.old.items ++ spec.value_lines scope.now.of_module.now scope.now.locals.now seat.now loading.now) }
{
    let halved = is_halved(scope.of_module.types.get(loading.loaded));
    put_half(alloc, out, halved, seat)?;
    put_value(alloc, out, scope, seat, loading)
}

/// `T, ptr V`.
fn put_placed(
    alloc: Global,
    out: &mut Vec<u8>,
    scope: &Scope,
    written: TypeId,
    place: &Argument,
) -> Result<(), AllocError>
    ensures { OnOk result (out.new.items ≡ out.old.items ++ placed_text scope.now.of_module.now scope.now.locals.now written place.now) }
{
    put_type(alloc, out, scope.of_module, written)?;
    out.extend_from_slice(b", ")?;
    put_argument(alloc, out, scope.of_module, scope.locals, place)
}

/// The line that loads a whole word.
fn put_whole_load(
    alloc: Global,
    out: &mut Vec<u8>,
    scope: &Scope,
    loading: &Loading,
) -> Result<(), AllocError>
    ensures { OnOk result (out.new.items ≡ out.old.items ++ spec.whole_load_line scope.now.of_module.now scope.now.locals.now loading.now) }
{
    out.extend_from_slice(b"  ")?;
    put_result(out, scope.locals, loading.result)?;
    out.extend_from_slice(load_word())?;
    put_placed(alloc, out, scope, loading.loaded, &loading.place)?;
    out.extend_from_slice(order())
}

/// The value of a word.
pub(crate) fn put_load(
    alloc: Global,
    out: &mut Vec<u8>,
    scope: &Scope,
    seat: &Seat,
    loading: &Loading,
) -> Result<(), AllocError>
    ensures { OnOk result (out.new.items ≡ out.old.items ++ spec.load_text scope.now.recorded scope.now.of_module.now scope.now.locals.now seat.now loading.now) }
{
    if scope.recorded || is_narrow(scope.of_module.types.get(loading.loaded)) {
        put_read(alloc, out, scope, seat, &loading.place)?;
        put_values(alloc, out, scope, seat, loading)
    } else {
        put_whole_load(alloc, out, scope, loading)
    }
}

/// How the line ends that makes a word of a value; where it makes its lower half, the line that makes the word comes after it.
fn put_word_end(
    alloc: Global,
    out: &mut Vec<u8>,
    halved: bool,
    seat: &Seat,
) -> Result<(), AllocError>
    ensures { OnOk result (out.new.items ≡ out.old.items ++ spec.word_end halved seat.now) }
{
    if !halved {
        return out.extend_from_slice(b" to i64\n");
    }
    out.extend_from_slice(b" to i32\n  ")?;
    put_seat(alloc, out, seat)?;
    out.extend_from_slice(b" = zext i32 ")?;
    put_part(alloc, out, true, seat)?;
    out.extend_from_slice(b" to i64\n")
}

/// What makes a word of a value of this type, or its lower half, under the new name.
#[tactic(auto, unfolding(crate::specs::Words::word_begin))]
fn put_word_begin(
    alloc: Global,
    out: &mut Vec<u8>,
    module: &Module,
    written: TypeId,
    seat: &Seat,
) -> Result<(), AllocError>
    ensures { OnOk result (out.new.items ≡ out.old.items ++ spec.word_begin (slice_get «module».now.types written) seat.now) }
{
    out.extend_from_slice(b"  ")?;
    put_part(alloc, out, is_halved(module.types.get(written)), seat)?;
    out.extend_from_slice(b" = ")?;
    out.extend_from_slice(to_word(module.types.get(written)))
}

/// The lines that make a word of a value, under the new name.
fn put_word(
    alloc: Global,
    out: &mut Vec<u8>,
    scope: &Scope,
    seat: &Seat,
    value: &Argument,
) -> Result<(), AllocError>
    ensures { OnOk result (out.new.items ≡ out.old.items ++ spec.word_lines scope.now.of_module.now scope.now.locals.now seat.now value.now) }
{
    put_word_begin(alloc, out, scope.of_module, value.written, seat)?;
    put_argument(alloc, out, scope.of_module, scope.locals, value)?;
    let halved = is_halved(scope.of_module.types.get(value.written));
    put_word_end(alloc, out, halved, seat)
}

/// The line that stores this word.
fn put_write(
    alloc: Global,
    out: &mut Vec<u8>,
    scope: &Scope,
    seat: &Seat,
    place: &Argument,
) -> Result<(), AllocError>
    ensures { OnOk result (out.new.items ≡ out.old.items ++ spec.write_line scope.now.recorded scope.now.of_module.now scope.now.locals.now seat.now place.now) }
{
    if scope.recorded {
        out.extend_from_slice(recorded_store_word())?;
        put_argument(alloc, out, scope.of_module, scope.locals, place)?;
        out.extend_from_slice(b", i64 ")?;
        put_seat(alloc, out, seat)?;
        out.extend_from_slice(b")\n")
    } else {
        out.extend_from_slice(store_word())?;
        put_seat(alloc, out, seat)?;
        out.extend_from_slice(b", ")?;
        put_argument(alloc, out, scope.of_module, scope.locals, place)?;
        out.extend_from_slice(order())
    }
}

/// The line that stores a whole word.
fn put_whole_store(
    alloc: Global,
    out: &mut Vec<u8>,
    scope: &Scope,
    storing: &Storing,
) -> Result<(), AllocError>
    ensures { OnOk result (out.new.items ≡ out.old.items ++ spec.whole_store_line scope.now.of_module.now scope.now.locals.now storing.now) }
{
    out.extend_from_slice(whole_store_word())?;
    put_argument(alloc, out, scope.of_module, scope.locals, &storing.value)?;
    out.extend_from_slice(b", ")?;
    put_argument(alloc, out, scope.of_module, scope.locals, &storing.place)?;
    out.extend_from_slice(order())
}

/// A value is stored as a word.
pub(crate) fn put_store(
    alloc: Global,
    out: &mut Vec<u8>,
    scope: &Scope,
    seat: &Seat,
    storing: &Storing,
) -> Result<(), AllocError>
    ensures { OnOk result (out.new.items ≡ out.old.items ++ spec.store_text scope.now.recorded scope.now.of_module.now scope.now.locals.now seat.now storing.now) }
{
    if scope.recorded || is_narrow(scope.of_module.types.get(storing.value.written)) {
        put_word(alloc, out, scope, seat, &storing.value)?;
        put_write(alloc, out, scope, seat, &storing.place)
    } else {
        put_whole_store(alloc, out, scope, storing)
    }
}

/// Tells the recorder of an instruction that makes no step on shared words.
pub(crate) fn put_local_step(out: &mut Vec<u8>, recorded: bool) -> Result<(), AllocError>
    ensures { OnOk result (out.new.items ≡ out.old.items ++ spec.local_line recorded) }
{
    if recorded {
        out.extend_from_slice(b"  call void @dg_local(i32 1)\n")
    } else {
        Ok(())
    }
}
