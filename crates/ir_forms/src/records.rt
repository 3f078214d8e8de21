//! What stands between the instructions of a body and has no effect: debug records, and calls of intrinsics that are dropped.
ghost use Rattle.std.specs.Prelude.{◌≡◌};
ghost use Rattle.ir_forms.specs.Input.{Reads};
ghost use Rattle.ir_forms.specs.Records as form;

use crate::cursor::{Cursor, same_kind};
use crate::decorating::{Spot, Trail, decorations, past_brackets, trailing};
use crate::fault::Fault;
use crate::input::Input;
use crate::intrinsics::is_dropped;
use crate::listed::{Listed, many};
use crate::lists::separator;
use ir_ast::{MemoryOp, Op};
use ir_tokens::Kind;
use std::alloc::Global;

// ---- debug records

/// `#dbg_value(..)`
#[tactic(auto, unfolding(crate::specs::Records::debug_record))]
fn debug_record(alloc: Global, input: &mut Input<'_>) -> Result<(), Fault>
    ensures { Reads (form.debug_record.read input.old) result input.new }
{
    input.expect(Kind::DebugRecord)?;
    input.expect(Kind::OpenRound)?;
    past_brackets(alloc, input)
}

// ---- calls that are dropped

/// Whether this word may stand before a call.
fn is_tail(kind: Kind) -> bool
    ensures { result ≡ form.is_tail kind }
{
    matches!(kind, Kind::Tail | Kind::Notail)
}

/// Whether `call void @f` comes next, of an intrinsic that has no effect.
fn calls_dropped(cursor: &Cursor<'_>) -> bool
    ensures { result ≡ form.calls_dropped cursor.now }
{
    same_kind(cursor.kind(), Kind::Call)
        && same_kind(cursor.kind_after(), Kind::Void)
        && same_kind(cursor.kind_third(), Kind::GlobalName)
        && is_dropped(cursor.name_third())
}

/// The same, with a word before it or without.
fn drops_at(cursor: &Cursor<'_>) -> bool
    ensures { result ≡ form.drops_at cursor.now }
{
    if !is_tail(cursor.kind()) {
        return calls_dropped(cursor);
    }
    let after = cursor.after();
    let dropped = calls_dropped(&after);
    drop(after);
    dropped
}

/// Whether a call that is dropped comes next, where the wide forms may stand.
fn drops(input: &Input<'_>) -> bool
    ensures { result ≡ form.drops input.now }
{
    input.wide && drops_at(&input.cursor)
}

/// A bundle of operands.
#[tactic(auto, unfolding(crate::specs::Records::bundle))]
fn bundle(alloc: Global, input: &mut Input<'_>) -> Result<(), Fault>
    ensures { Reads (form.bundle.read input.old) result input.new }
{
    input.expect(Kind::Quoted)?;
    input.expect(Kind::OpenRound)?;
    past_brackets(alloc, input)?;
    separator(input, Kind::CloseSquare)
}

/// Bundles, up to the bracket after them.
struct BundleList;

impl Listed for BundleList {
    ghost use Rattle.ir_forms.specs.Records.{bundle, at_square};

    type Item = ();

    ghost form = { bundle.read };

    ghost ends = { at_square };

    fn ends(input: &Input<'_>) -> bool {
        input.sees(Kind::CloseSquare)
    }

    fn read(alloc: Global, input: &mut Input<'_>) -> Result<(), Fault> {
        bundle(alloc, input)
    }
}

/// The bundles of a call, if there are any.
#[tactic(auto, unfolding(crate::specs::Records::bundles))]
fn bundles(alloc: Global, input: &mut Input<'_>) -> Result<(), Fault>
    ensures { Reads (form.bundles.read input.old) result input.new }
{
    if !input.sees(Kind::OpenSquare) {
        return Ok(());
    }
    input.skip();
    many::<BundleList>(alloc, input)?;
    input.expect(Kind::CloseSquare)
}

/// `call void @f(..)`
#[tactic(auto, unfolding(crate::specs::Records::dropped_call))]
fn dropped_call(alloc: Global, input: &mut Input<'_>) -> Result<(), Fault>
    ensures { Reads (form.dropped_call.read input.old) result input.new }
{
    input.expect(Kind::Call)?;
    input.expect(Kind::Void)?;
    input.expect(Kind::GlobalName)?;
    input.expect(Kind::OpenRound)?;
    past_brackets(alloc, input)?;
    decorations(alloc, input, Spot::Call)?;
    bundles(alloc, input)?;
    trailing(alloc, input, Trail::Other)
}

/// A call that is dropped.
#[tactic(auto, unfolding(crate::specs::Records::dropped))]
fn dropped(alloc: Global, input: &mut Input<'_>) -> Result<(), Fault>
    ensures { Reads (form.dropped.read input.old) result input.new }
{
    if is_tail(input.kind()) {
        input.skip();
        dropped_call(alloc, input)
    } else {
        dropped_call(alloc, input)
    }
}

// ---- before an instruction

/// Something that has no effect.
#[tactic(auto, unfolding(crate::specs::Records::effectless))]
fn effectless(alloc: Global, input: &mut Input<'_>) -> Result<(), Fault>
    ensures { Reads (form.effectless.read input.old) result input.new }
{
    if drops(input) {
        dropped(alloc, input)
    } else {
        debug_record(alloc, input)
    }
}

/// Whether something begins here that has no effect.
fn begins_record(input: &Input<'_>) -> bool
    ensures { result ≡ form.begins_record input.now }
{
    input.sees(Kind::DebugRecord) || drops(input)
}

/// Debug records and dropped calls, up to where none begins.
struct RecordList;

impl Listed for RecordList {
    ghost use Rattle.ir_forms.specs.Records.{effectless, at_no_record};

    type Item = ();

    ghost form = { effectless.read };

    ghost ends = { at_no_record };

    fn ends(input: &Input<'_>) -> bool {
        !begins_record(input)
    }

    fn read(alloc: Global, input: &mut Input<'_>) -> Result<(), Fault> {
        effectless(alloc, input)
    }
}

/// The debug records and dropped calls before an instruction.
#[tactic(auto, unfolding(crate::specs::Records::debug_records))]
pub fn debug_records(alloc: Global, input: &mut Input<'_>) -> Result<(), Fault>
    ensures { Reads (form.debug_records.read input.old) result input.new }
{
    if begins_record(input) {
        many::<RecordList>(alloc, input)?;
    }
    Ok(())
}

// ---- after an instruction

/// What may follow an instruction.
fn trail_of(op: &Op) -> Trail
    ensures { result ≡ form.trail_of op.now }
{
    match op {
        Op::Memory(MemoryOp::Alloca(_) | MemoryOp::Buffer { .. }) => Trail::Slot,
        Op::Memory(_) => Trail::Memory,
        _ => Trail::Other,
    }
}

/// The decorations after an instruction, and the debug records before the next one.
#[tactic(auto, unfolding(crate::specs::Records::instruction_end))]
pub fn instruction_end(alloc: Global, input: &mut Input<'_>, trail: Trail) -> Result<(), Fault>
    ensures { Reads ((form.instruction_end trail).read input.old) result input.new }
{
    trailing(alloc, input, trail)?;
    debug_records(alloc, input)
}

/// An instruction, with what comes before the next one.
pub fn trailed(alloc: Global, input: &mut Input<'_>, op: Op) -> Result<Op, Fault>
    ensures { Reads ((form.trailed op).read input.old) result input.new }
{
    instruction_end(alloc, input, trail_of(&op))?;
    Ok(op)
}
