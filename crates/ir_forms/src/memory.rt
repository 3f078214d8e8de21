//! Operations on memory.
ghost use Rattle.std.specs.Prelude.{◌≡◌};
ghost use Rattle.ir_forms.specs.Input.{Reads};
ghost use Rattle.ir_forms.specs.Memory as form;

use crate::cursor::same_kind;
use crate::decorating::optional;
use crate::fault::Fault;
use crate::input::Input;
use crate::written::{Word, WrittenType, is_scalar, word_of};
use ir_ast::{Argument, MemoryOp, ValueId};
use ir_tokens::Kind;
use std::alloc::Global;

/// The type that an alloca holds: a number or a pointer, and each other type too where the wide forms may stand.
fn held(alloc: Global, input: &mut Input<'_>) -> Result<WrittenType, Fault>
    ensures { Reads ((form.held_by input.old.wide).read input.old) result input.new }
{
    if input.wide {
        input.any_type(alloc)
    } else {
        input.scalar(alloc)
    }
}

/// Whether a count of elements follows, where the wide forms may stand.
#[tactic(auto, unfolding(crate::specs::Memory::counts))]
fn counts(input: &Input<'_>) -> bool
    ensures { result ≡ form.counts input.now }
{
    input.wide && input.sees(Kind::Comma) && same_kind(input.cursor.kind_after(), Kind::IntegerType)
}

/// Whether a word is an integer.
fn is_integer_word(word: Word) -> bool
    ensures { result ≡ form.is_integer_word word }
{
    matches!(word, Word::Integer(_))
}

/// A type of integers.
#[tactic(auto, unfolding(crate::specs::Memory::count_type))]
fn count_type(alloc: Global, input: &mut Input<'_>) -> Result<WrittenType, Fault>
    ensures { Reads (form.count_type.read input.old) result input.new }
{
    let written = input.scalar(alloc)?;
    if !is_integer_word(word_of(&written)) {
        return Err(input.refuse(false));
    }
    Ok(written)
}

/// A number with its type.
#[tactic(auto, unfolding(crate::specs::Memory::counted_by))]
fn counted_by(alloc: Global, input: &mut Input<'_>) -> Result<Argument, Fault>
    ensures { Reads (form.counted_by.read input.old) result input.new }
{
    let written = count_type(alloc, input)?;
    let operand = input.operand(alloc, word_of(&written))?;
    Ok(Argument {
        written: written.id,
        operand,
    })
}

/// How many elements are counted, after a comma.
#[tactic(auto, unfolding(crate::specs::Memory::count))]
fn count(alloc: Global, input: &mut Input<'_>) -> Result<Argument, Fault>
    ensures { Reads (form.count.read input.old) result input.new }
{
    input.expect(Kind::Comma)?;
    counted_by(alloc, input)
}

/// A number or a pointer is a slot, and an array or a struct is a buffer.
fn single(held: &WrittenType) -> MemoryOp
    ensures { result ≡ form.single held.now }
{
    if is_scalar(held) {
        MemoryOp::Alloca(held.id)
    } else {
        MemoryOp::Buffer {
            held: held.id,
            count: None,
        }
    }
}

/// A slot or a buffer, by whether a count follows its type.
fn local_of(alloc: Global, input: &mut Input<'_>, held: &WrittenType) -> Result<MemoryOp, Fault>
    ensures { Reads ((form.local_of held.now).read input.old) result input.new }
{
    if !counts(input) {
        return Ok(single(held));
    }
    let count = count(alloc, input)?;
    Ok(MemoryOp::Buffer {
        held: held.id,
        count: Some(count),
    })
}

#[tactic(auto, unfolding(crate::specs::Memory::alloca))]
pub fn alloca(alloc: Global, input: &mut Input<'_>, value: ValueId) -> Result<MemoryOp, Fault>
    ensures { Reads ((form.alloca value).read input.old) result input.new }
{
    input.skip();
    let held = held(alloc, input)?;
    let made = local_of(alloc, input, &held)?;
    input.set_slot(value, held.id);
    Ok(made)
}

/// A place of a part whose type is written before it.
#[tactic(auto, unfolding(crate::specs::Memory::place_of))]
pub fn place_of(alloc: Global, input: &mut Input<'_>, held: &WrittenType) -> Result<Argument, Fault>
    ensures { Reads ((form.place_of held.now).read input.old) result input.new }
{
    let written = input.pointer_again(alloc, held)?;
    let operand = input.operand(alloc, Word::Pointer)?;
    Ok(Argument { written, operand })
}

#[tactic(auto, unfolding(crate::specs::Memory::load))]
pub fn load(alloc: Global, input: &mut Input<'_>, value: ValueId) -> Result<MemoryOp, Fault>
    ensures { Reads ((form.load value).read input.old) result input.new }
{
    input.skip();
    optional(input, Kind::Volatile);
    let loaded = input.scalar(alloc)?;
    input.expect(Kind::Comma)?;
    let place = place_of(alloc, input, &loaded)?;
    input.set_type(value, loaded.id);
    Ok(MemoryOp::Load {
        loaded: loaded.id,
        place_type: place.written,
        place: place.operand,
    })
}

#[tactic(auto, unfolding(crate::specs::Memory::store))]
pub fn store(alloc: Global, input: &mut Input<'_>) -> Result<MemoryOp, Fault>
    ensures { Reads (form.store.read input.old) result input.new }
{
    input.skip();
    optional(input, Kind::Volatile);
    let stored = input.scalar(alloc)?;
    let value = input.operand(alloc, word_of(&stored))?;
    input.expect(Kind::Comma)?;
    let place = place_of(alloc, input, &stored)?;
    Ok(MemoryOp::Store {
        stored: stored.id,
        value,
        place_type: place.written,
        place: place.operand,
    })
}
