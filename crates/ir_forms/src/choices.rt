//! Values that are one of several: select and phi.
ghost use Rattle.std.specs.Prelude.{◌≡◌};
ghost use Rattle.ir_forms.specs.Input.{Reads};
ghost use Rattle.ir_forms.specs.Choices as form;

use crate::cursor::same_kind;
use crate::decorating::Trail;
use crate::fault::Fault;
use crate::following::{Following, many_with};
use crate::input::Input;
use crate::listed::{Listed, many};
use crate::lists::at_no_comma;
use crate::numbers::{TwoOperands, condition};
use crate::records::instruction_end;
use crate::written::{Word, word_of};
use ir_ast::{Choice, Incoming, Phi, ValueId};
use ir_tokens::Kind;
use items::Items;
use std::alloc::Global;

/// Two operands, each after its type, which is one.
#[tactic(auto, unfolding(crate::specs::Choices::typed_pair))]
fn typed_pair(alloc: Global, input: &mut Input<'_>) -> Result<TwoOperands, Fault>
    ensures { Reads (form.typed_pair.read input.old) result input.new }
{
    let written = input.scalar(alloc)?;
    let first = input.operand(alloc, word_of(&written))?;
    input.expect(Kind::Comma)?;
    input.again(alloc, &written)?;
    let second = input.operand(alloc, word_of(&written))?;
    Ok(TwoOperands {
        written: written.id,
        first,
        second,
    })
}

#[tactic(auto, unfolding(crate::specs::Choices::select))]
pub fn select(alloc: Global, input: &mut Input<'_>, value: ValueId) -> Result<Choice, Fault>
    ensures { Reads ((form.select value).read input.old) result input.new }
{
    input.skip();
    let condition = condition(alloc, input)?;
    input.expect(Kind::Comma)?;
    let pair = typed_pair(alloc, input)?;
    input.set_type(value, pair.written);
    Ok(Choice {
        condition_type: condition.written,
        condition: condition.operand,
        written: pair.written,
        chosen: pair.first,
        other: pair.second,
    })
}

/// The comma before a further entry.
#[tactic(auto, unfolding(crate::specs::Choices::separated))]
fn separated(input: &mut Input<'_>, is_further: bool) -> Result<(), Fault>
    ensures { Reads ((form.separated is_further).read input.old) result input.new }
{
    if is_further {
        input.expect(Kind::Comma)?;
    }
    Ok(())
}

/// An entry: a value, and the block that it comes from.
#[tactic(auto, unfolding(crate::specs::Choices::incoming))]
fn incoming(alloc: Global, input: &mut Input<'_>, word: Word) -> Result<Incoming, Fault>
    ensures { Reads ((form.incoming word).read input.old) result input.new }
{
    input.expect(Kind::OpenSquare)?;
    let operand = input.operand(alloc, word)?;
    input.expect(Kind::Comma)?;
    let from = input.incoming_label(alloc)?;
    input.expect(Kind::CloseSquare)?;
    Ok(Incoming { operand, from })
}

/// The entries of a phi so far.
#[derive(Clone, Copy)]
pub struct Entries {
    /// What the values are.
    pub word: Word,
    /// Whether there is one.
    pub is_further: bool,
}

/// An entry, the first or a further one.
#[tactic(auto, unfolding(crate::specs::Choices::entry))]
fn entry(alloc: Global, input: &mut Input<'_>, entries: Entries) -> Result<Incoming, Fault>
    ensures { Reads ((form.entry entries).read input.old) result input.new }
{
    separated(input, entries.is_further)?;
    incoming(alloc, input, entries.word)
}

impl Following for Entries {
    ghost use Rattle.ir_forms.specs.Choices.{entry, ends_entries, after_entry};

    type Item = Incoming;

    ghost form = { λ e. (entry e).read };

    ghost ends = { ends_entries };

    ghost next = { after_entry };

    fn ends(&self, input: &Input<'_>) -> bool {
        self.is_further && at_no_comma(input)
    }

    fn read(&mut self, alloc: Global, input: &mut Input<'_>) -> Result<Incoming, Fault> {
        let read = entry(alloc, input, *self)?;
        self.is_further = true;
        Ok(read)
    }
}

/// The entries of a phi, of which there is one at least.
#[tactic(auto, unfolding(crate::specs::Choices::all_entries))]
fn all_entries(alloc: Global, input: &mut Input<'_>, word: Word) -> Result<Items<Incoming>, Fault>
    ensures { Reads ((form.all_entries word).read input.old) result input.new }
{
    let first = Entries {
        word,
        is_further: false,
    };
    many_with(alloc, input, first)
}

/// Whether a token is the name of a local value, or its number.
fn is_local(kind: Kind) -> bool
    ensures { result ≡ form.is_local kind }
{
    matches!(kind, Kind::LocalName | Kind::LocalNumber)
}

/// Whether a phi begins here.
pub fn begins_phi(input: &Input<'_>) -> bool
    ensures { result ≡ form.begins_phi input.now }
{
    is_local(input.kind())
        && (same_kind(input.cursor.kind_after(), Kind::Equals)
            && same_kind(input.cursor.kind_third(), Kind::Phi))
}

/// The name of the value of a phi.
#[tactic(auto, unfolding(crate::specs::Choices::phi_value))]
fn phi_value(alloc: Global, input: &mut Input<'_>) -> Result<ValueId, Fault>
    ensures { Reads (form.phi_value.read input.old) result input.new }
{
    match input.kind() {
        Kind::LocalName => input.new_value(alloc),
        Kind::LocalNumber => input.numbered_value(alloc),
        _ => Err(input.refuse(false)),
    }
}

#[tactic(auto, unfolding(crate::specs::Choices::phi))]
pub fn phi(alloc: Global, input: &mut Input<'_>) -> Result<Phi, Fault>
    ensures { Reads (form.phi.read input.old) result input.new }
{
    let value = phi_value(alloc, input)?;
    input.expect(Kind::Equals)?;
    input.expect(Kind::Phi)?;
    let written = input.scalar(alloc)?;
    let incoming = all_entries(alloc, input, word_of(&written))?;
    input.set_type(value, written.id);
    instruction_end(alloc, input, Trail::Other)?;
    Ok(Phi {
        value,
        written: written.id,
        incoming,
    })
}

/// Phis, up to where none begins.
struct PhiList;

impl Listed for PhiList {
    ghost use Rattle.ir_forms.specs.Choices.{phi, at_no_phi};

    type Item = Phi;

    ghost form = { phi.read };

    ghost ends = { at_no_phi };

    fn ends(input: &Input<'_>) -> bool {
        !begins_phi(input)
    }

    fn read(alloc: Global, input: &mut Input<'_>) -> Result<Phi, Fault> {
        phi(alloc, input)
    }
}

/// The phis of a block.
#[tactic(auto, unfolding(crate::specs::Choices::phis))]
pub fn phis(alloc: Global, input: &mut Input<'_>) -> Result<Items<Phi>, Fault>
    ensures { Reads (form.phis.read input.old) result input.new }
{
    many::<PhiList>(alloc, input)
}
