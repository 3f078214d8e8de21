//! Data, and globals outside. The module has their names alone, which are declared; what they hold is passed over.
ghost use Rattle.std.specs.Prelude.{◌≡◌};
ghost use Rattle.ir_forms.specs.Input.{Reads};
ghost use Rattle.ir_text.specs.DataItems as form;

use crate::starts::is_external;
use ir_ast::{Declare, DeclareId, IrType, Runtime, SymbolId, SymbolSort, TypeId};
use ir_forms::{Fault, Following, Input, any_token, many_with, same_kind};
use ir_tokens::Kind;
use items::Items;
use std::alloc::Global;

/// Whether a global begins so that is data: its type is one that no global of the module has.
fn begins_data_by(kind: Kind, after: Kind) -> bool
    ensures { result ≡ form.begins_data_by kind after }
{
    match kind {
        Kind::OpenSquare | Kind::OpenBrace | Kind::Less => true,
        Kind::LocalName | Kind::LocalNumber => !same_kind(after, Kind::Star),
        _ => false,
    }
}

/// Whether data is here, where the wide forms may stand.
#[tactic(auto, unfolding(crate::specs::DataItems::begins_data))]
pub fn begins_data(input: &Input<'_>) -> bool
    ensures { result ≡ form.begins_data input.now }
{
    input.wide && begins_data_by(input.kind(), input.cursor.kind_after())
}

/// Whether a global outside is here, where the wide forms may stand.
#[tactic(auto, unfolding(crate::specs::DataItems::begins_external))]
pub fn begins_external(input: &Input<'_>) -> bool
    ensures { result ≡ form.begins_external input.now }
{
    input.wide && is_external(input.kind())
}

/// Whether an item begins with this word.
fn begins_item_by(kind: Kind) -> bool
    ensures { result ≡ form.begins_item_by kind }
{
    matches!(
        kind,
        Kind::Declare | Kind::Define | Kind::SourceFilename | Kind::Target | Kind::Attributes
    )
}

/// Whether the word `module` is here, with which assembly code begins.
#[tactic(auto, unfolding(crate::specs::DataItems::begins_assembly))]
fn begins_assembly(input: &Input<'_>) -> bool
    ensures { result ≡ form.begins_assembly input.now }
{
    input.sees(Kind::LeftOut) && input.cursor.spelling() == b"module".as_slice()
}

/// Whether an item begins here.
fn begins_item(input: &Input<'_>) -> bool
    ensures { result ≡ form.begins_item input.now }
{
    begins_item_by(input.kind())
        || begins_assembly(input)
        || same_kind(input.cursor.kind_after(), Kind::Equals)
}

/// Whether an item begins here, or another line.
fn begins_further(input: &Input<'_>) -> bool
    ensures { result ≡ form.begins_further input.now }
{
    begins_item(input) || input.cursor.begins_line()
}

/// How many brackets of any kind are open.
#[derive(Clone, Copy)]
pub struct OpenBrackets {
    pub depth: u32,
}

impl Following for OpenBrackets {
    ghost use Rattle.ir_text.specs.DataItems.{token_of_item, ends_data, after_token};

    type Item = Kind;

    ghost form = { λ b. (token_of_item b).read };

    ghost ends = { ends_data };

    ghost next = { after_token };

    fn ends(&self, input: &Input<'_>) -> bool {
        self.depth == 0 && (input.sees(Kind::End) || begins_further(input))
    }

    fn read(&mut self, _alloc: Global, input: &mut Input<'_>) -> Result<Kind, Fault> {
        if self.depth >= u32::MAX {
            return Err(input.limit());
        }
        let kind = any_token(input)?;
        match kind {
            Kind::OpenRound | Kind::OpenSquare | Kind::OpenBrace => self.depth += 1,
            Kind::CloseRound | Kind::CloseSquare | Kind::CloseBrace => {
                self.depth = self.depth.saturating_sub(1)
            }
            _ => {}
        }
        Ok(kind)
    }
}

/// The rest of an item.
#[tactic(auto, unfolding(crate::specs::DataItems::past_item))]
fn past_item(alloc: Global, input: &mut Input<'_>) -> Result<(), Fault>
    ensures { Reads (form.past_item.read input.old) result input.new }
{
    many_with(alloc, input, OpenBrackets { depth: 0 })?;
    Ok(())
}

/// This name is declared from now on under this number, with this type of a result and no parameters.
fn add_outside(
    alloc: Global,
    input: &mut Input<'_>,
    symbol: SymbolId,
    number: DeclareId,
    returned: TypeId,
) -> Result<(), Fault>
    ensures { Reads ((form.add_outside symbol number returned).read input.old) result input.new }
{
    let runtime = Runtime::of(input.symbols.names.name_at(symbol.number() as usize));
    input
        .symbols
        .define(symbol.number() as usize, SymbolSort::Declared(number));
    input.declares.push(Declare {
        symbol,
        runtime,
        returned,
        parameters: Items::new(alloc),
    })?;
    Ok(())
}

/// Data with this name, from its type on. The name is none of a function of the runtime.
#[tactic(auto, unfolding(crate::specs::DataItems::data_item))]
pub fn data_item(alloc: Global, input: &mut Input<'_>, symbol: SymbolId) -> Result<(), Fault>
    ensures { Reads ((form.data_item symbol).read input.old) result input.new }
{
    if input.declares.len() >= 65535 {
        return Err(input.limit());
    }
    if Runtime::of(input.symbols.names.name_at(symbol.number() as usize)).is_some() {
        return Err(input.left_out());
    }
    let number = DeclareId::new(input.declares.len() as u32);
    input.lose();
    past_item(alloc, input)?;
    let returned = input.intern(IrType::Void)?;
    add_outside(alloc, input, symbol, number, returned)
}
