//! Lists of parts, with commas between them.
ghost use Rattle.std.specs.Prelude.{◌≡◌, Ok, IfOk, filter_map};
ghost use Rattle.ir_forms.specs.Input.{Reads};
ghost use Rattle.ir_forms.specs.Lists as form;

use crate::decorating::{Spot, decorations};
use crate::fault::Fault;
use crate::following::{Following, many_with};
use crate::input::Input;
use crate::listed::Listed;
use crate::names::is_outside;
use crate::written::{Word, WrittenType, word_of};
use ir_ast::{Argument, Constant, Operand, SymbolId};
use ir_tokens::Kind;
use items::Items;
use std::alloc::{AllocError, Global};

/// A comma before a further part of a list, or nothing before the list's end.
#[tactic(auto, unfolding(crate::specs::Lists::separator))]
pub fn separator(input: &mut Input<'_>, close: Kind) -> Result<(), Fault>
    ensures { Reads ((form.separator close).read input.old) result input.new }
{
    if input.sees(close) {
        return Ok(());
    }
    input.expect(Kind::Comma)?;
    if input.sees(close) {
        return Err(input.refuse(false));
    }
    Ok(())
}

/// An argument after its type.
fn argument_of(
    alloc: Global,
    input: &mut Input<'_>,
    written: &WrittenType,
) -> Result<Argument, Fault>
    ensures { Reads ((form.argument_of written.now).read input.old) result input.new }
{
    decorations(alloc, input, Spot::Argument)?;
    let operand = input.operand(alloc, word_of(written))?;
    separator(input, Kind::CloseRound)?;
    Ok(Argument {
        written: written.id,
        operand,
    })
}

/// An argument of a call.
#[tactic(auto, unfolding(crate::specs::Lists::argument))]
pub fn argument(alloc: Global, input: &mut Input<'_>) -> Result<Argument, Fault>
    ensures { Reads (form.argument.read input.old) result input.new }
{
    let written = input.scalar(alloc)?;
    argument_of(alloc, input, &written)
}

/// The arguments of a call.
pub struct Arguments;

impl Listed for Arguments {
    ghost use Rattle.ir_forms.specs.Lists.{argument, at_round};

    type Item = Argument;

    ghost form = { argument.read };

    ghost ends = { at_round };

    fn ends(input: &Input<'_>) -> bool {
        input.sees(Kind::CloseRound)
    }

    fn read(alloc: Global, input: &mut Input<'_>) -> Result<Argument, Fault> {
        argument(alloc, input)
    }
}

// ---- the arguments of a function with dots among its parameters

/// Whether the name with this number is that of something outside.
#[tactic(auto, unfolding(crate::specs::Lists::is_name_outside))]
fn is_name_outside(input: &Input<'_>, symbol: SymbolId) -> bool
    ensures { result ≡ form.is_name_outside symbol input.now }
{
    let number = symbol.number() as usize;
    is_outside(
        input.symbols.sort(number),
        input.symbols.names.name_at(number),
    )
}

/// Whether an operand is an address outside.
fn is_address_outside(input: &Input<'_>, operand: Operand) -> bool
    ensures { result ≡ form.is_address_outside operand input.now }
{
    match operand {
        Operand::Global(symbol) => is_name_outside(input, symbol),
        Operand::CastGlobal { global, .. } => is_name_outside(input, global),
        _ => false,
    }
}

fn is_null(operand: Operand) -> bool
    ensures { result ≡ form.is_null operand }
{
    matches!(operand, Operand::Constant(Constant::Null))
}

/// An argument past the dots, if it is kept.
fn past_dots(word: Word, argument: Argument, outside: bool) -> Option<Argument>
    ensures { result ≡ form.past_dots word argument outside }
{
    match word {
        Word::Pointer => {
            if outside || is_null(argument.operand) {
                None
            } else {
                Some(argument)
            }
        }
        _ => None,
    }
}

/// An argument, before which `left` parameters are left, if it is kept.
fn kept_argument(left: usize, word: Word, argument: Argument, outside: bool) -> Option<Argument>
    ensures { result ≡ form.kept_argument left word argument outside }
{
    if left > 0 {
        Some(argument)
    } else {
        past_dots(word, argument, outside)
    }
}

/// The arguments of a call that are kept, whose function has `left` further parameters before its dots.
#[derive(Clone, Copy)]
pub struct DottedArguments {
    pub left: usize,
}

impl Following for DottedArguments {
    ghost use Rattle.ir_forms.specs.Lists.{dotted_argument, ends_dotted, after_dotted};

    type Item = Option<Argument>;

    ghost form = { λ s. (dotted_argument s).read };

    ghost ends = { ends_dotted };

    ghost next = { after_dotted };

    fn ends(&self, input: &Input<'_>) -> bool {
        input.sees(Kind::CloseRound)
    }

    #[tactic(auto, unfolding(crate::specs::Lists::dotted_argument))]
    fn read(&mut self, alloc: Global, input: &mut Input<'_>) -> Result<Option<Argument>, Fault> {
        let written = input.scalar(alloc)?;
        let argument = argument_of(alloc, input, &written)?;
        let outside = is_address_outside(input, argument.operand);
        let kept = kept_argument(self.left, word_of(&written), argument, outside);
        self.left = self.left.saturating_sub(1);
        Ok(kept)
    }
}

/// The arguments that are kept.
fn kept_of(alloc: Global, found: &[Option<Argument>]) -> Result<Items<Argument>, AllocError>
    ensures { IfOk result (λ kept. kept ≡ filter_map (λ x. x) found.now) }
{
    let mut kept = Items::new(alloc);
    for given in found {
        if let Some(argument) = given {
            kept.push(*argument)?;
        }
    }
    Ok(kept)
}

/// The arguments of a call that are kept, where its function has `fixed` parameters before its dots.
#[tactic(auto, unfolding(crate::specs::Lists::dotted_arguments))]
pub fn dotted_arguments(
    alloc: Global,
    input: &mut Input<'_>,
    fixed: usize,
) -> Result<Items<Argument>, Fault>
    ensures { Reads ((form.dotted_arguments fixed).read input.old) result input.new }
{
    let found = many_with(alloc, input, DottedArguments { left: fixed })?;
    Ok(kept_of(alloc, found.as_slice())?)
}

// ---- dots

/// Whether dots are here, where the wide forms may stand.
#[tactic(auto, unfolding(crate::specs::Lists::at_dots))]
fn at_dots(input: &Input<'_>) -> bool
    ensures { result ≡ form.at_dots input.now }
{
    input.wide && input.sees(Kind::Dots)
}

/// Whether the list of parameters ends here, or its dots are here.
pub fn ends_parameters(input: &Input<'_>) -> bool
    ensures { result ≡ form.ends_parameters input.now }
{
    input.sees(Kind::CloseRound) || at_dots(input)
}

/// Dots, if they are here. Returns whether they are.
#[tactic(auto, unfolding(crate::specs::Lists::dots))]
pub fn dots(input: &mut Input<'_>) -> bool
    ensures { form.dots.read input.old ≡ Ok (result, input.new) }
{
    if !at_dots(input) {
        return false;
    }
    input.lose();
    input.skip();
    true
}

// ---- lists without an end of their own

/// Whether no further part is here of a list that has no end of its own; metadata is none.
pub fn at_no_comma(input: &Input<'_>) -> bool
    ensures { result ≡ form.at_no_comma input.now }
{
    !input.sees(Kind::Comma) || matches!(input.cursor.kind_after(), Kind::MetadataName)
}

/// A value with its type.
#[tactic(auto, unfolding(crate::specs::Lists::typed))]
pub fn typed(alloc: Global, input: &mut Input<'_>) -> Result<Argument, Fault>
    ensures { Reads (form.typed.read input.old) result input.new }
{
    let written = input.scalar(alloc)?;
    let operand = input.operand(alloc, word_of(&written))?;
    Ok(Argument {
        written: written.id,
        operand,
    })
}

/// An index of a getelementptr.
#[tactic(auto, unfolding(crate::specs::Lists::index))]
fn index(alloc: Global, input: &mut Input<'_>) -> Result<Argument, Fault>
    ensures { Reads (form.index.read input.old) result input.new }
{
    input.expect(Kind::Comma)?;
    typed(alloc, input)
}

/// The indices of a getelementptr so far.
#[derive(Clone, Copy)]
pub struct IndexList {
    /// Whether there is one.
    pub is_further: bool,
}

impl Following for IndexList {
    ghost use Rattle.ir_forms.specs.Lists.{any_index, ends_indices, after_index};

    type Item = Argument;

    ghost form = { λ s. (any_index s).read };

    ghost ends = { ends_indices };

    ghost next = { after_index };

    fn ends(&self, input: &Input<'_>) -> bool {
        self.is_further && at_no_comma(input)
    }

    fn read(&mut self, alloc: Global, input: &mut Input<'_>) -> Result<Argument, Fault> {
        let read = index(alloc, input)?;
        self.is_further = true;
        Ok(read)
    }
}

/// The indices of a getelementptr, of which there is one at least.
#[tactic(auto, unfolding(crate::specs::Lists::indices))]
pub fn indices(alloc: Global, input: &mut Input<'_>) -> Result<Items<Argument>, Fault>
    ensures { Reads (form.indices.read input.old) result input.new }
{
    many_with(alloc, input, IndexList { is_further: false })
}
