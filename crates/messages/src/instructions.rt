//! Where the instructions of a function begin, as the reader reads them.
ghost use Rattle.std.specs.Prelude.{◌≡◌, ◌+◌, ◌≤◌, true, length, drop, slice_get, Some, IfOk, IfSome, OnOk};
ghost use Rattle.ir_forms.specs.Input.{Reads};
ghost use Rattle.ir_text.specs.Anew.{named_head};
ghost use Rattle.messages.specs.Instructions as spec;
ghost use Rattle.messages.specs.Instructions.{ArePlacesOf, BeginsAt, IsFirst};

use crate::guesses::guess_start;
use ir_ast::{FuncId, Module, SymbolSort};
use ir_forms::{Cursor, Fault, Input, Table};
use ir_places::{BlockPlaces, body_places};
use ir_text::{FunctionHead, defined_result, head_after};
use ir_tokens::{Kind, TEXT_LIMIT, Token, plain_name, unescaped};
use items::Items;
use std::alloc::{AllocError, Global};

/// The numbers of an instruction, each from 0: of its function in the module, of its block there, and of it in the block.
#[derive(Clone, Copy)]
pub struct Numbers {
    pub function: usize,
    pub block: usize,
    pub place: usize,
}

/// Where the instructions of a function begin, block by block.
#[derive(Debug, Drop)]
pub struct Places {
    pub blocks: Items<BlockPlaces>,
}

impl Places {
    /// The number of the first token of an instruction among these tokens, which end where those end that the function is the first of.
    pub fn token_at(&self, tokens: &[Token], block: usize, place: usize) -> Option<usize>
        ensures { IfSome result (λ at. IsFirst self.now.blocks tokens.now block place at) }
    {
        let left = self.blocks.get(block)?.get(place)?;
        let at = tokens.len().checked_sub(left)?;
        let token = tokens.get(at)?;
        if begins(token.kind) { Some(at) } else { None }
    }
}

/// The head of a function of this name.
#[tactic(auto, unfolding(ir_text::specs::Anew::named_head))]
fn named_head(alloc: Global, input: &mut Input<'_>, name: &[u8]) -> Result<FunctionHead, Fault>
    ensures { Reads ((named_head 0 name.now).read input.old) result input.new }
{
    if !input.sees(Kind::Define) {
        return Err(input.refuse(false));
    }
    input.skip();
    let returned = defined_result(alloc, input)?;
    let spelled = input.cursor.spelled(alloc)?;
    if spelled.as_slice() != name {
        return Err(input.refuse(false));
    }
    head_after(alloc, input, FuncId::new(0), returned)
}

/// A function of this name, with its places.
#[tactic(auto, unfolding(crate::specs::Instructions::function_places))]
fn function_places(
    alloc: Global,
    input: &mut Input<'_>,
    name: &[u8],
) -> Result<Items<BlockPlaces>, Fault>
    ensures { Reads ((spec.function_places name.now).read input.old) result input.new }
{
    let head = named_head(alloc, input, name)?;
    drop(head);
    body_places(alloc, input)
}

/// What a global name of a module stands for before a function of it is read alone, if it stands for anything: it does where it is only
/// declared.
fn sort_before(sort: SymbolSort) -> Option<SymbolSort>
    ensures { result ≡ spec.sort_before sort }
{
    match sort {
        SymbolSort::Declared(_) => Some(sort),
        _ => None,
    }
}

/// The same of a name, which the module may not have.
fn sort_of_name(of_module: &Module, name: &[u8]) -> Option<SymbolSort>
    ensures { result ≡ spec.sort_of_name of_module.now name.now }
{
    let number = of_module.symbols.find(name)?;
    let sort = of_module.sorts.get(number)?;
    sort_before(*sort)
}

/// Puts a name into a table, if it stands for something.
fn put_name(
    alloc: Global,
    before: &mut Table<SymbolSort>,
    of_module: &Module,
    name: &[u8],
) -> Result<(), AllocError>
    ensures { OnOk result (before.new ≡ spec.with_sort name.now (spec.sort_of_name of_module.now name.now) before.old) }
{
    if let Some(sort) = sort_of_name(of_module, name) {
        before.mention(alloc, name, sort)?;
    }
    Ok(())
}

/// Whether a token of this kind is a global name.
fn is_global_name(kind: Kind) -> bool
    ensures { result ≡ spec.is_global_name kind }
{
    matches!(kind, Kind::GlobalName)
}

/// Whether a function begins with a token of this kind.
fn is_define(kind: Kind) -> bool
    ensures { result ≡ spec.is_define kind }
{
    matches!(kind, Kind::Define)
}

/// Puts the name that a token spells into a table, if it is a global name that stands for something.
fn put_token(
    alloc: Global,
    before: &mut Table<SymbolSort>,
    of_module: &Module,
    text: &[u8],
    token: Token,
) -> Result<(), AllocError>
    ensures { OnOk result (before.new ≡ spec.with_token of_module.now text.now token before.old) }
{
    if !is_global_name(token.kind) {
        return Ok(());
    }
    match plain_name(text, token) {
        Some(name) => put_name(alloc, before, of_module, name),
        None => {
            let name = unescaped(alloc, text, token)?;
            put_name(alloc, before, of_module, name.as_slice())
        }
    }
}

/// The tokens after the first one.
fn after_first(tokens: &[Token]) -> &[Token]
    ensures { result.now ≡ drop 1 tokens.now }
{
    match tokens {
        [_, rest @ ..] => rest,
        [] => tokens,
    }
}

/// The global names that stand for something before the function with which these tokens begin is read alone, as far as they stand in it:
/// which are only declared is known, and no more. So it takes time in the length of the function, and none in that of the module.
fn names_before(
    alloc: Global,
    of_module: &Module,
    text: &[u8],
    tokens: &[Token],
) -> Result<Table<SymbolSort>, AllocError>
    ensures { IfOk result (λ before. before ≡ spec.names_before of_module.now text.now tokens.now) }
{
    let mut before = Table::new(alloc, of_module.symbols.key());
    let mut left = after_first(tokens);
    while let [token, rest @ ..] = left {
        if is_define(token.kind) {
            return Ok(before);
        }
        put_token(alloc, &mut before, of_module, text, *token)?;
        left = rest;
    }
    Ok(before)
}

/// Where the instructions begin of the function of this name with which these tokens begin. It is told where the reader reads it so, in
/// the forms of the module. No clause says that it is always told.
pub fn places_from(
    alloc: Global,
    text: &[u8],
    tokens: &[Token],
    name: &[u8],
    of_module: &Module,
) -> Result<Option<Places>, AllocError>
    ensures { IfOk result (λ found. IfSome found (λ places. ArePlacesOf of_module.now text.now name.now tokens.now places.blocks)) }
{
    if text.len() > TEXT_LIMIT {
        return Ok(None);
    }
    let symbols = names_before(alloc, of_module, text, tokens)?;
    let cursor = Cursor::new(text, tokens, None, of_module.wide);
    let mut input = Input::new(alloc, cursor, of_module.symbols.key());
    input.symbols = symbols;
    input.wide = of_module.wide;
    let answer = match function_places(alloc, &mut input, name) {
        Ok(blocks) => Ok(Some(Places { blocks })),
        Err(Fault::Memory) => Err(AllocError),
        Err(_) => Ok(None),
    };
    drop(input);
    answer
}

/// The first token of an instruction of the function of this name. It is told only where the reader reads the function so, in the forms
/// of the module. No clause says that it is always told.
pub fn first_token(
    alloc: Global,
    text: &[u8],
    tokens: &[Token],
    name: &[u8],
    numbers: Numbers,
    of_module: &Module,
) -> Result<Option<Token>, AllocError>
    ensures { IfOk result (λ found. IfSome found (λ token. BeginsAt of_module.now text.now tokens.now name.now numbers.block numbers.place token)) }
{
    let Some(start) = guess_start(tokens, numbers.function) else {
        return Ok(None);
    };
    let Some(within) = tokens.get(start..) else {
        return Ok(None);
    };
    let Some(places) = places_from(alloc, text, within, name, of_module)? else {
        return Ok(None);
    };
    match places.token_at(within, numbers.block, numbers.place) {
        Some(at) => Ok(within.get(at).copied()),
        None => Ok(None),
    }
}

/// Whether an instruction begins with a token of this kind.
fn begins(kind: Kind) -> bool
    ensures { result ≡ spec.begins kind }
{
    matches!(
        kind,
        Kind::LocalName
            | Kind::LocalNumber
            | Kind::Store
            | Kind::Call
            | Kind::Tail
            | Kind::Notail
            | Kind::Ret
            | Kind::Br
            | Kind::Switch
            | Kind::Unreachable
    )
}
