//! One function of a module, read anew.
ghost use Rattle.std.specs.Prelude.{◌≡◌, ◌≢◌, ◌≤◌, length, IfOk, IfErr, Ok, Err};
ghost use Rattle.ir_forms.specs.Input.{Reads};
ghost use Rattle.ir_text.specs.Anew as spec;
ghost use Rattle.ir_text.specs.Anew.{IsTextAnew, IsFaultAnew};
ghost use Rattle.ir_text.specs.Read.{Gives, text_limit};
ghost use Rattle.ir_text.specs.declared.anew.Replacement.{Replacement as AReplacement};
ghost use Rattle.ir_text.specs.declared.read_fault.ReadFault.{ReadFault as AFault};
ghost use Rattle.ir_text.specs.declared.read_fault.ReadFault.TheVariants.{Memory};

use crate::items_of_text::{FunctionHead, body_after, defined_result, head_after};
use crate::late::late_fault;
use crate::read_fault::ReadFault;
use crate::reader::located;
use copies::Tables;
use ir_ast::{FuncId, Function, Names, SymbolSort};
use ir_forms::{Cursor, Fault, Input, Table};
use ir_tokens::{Kind, Lexed, Position, TEXT_LIMIT, read_tokens};
use items::Items;
use std::alloc::{AllocError, Global};
use std::mem;

/// A function that is read anew, with the tables of its module, to which its text may add.
#[derive(Drop)]
pub struct Replacement {
    pub tables: Tables,
    /// The one function.
    pub functions: Items<Function>,
}

/// What a global name stands for where this function is read.
fn sort_before(func: FuncId, sort: SymbolSort) -> SymbolSort
    ensures { result ≡ spec.sort_before func sort }
{
    match sort {
        SymbolSort::Defined(other) if other.number() >= func.number() => SymbolSort::Unknown,
        _ => sort,
    }
}

/// The same of each name.
fn sorts_before(
    alloc: Global,
    func: FuncId,
    sorts: &[SymbolSort],
) -> Result<Items<SymbolSort>, AllocError>
    ensures { IfOk result (λ before. before ≡ spec.sorts_before func sorts.now) }
{
    let mut before = Items::new(alloc);
    for sort in sorts {
        before.push(sort_before(func, *sort))?;
    }
    Ok(before)
}

/// `define T @f(T %a, ..) gc "name"`, of this number and name.
#[tactic(auto, unfolding(crate::specs::Anew::named_head))]
fn named_head(
    alloc: Global,
    input: &mut Input<'_>,
    func: FuncId,
    name: &[u8],
) -> Result<FunctionHead, Fault>
    ensures { Reads ((spec.named_head func name.now).read input.old) result input.new }
{
    if !input.sees(Kind::Define) {
        return Err(input.refuse(false));
    }
    input.skip();
    let returned = defined_result(alloc, input)?;
    let spelled = input.cursor.spelled(alloc)?;
    if spelled.as_slice() != name {
        return Err(input.refuse(false));
    }
    head_after(alloc, input, func, returned)
}

/// The end of the text.
#[tactic(auto, unfolding(crate::specs::Anew::ends))]
fn ends(input: &mut Input<'_>) -> Result<(), Fault>
    ensures { Reads (spec.ends.read input.old) result input.new }
{
    if !input.sees(Kind::End) {
        return Err(input.refuse(false));
    }
    if input.cursor.is_bad() {
        return Err(input.cursor.at_end());
    }
    Ok(())
}

/// A text of one function with this number and this name.
#[tactic(auto, unfolding(crate::specs::Anew::anew))]
fn anew(alloc: Global, input: &mut Input<'_>, func: FuncId, name: &[u8]) -> Result<(), Fault>
    ensures { Reads ((spec.anew func name.now).read input.old) result input.new }
{
    let head = named_head(alloc, input, func, name)?;
    body_after(alloc, input, head)?;
    ends(input)
}

/// Each global name stands for this from now on.
fn set_sorts(alloc: Global, input: &mut Input<'_>, sorts: Items<SymbolSort>)
    ensures { input.new ≡ spec.with_sorts sorts input.old }
{
    let none = Names::new(alloc, input.symbols.names.key());
    let names = mem::replace(&mut input.symbols.names, none);
    input.symbols = Table { names, sorts };
}

/// Before the first token of a text, where the names and types of these tables were mentioned. What is new is hashed by a key that
/// comes from the text too.
fn start_with<'x>(alloc: Global, tables: Tables, bytes: &'x [u8], lexed: &'x Lexed) -> Input<'x>
    requires { length bytes.now ≤ text_limit }
    ensures { result ≡ spec.start_with tables (record { text = bytes.now; rest = lexed.now.tokens; bad = lexed.now.bad; wide = tables.wide }) }
{
    let key = tables.symbols.key().with(bytes);
    let cursor = Cursor::new(bytes, lexed.tokens.as_slice(), lexed.bad, tables.wide);
    let mut tables = tables;
    tables.types.set_key(key);
    tables.struct_names.set_key(key);
    tables.symbols.set_key(key);
    Input {
        cursor,
        types: tables.types,
        struct_names: Table {
            names: tables.struct_names,
            sorts: tables.struct_of,
        },
        struct_uses: Items::new(alloc),
        symbols: Table {
            names: tables.symbols,
            sorts: tables.sorts,
        },
        symbol_uses: Items::new(alloc),
        locals: Table::new(alloc, key),
        local_uses: Items::new(alloc),
        values: 0,
        unnamed: 0,
        missing: None,
        lost: None,
        structs: Items::new(alloc),
        globals: Items::new(alloc),
        declares: Items::new(alloc),
        functions: Items::new(alloc),
        wide: tables.wide,
    }
}

/// The functions that were read, with the tables after them.
fn replacement_of(input: Input<'_>) -> Replacement
    ensures { result ≡ spec.replacement_of input.entry }
{
    Replacement {
        tables: Tables {
            types: input.types,
            struct_names: input.struct_names.names,
            struct_of: input.struct_names.sorts,
            symbols: input.symbols.names,
            sorts: input.symbols.sorts,
            wide: input.wide,
        },
        functions: input.functions,
    }
}

/// The function that the tokens of a text tell.
#[tactic(auto, unfolding(crate::specs::Anew::read_anew))]
fn read_lexed<'x>(
    alloc: Global,
    tables: Tables,
    func: FuncId,
    name: &[u8],
    bytes: &'x [u8],
    lexed: &'x Lexed,
) -> Result<Replacement, ReadFault>
    requires { length bytes.now ≤ text_limit }
    ensures { Gives result (spec.read_anew tables func name.now bytes.now lexed.now) }
{
    let mut tables = tables;
    let before = sorts_before(alloc, func, tables.sorts.as_slice())?;
    let sorts = mem::replace(&mut tables.sorts, before);
    let mut input = start_with(alloc, tables, bytes, lexed);
    let fault = match anew(alloc, &mut input, func, name) {
        Ok(()) => {
            set_sorts(alloc, &mut input, sorts);
            late_fault(&input)
        }
        Err(fault) => Some(fault),
    };
    match fault {
        None => Ok(replacement_of(input)),
        Some(fault) => {
            drop(input);
            Err(located(alloc, bytes, fault))
        }
    }
}

/// Reads one function of a module from a text of its own: a `define` of this name and nothing else. It has its number in the
/// module, and the names and types that the module mentions.
pub fn read_function(
    alloc: Global,
    tables: Tables,
    func: FuncId,
    name: &[u8],
    bytes: &[u8],
) -> Result<Replacement, ReadFault>
    // What is read is this function of this text.
    ensures found { IfOk result (λ a. IsTextAnew tables func name.now bytes.now a) }
    // The function of a text is read, unless memory runs out.
    ensures only { (a : AReplacement) → IsTextAnew tables func name.now bytes.now a → Gives result (Ok a) }
    // What is refused is refused for its first fault.
    ensures fault { IfErr result (λ e. e ≢ Memory → IsFaultAnew tables func name.now bytes.now e) }
    // What has a first fault is refused for it, unless memory runs out.
    ensures only_fault { (e : AFault) → IsFaultAnew tables func name.now bytes.now e → Gives result (Err e) }
{
    if bytes.len() > TEXT_LIMIT {
        drop(tables);
        return Err(ReadFault::Limit(Position::of(bytes, TEXT_LIMIT as u32)));
    }
    let lexed = match read_tokens(alloc, bytes) {
        Ok(lexed) => lexed,
        Err(_) => {
            drop(tables);
            return Err(ReadFault::Memory);
        }
    };
    read_lexed(alloc, tables, func, name, bytes, &lexed)
}
