//! Items: struct types, globals, declared and defined functions.
ghost use Rattle.std.specs.Prelude.{◌≡◌, Ok, IfOk};
ghost use Rattle.ir_ast.specs.RuntimeNames.{runtime_of};
ghost use Rattle.ir_forms.specs.Cursor.{spelled};
ghost use Rattle.ir_forms.specs.Input.{Reads};
ghost use Rattle.grammar.specs.Grammar.{look};
ghost use Rattle.ir_text.specs.ItemsOfText as form;

use crate::blocks::all_blocks;
use crate::data_items::{begins_data, begins_external, data_item};
use crate::lines::{comdat, group, metadata_line, source_name, target_line};
use crate::parameters::{DefinedParameters, declared_parameters};
use crate::starts::{begins_unread_item, is_external};
use ir_ast as ast;
use ir_ast::{
    Block, Constant, Declare, DeclareId, FuncId, Function, GlobalId, IrType, Parameter, Runtime,
    StructType, SymbolId, SymbolSort, TypeId,
};
use ir_forms::{
    Fault, Input, Listed, Spot, Table, Trail, Word, begins_unread_operand, decorations,
    first_missing, is_float_word, is_left_out, many, past_brackets, trailing, word_of,
};
use ir_tokens::Kind;
use items::Items;
use std::alloc::{AllocError, Global};
use std::mem;

// ---- struct types

/// `%N = type { T, .. }`
#[tactic(auto, unfolding(crate::specs::ItemsOfText::struct_type))]
fn struct_type(alloc: Global, input: &mut Input<'_>) -> Result<(), Fault>
    ensures { Reads (form.struct_type.read input.old) result input.new }
{
    let name = input.new_struct(alloc)?;
    input.expect(Kind::Equals)?;
    input.expect(Kind::Type)?;
    let body = body(alloc, input)?;
    input.structs.push(StructType { name, body })?;
    Ok(())
}

/// Whether the word `opaque` is here, where the wide forms may stand.
#[tactic(auto, unfolding(crate::specs::ItemsOfText::begins_opaque))]
fn begins_opaque(input: &Input<'_>) -> bool
    ensures { result ≡ form.begins_opaque input.now }
{
    input.wide && input.cursor.spelling() == b"opaque".as_slice()
}

/// A struct type that is defined outside, which is one without fields.
fn opaque_body(input: &mut Input<'_>) -> Result<TypeId, Fault>
    ensures { Reads ((look form.begins_opaque form.opaque_by).read input.old) result input.new }
{
    if !begins_opaque(input) {
        return Err(input.refuse(false));
    }
    input.lose();
    input.skip();
    Ok(input.intern(IrType::EmptyStruct)?)
}

/// The fields of a struct in their braces, or `opaque`; packed structs are left out.
#[tactic(auto, unfolding(crate::specs::ItemsOfText::body))]
fn body(alloc: Global, input: &mut Input<'_>) -> Result<TypeId, Fault>
    ensures { Reads (form.body.read input.old) result input.new }
{
    match input.kind() {
        Kind::OpenBrace => input.struct_body(alloc),
        Kind::LeftOut => opaque_body(input),
        Kind::Less => Err(input.left_out()),
        _ => Err(input.refuse(false)),
    }
}

// ---- globals

/// Whether a word is an i1.
fn is_one(word: Word) -> bool
    ensures { result ≡ form.is_one word }
{
    match word {
        Word::Integer(bits) => bits == 1,
        _ => false,
    }
}

fn is_pointer_word(word: Word) -> bool
    ensures { result ≡ form.is_pointer_word word }
{
    matches!(word, Word::Pointer)
}

/// Whether a token of this kind may be the first value of a global, whose type is a word of this sort.
fn is_initial(word: Word, kind: Kind) -> bool
    ensures { result ≡ form.is_initial word kind }
{
    match kind {
        Kind::Undef | Kind::Zeroinitializer => true,
        Kind::Number => !is_pointer_word(word),
        Kind::Word => is_float_word(word),
        Kind::True | Kind::False => is_one(word),
        Kind::Null => is_pointer_word(word),
        _ => false,
    }
}

/// The first value of a global.
#[tactic(auto, unfolding(crate::specs::ItemsOfText::initial))]
fn initial(input: &mut Input<'_>, word: Word) -> Result<Constant, Fault>
    ensures { Reads ((form.initial word).read input.old) result input.new }
{
    let kind = input.kind();
    if !is_initial(word, kind) {
        return Err(input.refuse(begins_unread_operand(kind)));
    }
    input.constant(word)
}

/// `global` or `constant`, with what decorates the global. Returns whether it is `constant`.
#[tactic(auto, unfolding(crate::specs::ItemsOfText::is_constant))]
fn is_constant(alloc: Global, input: &mut Input<'_>) -> Result<bool, Fault>
    ensures { Reads (form.is_constant.read input.old) result input.new }
{
    decorations(alloc, input, Spot::Global)?;
    match input.kind() {
        Kind::Global => {
            input.skip();
            Ok(false)
        }
        Kind::Constant => {
            input.skip();
            Ok(true)
        }
        kind => Err(input.refuse(is_external(kind))),
    }
}

/// The type and the first value of a global.
fn global_value(
    alloc: Global,
    input: &mut Input<'_>,
    symbol: SymbolId,
    is_constant: bool,
) -> Result<(), Fault>
    ensures { Reads ((form.global_value symbol is_constant).read input.old) result input.new }
{
    let written = input.held_type(alloc)?;
    let initial = initial(input, word_of(&written))?;
    trailing(alloc, input, Trail::Global)?;
    decorations(alloc, input, Spot::GlobalEnd)?;
    input.globals.push(ast::Global {
        symbol,
        is_constant,
        held: written.id,
        initial,
    })?;
    Ok(())
}

/// What follows the name of a global.
fn global_afterwards(alloc: Global, input: &mut Input<'_>, symbol: SymbolId) -> Result<(), Fault>
    ensures { Reads ((form.global_afterwards symbol).read input.old) result input.new }
{
    input.expect(Kind::Equals)?;
    if begins_external(input) {
        input.lose();
        input.skip();
        is_constant(alloc, input)?;
        return data_item(alloc, input, symbol);
    }
    let is_constant = is_constant(alloc, input)?;
    if begins_data(input) {
        return data_item(alloc, input, symbol);
    }
    global_value(alloc, input, symbol, is_constant)
}

/// `@g = global T c`
#[tactic(auto, unfolding(crate::specs::ItemsOfText::global))]
fn global(alloc: Global, input: &mut Input<'_>) -> Result<(), Fault>
    ensures { Reads (form.global.read input.old) result input.new }
{
    if input.globals.len() >= 4096 {
        return Err(input.limit());
    }
    let number = GlobalId::new(input.globals.len() as u32);
    let symbol = input.new_symbol(alloc, SymbolSort::Global(number))?;
    global_afterwards(alloc, input, symbol)
}

// ---- functions

/// `void`, which begins no function type.
fn void_result(input: &mut Input<'_>) -> Result<TypeId, Fault>
    ensures { Reads (form.void_result.read input.old) result input.new }
{
    input.skip();
    input.no_parameters()?;
    input.intern(IrType::Void)
}

/// `void`, or a type, with what decorates a declared function.
fn decorated_result(alloc: Global, input: &mut Input<'_>) -> Result<TypeId, Fault>
    ensures { Reads (form.decorated_result.read input.old) result input.new }
{
    decorations(alloc, input, Spot::Result)?;
    match input.kind() {
        Kind::Void => void_result(input),
        _ => Ok(input.any_type(alloc)?.id),
    }
}

/// The metadata of a declared function, and then its result.
#[tactic(auto, unfolding(crate::specs::ItemsOfText::declared_result))]
fn declared_result(alloc: Global, input: &mut Input<'_>) -> Result<TypeId, Fault>
    ensures { Reads (form.declared_result.read input.old) result input.new }
{
    decorations(alloc, input, Spot::Declare)?;
    decorated_result(alloc, input)
}

/// `void`, or a type that a defined function may return, with what decorates the function.
#[tactic(auto, unfolding(crate::specs::ItemsOfText::defined_result))]
pub fn defined_result(alloc: Global, input: &mut Input<'_>) -> Result<TypeId, Fault>
    ensures { Reads (form.defined_result.read input.old) result input.new }
{
    decorations(alloc, input, Spot::Result)?;
    match input.kind() {
        Kind::Void => void_result(input),
        _ => Ok(input.passed_type(alloc)?.id),
    }
}

/// The global name of a function that is defined or declared here.
#[tactic(auto, unfolding(crate::specs::ItemsOfText::function_name))]
fn function_name(alloc: Global, input: &mut Input<'_>, sort: SymbolSort) -> Result<SymbolId, Fault>
    ensures { Reads ((form.function_name sort).read input.old) result input.new }
{
    match input.kind() {
        Kind::GlobalName => input.new_symbol(alloc, sort),
        _ => Err(input.refuse(false)),
    }
}

/// The function of the runtime that is named here, if it is one.
fn runtime_here(alloc: Global, input: &Input<'_>) -> Result<Option<Runtime>, AllocError>
    ensures { IfOk result (λ runtime. runtime ≡ runtime_of (spelled input.now.cursor)) }
{
    let name = input.cursor.spelled(alloc)?;
    let runtime = Runtime::of(name.as_slice());
    drop(name);
    Ok(runtime)
}

/// What follows the result of a declared function.
fn declare_after(
    alloc: Global,
    input: &mut Input<'_>,
    number: DeclareId,
    returned: TypeId,
    runtime: Option<Runtime>,
) -> Result<(), Fault>
    ensures { Reads ((form.declare_after number returned runtime).read input.old) result input.new }
{
    let symbol = function_name(alloc, input, SymbolSort::Declared(number))?;
    input.expect(Kind::OpenRound)?;
    let parameters = declared_parameters(alloc, input)?;
    input.expect(Kind::CloseRound)?;
    head_end(alloc, input, Spot::Declared)?;
    input.unnamed = 0;
    input.declares.push(Declare {
        symbol,
        runtime,
        returned,
        parameters,
    })?;
    Ok(())
}

/// Whether the name of an intrinsic that is left out is here, where the wide forms may stand.
fn names_left_out(alloc: Global, input: &Input<'_>) -> Result<bool, AllocError>
    ensures { IfOk result (λ left_out. left_out ≡ form.names_left_out input.now) }
{
    if !input.wide || !input.sees(Kind::GlobalName) {
        return Ok(false);
    }
    let name = input.cursor.spelled(alloc)?;
    let left_out = is_left_out(input.wide, name.as_slice());
    drop(name);
    Ok(left_out)
}

/// A declared intrinsic that is left out, from its name on. It enters no name.
fn passed_declare(alloc: Global, input: &mut Input<'_>) -> Result<(), Fault>
    ensures { Reads (form.passed_declare.read input.old) result input.new }
{
    input.skip();
    input.expect(Kind::OpenRound)?;
    past_brackets(alloc, input)?;
    head_end(alloc, input, Spot::Declared)?;
    Ok(())
}

/// `declare T @f(T, ..)`
#[tactic(auto, unfolding(crate::specs::ItemsOfText::declaration))]
fn declaration(alloc: Global, input: &mut Input<'_>) -> Result<(), Fault>
    ensures { Reads (form.declaration.read input.old) result input.new }
{
    if input.declares.len() >= 65535 {
        return Err(input.limit());
    }
    let number = DeclareId::new(input.declares.len() as u32);
    input.skip();
    let returned = declared_result(alloc, input)?;
    if names_left_out(alloc, input)? {
        return passed_declare(alloc, input);
    }
    let runtime = runtime_here(alloc, input)?;
    declare_after(alloc, input, number, returned, runtime)
}

/// The brace before a function's body.
#[tactic(auto, unfolding(crate::specs::ItemsOfText::open_body))]
pub fn open_body(input: &mut Input<'_>) -> Result<(), Fault>
    ensures { Reads (form.open_body.read input.old) result input.new }
{
    match input.kind() {
        Kind::OpenBrace => {
            input.skip();
            Ok(())
        }
        _ => Err(input.refuse(false)),
    }
}

/// `gc "name"`, if it is there.
#[tactic(auto, unfolding(crate::specs::ItemsOfText::collector))]
fn collector(alloc: Global, input: &mut Input<'_>) -> Result<Option<Items<u8>>, Fault>
    ensures { Reads (form.collector.read input.old) result input.new }
{
    if !input.sees(Kind::Gc) {
        return Ok(None);
    }
    input.skip();
    Ok(Some(input.quoted(alloc)?))
}

/// What decorates a function after its parameters. Returns the collector's name.
#[tactic(auto, unfolding(crate::specs::ItemsOfText::head_end))]
fn head_end(alloc: Global, input: &mut Input<'_>, spot: Spot) -> Result<Option<Items<u8>>, Fault>
    ensures { Reads ((form.head_end spot).read input.old) result input.new }
{
    decorations(alloc, input, spot)?;
    let collector = collector(alloc, input)?;
    decorations(alloc, input, spot)?;
    Ok(collector)
}

/// The head of a defined function.
#[derive(Drop)]
pub struct FunctionHead {
    symbol: SymbolId,
    returned: TypeId,
    parameters: Items<Parameter>,
    collector: Option<Items<u8>>,
}

/// `define T @f(T %a, ..) gc "name"`
#[tactic(auto, unfolding(crate::specs::ItemsOfText::head))]
fn head(alloc: Global, input: &mut Input<'_>, number: FuncId) -> Result<FunctionHead, Fault>
    ensures { Reads ((form.head number).read input.old) result input.new }
{
    input.skip();
    let returned = defined_result(alloc, input)?;
    head_after(alloc, input, number, returned)
}

/// What follows the result of a defined function.
#[tactic(auto, unfolding(crate::specs::Parameters::parameters))]
pub fn head_after(
    alloc: Global,
    input: &mut Input<'_>,
    number: FuncId,
    returned: TypeId,
) -> Result<FunctionHead, Fault>
    ensures { Reads ((form.head_after number returned).read input.old) result input.new }
{
    let symbol = function_name(alloc, input, SymbolSort::Defined(number))?;
    input.expect(Kind::OpenRound)?;
    let parameters = many::<DefinedParameters>(alloc, input)?;
    input.expect(Kind::CloseRound)?;
    let collector = head_end(alloc, input, Spot::Defined)?;
    Ok(FunctionHead {
        symbol,
        returned,
        parameters,
        collector,
    })
}

/// The end of a function: its names are checked, and the next function begins with none.
#[tactic(auto, unfolding(crate::specs::ItemsOfText::with_function))]
fn end_function(
    alloc: Global,
    input: &mut Input<'_>,
    head: FunctionHead,
    blocks: Items<Block>,
) -> Result<(), Fault>
    ensures { Reads ((form.end_function head blocks).read input.old) result input.new }
{
    if input.missing.is_none() {
        input.missing = first_missing(&input.locals, input.local_uses.as_slice());
    }
    let none = Table::new(alloc, input.locals.names.key());
    let locals = mem::replace(&mut input.locals, none);
    input.local_uses.clear();
    input.values = 0;
    input.unnamed = 0;
    input.functions.push(Function {
        symbol: head.symbol,
        returned: head.returned,
        parameters: head.parameters,
        collector: head.collector,
        locals: locals.names,
        sorts: locals.sorts,
        blocks,
    })?;
    Ok(())
}

/// `define T @f(T %a, ..) gc "name" { .. }`
#[tactic(auto, unfolding(crate::specs::ItemsOfText::definition))]
fn definition(alloc: Global, input: &mut Input<'_>) -> Result<(), Fault>
    ensures { Reads (form.definition.read input.old) result input.new }
{
    if input.functions.len() >= 65535 {
        return Err(input.limit());
    }
    let number = FuncId::new(input.functions.len() as u32);
    let head = head(alloc, input, number)?;
    body_after(alloc, input, head)
}

/// The body after a head.
pub fn body_after(alloc: Global, input: &mut Input<'_>, head: FunctionHead) -> Result<(), Fault>
    ensures { Reads ((form.body_after head).read input.old) result input.new }
{
    open_body(input)?;
    let blocks = all_blocks(alloc, input)?;
    input.expect(Kind::CloseBrace)?;
    end_function(alloc, input, head, blocks)
}

/// An item.
#[tactic(auto, unfolding(crate::specs::ItemsOfText::item))]
fn item(alloc: Global, input: &mut Input<'_>) -> Result<(), Fault>
    ensures { Reads (form.item.read input.old) result input.new }
{
    match input.kind() {
        Kind::LocalName => struct_type(alloc, input),
        Kind::GlobalName => global(alloc, input),
        Kind::Declare => declaration(alloc, input),
        Kind::Define => definition(alloc, input),
        Kind::SourceFilename => source_name(input),
        Kind::Target => target_line(input),
        Kind::Attributes => group(alloc, input),
        Kind::Word => comdat(input),
        Kind::Exclamation | Kind::MetadataName | Kind::MetadataNumber => metadata_line(
            alloc, input,
        ),
        kind => Err(input.refuse(begins_unread_item(kind))),
    }
}

/// The items of a text.
pub struct TextItems;

impl Listed for TextItems {
    ghost use Rattle.ir_text.specs.ItemsOfText.{item, at_end_of_text};

    type Item = ();

    ghost form = { item.read };

    ghost ends = { at_end_of_text };

    fn ends(input: &Input<'_>) -> bool {
        input.sees(Kind::End)
    }

    fn read(alloc: Global, input: &mut Input<'_>) -> Result<(), Fault> {
        item(alloc, input)
    }
}

/// All items of a text, with no bad byte after them.
#[tactic(auto, unfolding(crate::specs::ItemsOfText::whole, crate::specs::ItemsOfText::items))]
pub fn whole(alloc: Global, input: &mut Input<'_>) -> Result<(), Fault>
    ensures { Reads (form.whole.read input.old) result input.new }
{
    many::<TextItems>(alloc, input)?;
    if input.cursor.is_bad() {
        return Err(input.cursor.at_end());
    }
    Ok(())
}
